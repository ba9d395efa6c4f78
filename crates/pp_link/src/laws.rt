//! What holds of all links and of all layouts.

ghost use Rattle.std.specs.Prelude.{◌≡◌, ℕ};
ghost use Rattle.pp_link.specs.declared.link.Link.{Link};
ghost use Rattle.pp_link.specs.Links.{word_of, link_of};
ghost use Rattle.pp_link.specs.declared.layout.Sizes.{Sizes};
ghost use Rattle.pp_link.specs.Places.{IsLayout};

/// The word and the parts of a link determine each other.
pub fn words_are_links()
    ensures link { (w : ℕ) → word_of (link_of w) ≡ w }
    ensures parts { (l : Link) → link_of (word_of l) ≡ l }
{}

/// Different words of a table have different places, all below the total, and each place below it is a word's.
pub fn places_are_words()
    ensures { (z : Sizes) → IsLayout z }
{}
