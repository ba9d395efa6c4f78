//! Where a pass loads a link, and what it finds there.

ghost use Rattle.std.specs.Prelude.{◌≡◌, ◌+◌, ◌^◌, ◌<◌};
ghost use Rattle.pp_link.specs.Links.{word_of, target, bit, invalid_bit};
ghost use Rattle.pp_link.specs.Places.{field_number};
ghost use Rattle.pp_base.specs.Sources.{side_number};

use pp_link::{Field, Link};

/// One of the two links of a record. A list uses the left one alone.
#[derive(Clone, Copy, Debug, PartialEq, Eq)]
pub enum Side {
    Left,
    Right,
}

impl Side {
    /// The field that is this link.
    pub fn field(self) -> Field
        ensures { field_number result ≡ 2 + side_number self }
    {
        match self {
            Side::Left => Field::Left,
            Side::Right => Field::Right,
        }
    }
}

/// Where a link stands: in a head, or in the record that the pass holds in one of its walk words.
#[derive(Clone, Copy, Debug, PartialEq, Eq)]
pub enum Place {
    Head(u32),
    Walk(u8),
}

/// The link that a word of the table packs.
pub fn unpacked(word: u64) -> Link
    requires { word < 2 ^ 36 }
    ensures word { word_of result ≡ word }
    ensures number { result.number ≡ target word }
    ensures invalid { bit result.invalid ≡ invalid_bit word }
{
    Link::of(word).unwrap()
}
