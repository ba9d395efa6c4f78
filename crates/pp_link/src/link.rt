//! A link, and the word that packs it.

ghost use Rattle.std.specs.Prelude.{◌≡◌, ◌^◌, ◌<◌, ◌≤◌, IfSome, IfNone};
ghost use Rattle.pp_link.specs.Links.{word_of, link_of};

/// A link: the number of the record that it leads to, 0 for nil, and the bits FLAG, TAG, INVALID and LEAF. It
/// stands in the table as one word: 16 times the number, and the bits 0 to 3 in this order.
///
/// FLAG in a list is the mark of Harris ("A Pragmatic Implementation of Non-Blocking Linked-Lists", 2001): the
/// record that holds the link is removed. In a tree FLAG and TAG are those of Natarajan and Mittal ("Fast
/// Concurrent Lock-Free Binary Search Trees", 2014). INVALID says that the record that holds the link was
/// detached and invalidated. LEAF says that the target is a leaf.
#[derive(Clone, Copy, Debug, PartialEq, Eq)]
pub struct Link {
    number: u32,
    flag: bool,
    tag: bool,
    invalid: bool,
    leaf: bool,
}

impl Link {
    /// The link with this number and these bits.
    pub fn pack(number: u32, flag: bool, tag: bool, invalid: bool, leaf: bool) -> Link
        ensures { result ≡ record { number = number; flag = flag; tag = tag; invalid = invalid; leaf = leaf } }
    {
        Link {
            number,
            flag,
            tag,
            invalid,
            leaf,
        }
    }

    /// The link that a word packs. None comes exactly where a bit above bit 35 is 1.
    pub fn of(word: u64) -> Option<Link>
        ensures some { IfSome result (λ l. (word < 2 ^ 36) × (word_of l ≡ word)) }
        ensures none { IfNone result (2 ^ 36 ≤ word) }
    {
        if word >= 1 << 36 {
            return None;
        }
        Some(Link {
            number: (word / 16) as u32,
            flag: word % 2 == 1,
            tag: word / 2 % 2 == 1,
            invalid: word / 4 % 2 == 1,
            leaf: word / 8 % 2 == 1,
        })
    }

    /// The word that packs the link.
    pub fn word(&self) -> u64
        ensures word { result ≡ word_of self.now }
        ensures small { result < 2 ^ 36 }
    {
        let bits = 8 * self.leaf as u64
            + 4 * self.invalid as u64
            + 2 * self.tag as u64
            + self.flag as u64;
        16 * self.number as u64 + bits
    }

    /// The number of the record that it leads to, 0 for nil.
    pub fn number(&self) -> u32
        ensures { result ≡ self.now.number }
    {
        self.number
    }

    /// Whether FLAG is set.
    pub fn flag(&self) -> bool
        ensures { result ≡ self.now.flag }
    {
        self.flag
    }

    /// Whether TAG is set.
    pub fn tag(&self) -> bool
        ensures { result ≡ self.now.tag }
    {
        self.tag
    }

    /// Whether INVALID is set.
    pub fn invalid(&self) -> bool
        ensures { result ≡ self.now.invalid }
    {
        self.invalid
    }

    /// Whether LEAF is set.
    pub fn leaf(&self) -> bool
        ensures { result ≡ self.now.leaf }
    {
        self.leaf
    }
}
