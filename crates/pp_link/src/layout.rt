//! The places of the words of a pool's table.

ghost use Rattle.std.specs.Prelude.{◌≡◌, ◌+◌, ◌*◌, ◌<◌, ◌≤◌};
ghost use Rattle.pp_link.specs.Places.{IsWithin, IsNumber, walk_place, frontier_place, shelf_place, head_place, cell_place, total};
ghost use Rattle.pp_link.specs.Places.{field_number};

use std::marker::Model;

/// How large a pool is: 1 to 64 passes, 8 to 262,144 records, 1 to 4,096 heads.
#[derive(Clone, Copy, Debug, PartialEq, Eq)]
pub struct Sizes {
    pub passes: u32,
    pub records: u32,
    pub heads: u32,
}

/// A field of a record: its key, the low half of its value, its links, and the high half of its value. A list uses the left
/// link as its next link.
#[derive(Clone, Copy, Debug, PartialEq, Eq)]
pub enum Field {
    Key,
    Value,
    Left,
    Right,
    /// The high half of the value.
    High,
}

/// Where the words of a table stand: first the seat word, always 0; then five walk words a pass, four frontier
/// words a pass, eight shelf words a pass, the heads, and five words a record.
#[derive(Clone, Copy, Debug, PartialEq, Eq)]
pub struct Layout {
    sizes: Sizes,
}

impl Model for Layout {
    ghost use Rattle.pp_link.specs.declared.layout.Sizes.{Sizes};
    ghost use Rattle.pp_link.specs.Places.{IsWithin};

    ghost Value = { Sizes };

    ghost view = { λ l. l.sizes };

    ghost invariant = { λ l. IsWithin l.sizes };

    ghost inverse = { λ z. record { sizes = z } };
}

impl Layout {
    /// The layout for sizes within the limits.
    pub fn new(sizes: Sizes) -> Layout
        requires { IsWithin sizes }
        ensures { result ≡ sizes }
    {
        Layout { sizes }
    }

    /// The sizes that it was made for.
    pub fn sizes(&self) -> Sizes
        ensures same { result ≡ self.now }
        ensures within { IsWithin self.now }
    {
        self.sizes
    }

    /// The number of words.
    pub fn total(&self) -> u32
        ensures { result ≡ total self.now }
    {
        1 + 17 * self.sizes.passes + self.sizes.heads + 5 * self.sizes.records
    }

    /// The place of a pass's walk word, one of five.
    pub fn walk_word(&self, pass: u32, word: u8) -> u32
        requires pass { pass < self.now.passes }
        requires word { word < 5 }
        ensures { result ≡ walk_place self.now pass word }
    {
        let _sizes = self.sizes;
        1 + 5 * pass + word as u32
    }

    /// The place of a pass's frontier word, one of four.
    pub fn frontier_word(&self, pass: u32, word: u8) -> u32
        requires pass { pass < self.now.passes }
        requires word { word < 4 }
        ensures { result ≡ frontier_place self.now pass word }
    {
        1 + 5 * self.sizes.passes + 4 * pass + word as u32
    }

    /// The place of a shelf word, of which there are eight a pass.
    pub fn shelf_word(&self, shelf: u32) -> u32
        requires { shelf < 8 * self.now.passes }
        ensures { result ≡ shelf_place self.now shelf }
    {
        1 + 9 * self.sizes.passes + shelf
    }

    /// The place of a head.
    pub fn head_word(&self, head: u32) -> u32
        requires { head < self.now.heads }
        ensures { result ≡ head_place self.now head }
    {
        1 + 17 * self.sizes.passes + head
    }

    /// The place of a field of a record; records have the numbers from 1.
    pub fn cell(&self, number: u32, field: Field) -> u32
        requires { IsNumber self.now number }
        ensures { result ≡ cell_place self.now number (field_number field) }
    {
        1 + 17 * self.sizes.passes + self.sizes.heads + 5 * (number - 1) + field as u32
    }
}
