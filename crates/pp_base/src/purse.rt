//! What a pass has beside its seat and its walk words.

ghost use Rattle.std.specs.Prelude.{◌<◌, length, vec_capacity};
ghost use Rattle.pp_base.specs.Chains.{TookInHand};

/// A chain that the pass detached: its first record, the frontier word that guards it, and the record that it leads to,
/// or 0.
#[derive(Clone, Copy, Debug, PartialEq, Eq)]
pub struct InHand {
    pub first: u32,
    pub guard: u8,
    pub frontier: u32,
}

/// The lists of a pass.
#[derive(Drop)]
pub struct Purse {
    /// The free records that were not taken.
    pub free: Vec<u32>,
    /// The retired records, and behind them those of the oldest chain in hand whose links have INVALID already.
    pub retired: Vec<u32>,
    /// How many of these are not retired yet.
    pub spent: usize,
    /// The chains in hand, the oldest first.
    pub chains: Vec<InHand>,
    /// The number in each frontier word.
    pub frontier: [u32; 4],
    /// How many records that were taken are neither published nor given back.
    pub taken: u32,
    /// Whether a call of a map is going on.
    pub going: bool,
}

impl Purse {
    /// One more chain is in hand, the newest. There is room for it.
    pub fn take_in_hand(&mut self, chain: InHand)
        requires { length self.old.chains.items < vec_capacity self.old.chains }
        ensures { TookInHand chain self.old self.new }
    {
        self.chains.push(chain).unwrap();
    }
}
