//! A seek of a call: from the head of a tree to the leaf at the end of the walk for the call's key.

ghost use Rattle.std.specs.Prelude.{◌≡◌, ◌<◌, true, false, None, IfSome};
ghost use Rattle.pp_model.specs.Calls.{key_of};
ghost use Rattle.pp_base.specs.Passes.{known, view, Fits, IsSame};
ghost use Rattle.pp_seek.specs.Trails.{Clears};
ghost use Rattle.pp_seek.specs.Seeking.{words_of, Seeks, Turned, LetsAllGo};
ghost use Rattle.pp_seek.specs.Lone.{LoneSeek, LoneTurned};

use crate::keeping::{Words, keep_only};
use crate::turn::{Down, enter, go_down, key_of_call};
use pp_base::{Pass, Place, Pool, Side};
use pp_edges::TreeShape;
use pp_link::Link;
use pp_model::Call;

/// The last edge without TAG over which a seek went: from the ancestor, held in a walk word, at this side, to the successor,
/// held in the walk word `top`.
#[derive(Clone, Copy, Debug, PartialEq, Eq)]
pub struct Above {
    pub ancestor: u8,
    pub side: Side,
    pub successor: Link,
    pub top: u8,
}

/// Where a seek stands: at an internal record that is held in a walk word, with this key. The keys that the seek may still
/// come to are those from `low` on that are below `high`: it went right at lower keys and left at higher ones. Only at the
/// root no edge lies above.
#[derive(Clone, Copy, Debug, PartialEq, Eq)]
pub struct Spot {
    pub word: u8,
    pub key: u64,
    pub low: u64,
    pub high: u64,
    pub above: Option<Above>,
}

impl Spot {
    /// The walk words that are in use.
    pub fn words(self) -> Words
        ensures { result ≡ words_of self }
    {
        match self.above {
            None => Words {
                first: self.word,
                second: self.word,
                third: self.word,
            },
            Some(above) => Words {
                first: self.word,
                second: above.ancestor,
                third: above.top,
            },
        }
    }
}

/// What a seek came to: the last edge without TAG on its way, from the ancestor to the successor; the parent, to which the
/// way from the successor goes over edges with TAG alone; and the parent's edge to the leaf at the end, which is held in a
/// walk word. All four records are held.
#[derive(Clone, Copy, Debug, PartialEq, Eq)]
pub struct Sought {
    pub ancestor: Place,
    pub ancestor_side: Side,
    pub successor: Link,
    pub parent: Place,
    pub side: Side,
    pub edge: Link,
    /// The walk word in which the leaf is held.
    pub word: u8,
    /// Whether the leaf has the call's key.
    pub equal: bool,
}

/// What a turn of a seek came to.
#[derive(Clone, Copy, Debug, PartialEq, Eq)]
pub enum SeekTurn {
    /// The seek stands at a further internal record.
    On,
    /// It ended at a leaf.
    At(Sought),
    /// The turn was lost: an edge had become another one between two loads, or it has INVALID, or the key of the next record
    /// lies outside the bounds.
    Lost,
}

/// A seek that was begun.
#[derive(Clone, Copy, Debug, PartialEq, Eq)]
pub struct Seek {
    pub call: Call,
    /// Whether the first load of the call is still to come.
    pub fresh: bool,
    /// Where it stands; none at the head.
    pub spot: Option<Spot>,
}

impl Seek {
    /// The first seek of a call. It makes no step.
    pub fn begin(call: Call) -> Seek
        ensures { result ≡ record { call = call; fresh = true; spot = None } }
    {
        Seek {
            call,
            fresh: true,
            spot: None,
        }
    }

    /// A further seek of a call that was begun.
    pub fn again(call: Call) -> Seek
        ensures { result ≡ record { call = call; fresh = false; spot = None } }
    {
        Seek {
            call,
            fresh: false,
            spot: None,
        }
    }

    /// Makes one turn: from the head to the root, or over one edge. On: the seek stands at a further internal record, whose key
    /// lies between the bounds, so fewer keys are left. At: it ended at a leaf. Lost: the turn was lost. Where an edge
    /// had become another one, the seek stays; else it stands at the head again, and its bounds are forgotten. A pass that is
    /// alone on its pool loses no turn where no record that can be reached is removed, and both edges that it ends at stand.
    ///
    /// That a walk goes on through removed records until it meets one whose links can't be trusted any more is in outline the
    /// way of Jung, Lee, Kim and Kang ("Applying Hazard Pointers to More Concurrent Data Structures", 2023).
    pub fn turn(&mut self, pool: &Pool<TreeShape>, pass: &mut Pass<TreeShape>) -> SeekTurn
        requires fits { Fits pool.now.table.shared.table_id pool.now.layout pass.old.seat }
        requires seeks { Seeks (known pass.old.seat) self.old }
        ensures same { IsSame pass.old.seat pass.new.seat }
        ensures turned { Turned pool.now.layout self.old self.new (view pass.old.seat) (view pass.new.seat) result }
        ensures alone { LoneSeek pool.now.layout self.old.spot (view pass.old.seat)
            → LoneTurned pool.now.layout self.new.spot (view pass.new.seat) result }
        ensures call { self.new.call ≡ self.old.call }
        ensures begun { self.new.fresh ≡ false }
        ensures purse { pass.new.purse ≡ pass.old.purse }
    {
        let Some(spot) = self.spot else {
            self.spot = Some(enter(pool, pass, self.call, self.fresh));
            self.fresh = false;
            return SeekTurn::On;
        };
        match go_down(pool, pass, spot, key_of_call(self.call)) {
            Down::Moved => SeekTurn::Lost,
            Down::Broken => {
                self.spot = None;
                SeekTurn::Lost
            }
            Down::Came(next) => {
                self.spot = Some(next);
                SeekTurn::On
            }
            Down::Ended(sought) => SeekTurn::At(sought),
        }
    }

    /// Lets go of all that the seek holds.
    pub fn done(self, pool: &Pool<TreeShape>, pass: &mut Pass<TreeShape>)
        requires fits { Fits pool.now.table.shared.table_id pool.now.layout pass.old.seat }
        ensures same { IsSame pass.old.seat pass.new.seat }
        ensures lets { LetsAllGo (view pass.old.seat) (view pass.new.seat) }
        ensures clears { Clears (view pass.old.seat) (view pass.new.seat) }
        ensures purse { pass.new.purse ≡ pass.old.purse }
    {
        let none = Words {
            first: 5,
            second: 5,
            third: 5,
        };
        keep_only(pool, pass, none);
    }
}
