//! A hash table over a pool: one list for each bucket of keys. The layers above `start` one and use it as any map, by `MapCalls`.
#![tactic(auto)]

pub mod calls;

ghost use Rattle.std.specs.Prelude.{◌≡◌, ◌<◌, IfOk, length};
ghost use Rattle.pp_link.specs.Places.{IsWithin};
ghost use Rattle.pp_model.specs.Lists.{AtEach};
ghost use Rattle.pp_model.specs.MapCalls.{IsClean};
ghost use Rattle.pp_model.specs.Pass.{IsFresh};
ghost use Rattle.pp_lists.specs.Walks.{bucket};
ghost use Rattle.pp_calls.specs.PoolViews.{pass_view};
ghost use Rattle.pp_ends.specs.Ends.{map_sizes};
ghost use Rattle.pp_list.specs.Meant.{list_meaning};
ghost use Rattle.pp_rule.specs.Opening.{share_of};
ghost use Rattle.pp_turns.specs.Passes.{IsMember, IsResting};
ghost use Rattle.pp_buckets.specs.Tables.{table_sizes};

use pp_base::{Pass, Pool};
use pp_link::Sizes;
use pp_model::NoMemory;
use pp_pool::opening::make_pool;
use pp_walk::ListShape;
use std::alloc::Global;

/// A hash table: each key belongs to one of its buckets, and each bucket is a list of a pool. With one bucket it is a list.
/// Each of its callers has a pass, and all of them may make their calls beside each other.
///
/// A table of lists is Michael's ("High Performance Dynamic Lock-Free Hash Tables and List-Based Sets", 2002).
#[derive(Drop)]
pub struct Buckets {
    pub pool: Pool<ListShape>,
}

impl Buckets {
    /// An empty table of so many buckets over so many records, and a pass for each caller, the one with the number 0 first.
    /// It takes all the memory that any later call but `close` needs.
    ///
    /// There are 1 to 64 passes, 8 to 262,144 records, and 1 to 65,536 buckets.
    ///
    /// # Errors
    ///
    /// There was no memory.
    pub fn start(
        alloc: Global,
        passes: u32,
        records: u32,
        buckets: u32,
    ) -> Result<(Buckets, Vec<Pass<ListShape>>), NoMemory>
        requires { IsWithin (table_sizes passes records buckets) }
        ensures sizes { IfOk result (λ made. made.0.pool.layout ≡ table_sizes passes records buckets) }
        ensures count { IfOk result (λ made. length made.1.items ≡ passes) }
        ensures belong { IfOk result (λ made. AtEach made.1.items (λ k p. IsMember made.0.pool.table.shared.table_id made.0.pool.layout
            p)) }
        ensures rest { IfOk result (λ made. AtEach made.1.items (λ k p. IsResting p)) }
        ensures fresh { IfOk result (λ made. AtEach made.1.items (λ k p. IsFresh (pass_view p))) }
        ensures share { IfOk result (λ made. AtEach made.1.items (λ k p. (pass_view p).share
            ≡ share_of 0 (table_sizes passes records buckets) k)) }
        ensures callers { IfOk result (λ made. AtEach made.1.items (λ k p. (pass_view p).caller ≡ k)) }
        ensures clean { IfOk result (λ made. AtEach made.1.items (λ k p. IsClean list_meaning (map_sizes made.0.pool.layout)
            (pass_view p))) }
    {
        let heads = buckets;
        let sizes = Sizes {
            passes,
            records,
            heads,
        };
        let (pool, passes) = make_pool(alloc, sizes)?;
        Ok((Buckets { pool }, passes))
    }

    /// The pool of its records.
    pub fn pool(&self) -> &Pool<ListShape>
        ensures { result.now ≡ self.now.pool }
    {
        &self.pool
    }

    /// The bucket of a key: the upper half of the key's product with an odd number near 2^64 divided by the golden ratio, by
    /// the number of buckets. The product wraps at 2^64.
    ///
    /// Multiplying by such a number is Knuth's ("The Art of Computer Programming", volume 3, 1973).
    pub fn bucket(&self, key: u64) -> u32
        ensures low { result < self.now.pool.layout.heads }
        ensures home { result ≡ bucket self.now.pool.layout.heads key }
    {
        home(self.pool.layout.sizes().heads, key)
    }
}

/// The bucket of a key, of so many.
fn home(heads: u32, key: u64) -> u32
    requires { 0 < heads }
    ensures low { result < heads }
    ensures home { result ≡ bucket heads key }
{
    let mixed = key.wrapping_mul(11400714819323198485) / 4294967296;
    (mixed % heads as u64) as u32
}
