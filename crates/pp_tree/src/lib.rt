//! A search tree over a pool, as a map that callers share. The layers above `start` one and use it as any map, by `MapCalls`.
#![tactic(auto)]

pub mod calls;

ghost use Rattle.std.specs.Prelude.{◌≡◌, IfOk, length};
ghost use Rattle.pp_link.specs.Places.{IsWithin};
ghost use Rattle.pp_model.specs.Lists.{AtEach};
ghost use Rattle.pp_model.specs.MapCalls.{IsClean};
ghost use Rattle.pp_model.specs.Pass.{IsFresh};
ghost use Rattle.pp_calls.specs.PoolViews.{pass_view};
ghost use Rattle.pp_ends.specs.Ends.{map_sizes};
ghost use Rattle.pp_rule.specs.Opening.{share_of};
ghost use Rattle.pp_tree_turns.specs.Causes.{tree_meaning};
ghost use Rattle.pp_turns.specs.Passes.{IsMember, IsResting};
ghost use Rattle.pp_tree.specs.Trees.{tree_sizes};

use pp_base::{Pass, Pool};
use pp_edges::TreeShape;
use pp_link::Sizes;
use pp_model::NoMemory;
use pp_pool::opening::make_pool;
pub use pp_tree_calls::TreeGoing;
use std::alloc::Global;

/// An external search tree: the pairs stand in its leaves. Each of its callers has a pass, and all of them may make their calls
/// beside each other.
///
/// The tree is Natarajan and Mittal's ("Fast Concurrent Lock-Free Binary Search Trees", 2014).
#[derive(Drop)]
pub struct Tree {
    pub pool: Pool<TreeShape>,
}

impl Tree {
    /// An empty tree over so many records, and a pass for each caller, the one with the number 0 first. Exactly five records are
    /// attached to it. It takes all the memory that any later call but `close` needs.
    ///
    /// There are 1 to 64 passes and 8 to 262,144 records.
    ///
    /// # Errors
    ///
    /// There was no memory.
    pub fn start(
        alloc: Global,
        passes: u32,
        records: u32,
    ) -> Result<(Tree, Vec<Pass<TreeShape>>), NoMemory>
        requires { IsWithin (tree_sizes passes records) }
        ensures sizes { IfOk result (λ made. made.0.pool.layout ≡ tree_sizes passes records) }
        ensures count { IfOk result (λ made. length made.1.items ≡ passes) }
        ensures belong { IfOk result (λ made. AtEach made.1.items (λ k p. IsMember made.0.pool.table.shared.table_id made.0.pool.layout
            p)) }
        ensures rest { IfOk result (λ made. AtEach made.1.items (λ k p. IsResting p)) }
        ensures fresh { IfOk result (λ made. AtEach made.1.items (λ k p. IsFresh (pass_view p))) }
        ensures share { IfOk result (λ made. AtEach made.1.items (λ k p. (pass_view p).share
            ≡ share_of 5 (tree_sizes passes records) k)) }
        ensures callers { IfOk result (λ made. AtEach made.1.items (λ k p. (pass_view p).caller ≡ k)) }
        ensures clean { IfOk result (λ made. AtEach made.1.items (λ k p. IsClean tree_meaning (map_sizes made.0.pool.layout)
            (pass_view p))) }
    {
        let sizes = Sizes {
            passes,
            records,
            heads: 1,
        };
        let (pool, passes) = make_pool(alloc, sizes)?;
        Ok((Tree { pool }, passes))
    }

    /// The pool of its records.
    pub fn pool(&self) -> &Pool<TreeShape>
        ensures { result.now ≡ self.now.pool }
    {
        &self.pool
    }
}
