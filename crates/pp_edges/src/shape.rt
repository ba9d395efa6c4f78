//! The shape of a search tree.

ghost use Rattle.pp_trees.specs.Trees.{root_head};
ghost use Rattle.pp_trees.specs.Searches.{Trees, forget_word, tree_chain, MaySpliceHere, caller_of};
ghost use Rattle.pp_trees.specs.Sentinels.{sentinel_field, fresh_own, has_mark};
ghost use Rattle.pp_trees.specs.Gathering.{TreeGathered, live_in_tree, TreeTells, TreeTellsPass};
ghost use Rattle.pp_edges.specs.TreeLaws.{tree_sided, tree_fits, tree_heads_open, tree_links_open, tree_freezes, tree_opened};
ghost use Rattle.pp_edges.specs.TreeLaws.{tree_own_changes, tree_reached, trees_alike, trees_cleared, trees_invalidated};
ghost use Rattle.pp_edges.specs.TreeLaws.{tree_chained, tree_detaches, tree_detached, tree_gathers};

use pp_link::{Field, Layout, Link};
use pp_model::{Change, Pair, Placed};
use pp_rule::Shape;
use pp_trees::{TreeOwn, gathering, opening};

/// The shape of an external search tree: the pairs stand in its leaves, and an edge with FLAG leads to a leaf that goes.
pub struct TreeShape {}

impl Shape for TreeShape {
    type Entry = Change;

    type Said = Placed;

    type Own = TreeOwn;

    const SENTINELS: u32 = 5;

    const NEED: u32 = 2;

    const SIDES: u8 = 2;

    ghost SENTINELS = { 5 };

    ghost NEED = { 2 };

    ghost SIDES = { 2 };

    ghost first_head = { root_head };

    ghost first_field = { sentinel_field };

    ghost fresh = { fresh_own };

    ghost addition = { λ z words g. Trees z words g };

    ghost frozen = { has_mark };

    ghost forget = { forget_word };

    ghost chain = { tree_chain };

    ghost may_detach = { MaySpliceHere };

    ghost gathered = { TreeGathered };

    ghost live_count = { live_in_tree };

    ghost tells = { TreeTells };

    ghost tells_pass = { TreeTellsPass };

    ghost caller_of = { caller_of };

    fn opening(number: u32, field: Field) -> u64 {
        opening::opening(number, field)
    }

    fn head(head: u32) -> Link {
        opening::head(head)
    }

    fn gather(layout: &Layout, words: &[u64], contents: &mut Vec<Pair>, live: &mut Vec<u32>) {
        gathering::gather(layout, words, contents, live);
    }

    ghost sided = { tree_sided };

    ghost fits = { tree_fits };

    ghost heads_open = { tree_heads_open };

    ghost links_open = { tree_links_open };

    ghost freezes = { tree_freezes };

    ghost opened = { tree_opened };

    ghost alike = { trees_alike };

    ghost clears = { trees_cleared };

    ghost invalidates = { trees_invalidated };

    ghost chained = { tree_chained };

    ghost detaches = { tree_detaches };

    ghost detached = { tree_detached };

    ghost own_changes = { tree_own_changes };

    ghost reached = { tree_reached };

    ghost gathers = { tree_gathers };
}
