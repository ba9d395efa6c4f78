//! Opening and closing a pool for a scene, and the sizes of a small pool.

ghost use Rattle.std.specs.Prelude.{◌≡◌, length};
ghost use Rattle.pp_link.specs.Places.{IsWithin};
ghost use Rattle.pp_model.specs.Lists.{AtEach};
ghost use Rattle.pp_base.specs.Passes.{IsIdle};
ghost use Rattle.pp_pool.specs.Opened.{AreNewPasses};
ghost use Rattle.pp_pool.specs.Closed.{IsSeatOf};

use pp_base::{Pass, Pool};
use pp_link::Sizes;
use pp_model::Closed;
use pp_pool::{Witness, close, make_pool};
use pp_rule::Shape;
use std::alloc::Global;
use std::process::Abort;

/// One pass, eight records and one head.
pub(crate) const SMALLEST: Sizes = Sizes {
    passes: 1,
    records: 8,
    heads: 1,
};

/// A pool of this shape, and its passes.
pub(crate) fn open<S: Shape>(
    rt: &impl Abort,
    alloc: Global,
    sizes: Sizes,
) -> (Pool<S>, Vec<Pass<S>>)
    requires { IsWithin sizes }
    ensures sizes { result.0.layout ≡ sizes }
    ensures count { length result.1.items ≡ sizes.passes }
    ensures passes { AreNewPasses result.0.table.shared.table_id sizes result.1.items }
{
    let Ok(made) = make_pool(alloc, sizes) else {
        panic!(rt; "no memory");
    };
    made
}

/// Closes the pool.
pub(crate) fn end<S: Shape>(
    rt: &impl Abort,
    alloc: Global,
    pool: Pool<S>,
    passes: Vec<Pass<S>>,
) -> Closed<Witness<S>>
    requires all { length passes.items ≡ pool.layout.passes }
    requires each { AtEach passes.items (λ k p. IsSeatOf pool.table.shared.table_id pool.layout k p.seat) }
    requires idle { AtEach passes.items (λ k p. IsIdle p.walk p.purse) }
{
    match close(alloc, pool, passes) {
        Ok(closed) => closed,
        Err(_fault) => panic!(rt; "no memory"),
    }
}
