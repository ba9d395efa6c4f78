//! Parts of a scene over any map: a call made whole, or turn by turn, and its closing. Each tells whether it went as the scene says,
//! for a test to claim.

ghost use Rattle.std.specs.Prelude.{◌≡◌, ◌≤◌, ◌+◌, true, length, map, IfSome};
ghost use Rattle.pp_model.specs.Lists.{AtEach};
ghost use Rattle.pp_model.specs.Pass.{PassView};
ghost use Rattle.pp_model.specs.MapCalls.{MayCall, IsClosing};

use pp_model::calling::answer_one;
use pp_model::{Answer, Call, Closed, MapCalls, Turned};
use std::alloc::Global;

/// Makes a call, of which so many turns may be lost. Tells whether it is answered so.
pub fn answers<M: MapCalls>(
    map: &M,
    pass: &mut M::Pass,
    call: Call,
    races: u64,
    answer: Answer,
) -> bool
    requires belongs { M.Belongs map.now pass.old }
    requires idle { M.Idle pass.old }
    requires may { MayCall call races (M.pass_view pass.old) }
    ensures belongs { M.Belongs map.now pass.new }
    ensures idle { M.Idle pass.new }
    ensures caller { (M.pass_view pass.new).caller ≡ (M.pass_view pass.old).caller }
    ensures room { (M.pass_view pass.old).room ≤ (M.pass_view pass.new).room + 1 }
{
    answer_one(map, pass, call, races) == answer
}

/// Makes so many turns of a going call, or as many as there are up to its answer. Tells whether it goes on still.
pub fn goes_on<M: MapCalls>(map: &M, pass: &mut M::Pass, going: &mut M::Going, count: u32) -> bool
    requires belongs { M.Belongs map.now pass.old }
    requires going { (before : PassView) × M.UnderWay map.now pass.old going.old before }
    ensures belongs { M.Belongs map.now pass.new }
    ensures going { result ≡ true → (before : PassView) × M.UnderWay map.now pass.new going.new before }
    ensures caller { (M.pass_view pass.new).caller ≡ (M.pass_view pass.old).caller }
{
    for _ in 0..count {
        if let Turned::Done(_) = map.turn(pass, going) {
            return false;
        }
    }
    true
}

/// Makes a turn of a going call. Tells whether it is answered so.
pub fn ends<M: MapCalls>(map: &M, pass: &mut M::Pass, going: &mut M::Going, answer: Answer) -> bool
    requires belongs { M.Belongs map.now pass.old }
    requires going { (before : PassView) × M.UnderWay map.now pass.old going.old before }
    ensures belongs { M.Belongs map.now pass.new }
    ensures idle { result ≡ true → M.Idle pass.new }
    ensures caller { (M.pass_view pass.new).caller ≡ (M.pass_view pass.old).caller }
{
    match map.turn(pass, going) {
        Turned::On => false,
        Turned::Done(got) => got == answer,
    }
}

/// Closes a map over its passes. Where memory is refused, what came back is closed once more.
pub fn closes<M: MapCalls + Drop>(
    whole: M,
    alloc: Global,
    passes: Vec<M::Pass>,
) -> Option<Closed<M::Witness>>
where
    M::Pass: Drop,
    M::Witness: Drop,
    requires all { length passes.items ≡ (M.sizes whole).passes }
    requires each { AtEach passes.items (λ k p. M.Belongs whole p × M.Idle p × ((M.pass_view p).caller ≡ k)) }
    ensures closed { IfSome result (λ c. IsClosing M.meaning (M.sizes whole) (map M.pass_view passes.items)
        c.contents.items c.free.items (M.run_view c.witness)) }
{
    match whole.close(alloc, passes) {
        Ok(closed) => Some(closed),
        Err(refused) => refused.map.close(alloc, refused.passes).ok(),
    }
}

/// Tells whether a map that was closed held exactly these pairs, and whether exactly these records were free.
pub fn held<W>(closed: &Closed<W>, pairs: &[(u64, u128)], free: &[u32]) -> bool {
    closed.free() == free
        && closed.contents().len() == pairs.len()
        && closed.contents().iter().zip(pairs).all(|(found, pair)| found.key == pair.0
            && found.value == pair.1)
}
