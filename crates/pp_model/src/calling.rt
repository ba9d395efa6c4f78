//! Calls on any map, made turn by turn.

ghost use Rattle.std.specs.Prelude.{◌≡◌, ◌-◌, ◌^◌, ◌≤◌, [], length, vec_capacity};
ghost use Rattle.pp_model.specs.Lists.{AtEach, IsPrefix};
ghost use Rattle.pp_model.specs.Calls.{key_of};
ghost use Rattle.pp_model.specs.MapCalls.{MayCall, AnswersCall, AnswersCalls, MineGrew};

use crate::lists::enter;
use crate::{Answer, Call, MapCalls, Turned};

/// Makes one call, turn by turn, and gives its answer.
///
/// The pass is an idle one of this map with room for the call, the key is at most 2^64 - 4, and the budget of lost turns is
/// at least 1.
pub fn answer_one<M: MapCalls>(map: &M, pass: &mut M::Pass, call: Call, races: u64) -> Answer
    requires belongs { M.Belongs map.now pass.old }
    requires idle { M.Idle pass.old }
    requires may { MayCall call races (M.pass_view pass.old) }
    ensures belongs { M.Belongs map.now pass.new }
    ensures idle { M.Idle pass.new }
    ensures answered { AnswersCall M.meaning (M.sizes map.now) call races
        (M.pass_view pass.old) (M.pass_view pass.new) result }
{
    let mut going = map.begin(pass, call, races);
    loop {
        if let Turned::Done(answer) = map.turn(pass, &mut going) {
            map.finish(going);
            return answer;
        }
    }
}

/// Makes the calls in order, and enters their answers in the list.
///
/// The pass is an idle one of this map with room for the calls, the keys are at most 2^64 - 4, the budget of lost turns of
/// each call is at least 1, and the list of answers is empty and has room for one answer for each call.
pub fn answer_all<M: MapCalls>(
    map: &M,
    pass: &mut M::Pass,
    calls: &[Call],
    races: u64,
    answers: &mut Vec<Answer>,
)
    requires belongs { M.Belongs map.now pass.old }
    requires idle { M.Idle pass.old }
    requires keys { AtEach calls.now (λ k call. key_of call ≤ 2 ^ 64 - 4) }
    requires races { 1 ≤ races }
    requires room { length calls.now ≤ (M.pass_view pass.old).room }
    requires none { answers.old.items ≡ [] }
    requires space { length calls.now ≤ vec_capacity answers.old }
    ensures belongs { M.Belongs map.now pass.new }
    ensures idle { M.Idle pass.new }
    ensures answered { AnswersCalls M.meaning (M.sizes map.now) races
        (M.pass_view pass.old) calls.now answers.new.items (M.pass_view pass.new) }
    ensures caller { (M.pass_view pass.new).caller ≡ (M.pass_view pass.old).caller }
    ensures each { length answers.new.items ≡ length calls.now }
    ensures mine { MineGrew calls.now answers.new.items (M.pass_view pass.old) (M.pass_view pass.new) }
    ensures steps { IsPrefix (M.pass_view pass.old).steps (M.pass_view pass.new).steps }
{
    for call in calls {
        let answer = answer_one(map, pass, *call, races);
        enter(answers, answer);
    }
}
