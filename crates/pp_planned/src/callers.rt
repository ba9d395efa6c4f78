//! The callers of a run by a plan, made of passes and lists, and taken apart again.

ghost use Rattle.std.specs.Prelude.{◌≡◌, ◌≤◌, map, length, vec_capacity, Some, None, [], ◌∷◌, ◌++◌, All, IfOk, OnOk};
ghost use Rattle.pp_model.specs.Lists.{AtEach};
ghost use Rattle.pp_running.specs.Run.{IsOpened};
ghost use Rattle.pp_running.specs.Jobs.{views_of};
ghost use Rattle.pp_schedule.specs.Calls.{answers_of, marks_of};
ghost use Rattle.pp_schedule.specs.Seats.{calls_of};
ghost use Rattle.pp_planned.specs.Planned.{somes, told_nothing};

use pp_model::{Answer, Call, MapCalls, NoMemory};
use pp_running::jobs::append;
use pp_schedule::caller::{Caller, Marked};
use std::alloc::Global;

/// A note of the first pass, which has seen nothing. All passes may learn it.
pub fn first_note<M: MapCalls>(map: &M, passes: &mut Vec<M::Pass>) -> M::Note
    requires passes { AtEach passes.old.items (λ c pass. M.Belongs map.now pass × M.Idle pass × IsOpened c (M.pass_view pass)) }
    requires some { 1 ≤ length passes.old.items }
    ensures passes { AtEach passes.new.items (λ c pass. M.Belongs map.now pass × M.Idle pass × IsOpened c (M.pass_view pass)) }
    ensures same { views_of M.pass_view passes.new.items ≡ views_of M.pass_view passes.old.items }
    ensures nothing { M.note_view result ≡ told_nothing }
    ensures learnable { AtEach passes.new.items (λ c pass. M.Learnable map.now pass result) }
{
    map.note(&mut passes[0])
}

/// One caller for each pass, which has the list at its position, and room for one answer a call.
pub fn callers_of<'a, M: MapCalls>(
    alloc: Global,
    passes: Vec<M::Pass>,
    lists: Vec<Vec<Call>>,
) -> Result<Vec<Caller<'a, M>>, NoMemory>
where
    M::Pass: Drop,
    M::Going: Drop,
    requires { length lists.items ≡ length passes.items }
    ensures passes { IfOk result (λ callers. map (λ c. c.pass) callers.items ≡ map Some passes.items) }
    ensures calls { IfOk result (λ callers. map (λ c. c.calls) callers.items ≡ lists.items) }
    ensures idle { IfOk result (λ callers. All (λ c. (c.call ≡ None) × (c.next ≡ 0) × (c.mark ≡ 0)) callers.items) }
    ensures empty { IfOk result (λ callers. All (λ c. c.answers.items ≡ []) callers.items) }
    ensures room { IfOk result (λ callers. All (λ c. length c.calls.items ≤ vec_capacity c.answers) callers.items) }
{
    let Ok(mut callers) = Vec::with_capacity(alloc, passes.len()) else {
        return Err(NoMemory);
    };
    for (pass, calls) in passes.into_iter().zip(lists) {
        let Ok(answers) = Vec::with_capacity(alloc, calls.len()) else {
            return Err(NoMemory);
        };
        let caller = Caller::new(pass, calls, answers);
        append(&mut callers, caller)?;
    }
    Ok(callers)
}

/// What callers leave: their passes, their lists of calls, and their answers and marks, each in the callers' order.
#[derive(Drop)]
pub struct Parts<P> {
    pub passes: Vec<P>,
    pub lists: Vec<Vec<Call>>,
    pub answers: Vec<Vec<Answer>>,
    pub marks: Vec<Vec<u64>>,
}

/// The parts of callers none of whom has a call going.
pub fn parts_of<'a, M: MapCalls>(
    alloc: Global,
    callers: Vec<Caller<'a, M>>,
) -> Result<Parts<M::Pass>, NoMemory>
where
    M::Pass: Drop,
    M::Going: Drop,
    ensures passes { IfOk result (λ parts. parts.passes.items ≡ somes (map (λ c. c.pass) callers.entry.items)) }
    ensures lists { IfOk result (λ parts. parts.lists.items ≡ calls_of callers.entry.items) }
    ensures answers { IfOk result (λ parts. map (λ v. v.items) parts.answers.items
        ≡ map (λ c. answers_of c.answers.items) callers.entry.items) }
    ensures marks { IfOk result (λ parts. map (λ v. v.items) parts.marks.items ≡ map (λ c. marks_of c.answers.items) callers.entry.items) }
{
    let Ok(mut passes) = Vec::with_capacity(alloc, callers.len()) else {
        return Err(NoMemory);
    };
    let mut lists = Vec::new(alloc);
    let mut answers = Vec::new(alloc);
    let mut marks = Vec::new(alloc);
    for caller in callers {
        let (pass, calls, given) = caller.into_parts();
        append_some(&mut passes, pass)?;
        append(&mut lists, calls)?;
        let (own_answers, own_marks) = apart(alloc, given)?;
        append(&mut answers, own_answers)?;
        append(&mut marks, own_marks)?;
    }
    Ok(Parts {
        passes,
        lists,
        answers,
        marks,
    })
}

// The answers, and their marks.
fn apart(alloc: Global, given: Vec<Marked>) -> Result<(Vec<Answer>, Vec<u64>), NoMemory>
    ensures answers { IfOk result (λ both. both.0.items ≡ answers_of given.items) }
    ensures marks { IfOk result (λ both. both.1.items ≡ marks_of given.items) }
{
    let mut answers = Vec::new(alloc);
    let mut marks = Vec::new(alloc);
    for one in given {
        append(&mut answers, one.answer)?;
        append(&mut marks, one.mark)?;
    }
    Ok((answers, marks))
}

// A caller without a pass has a call going, and gives none.
fn append_some<T: Drop>(list: &mut Vec<T>, item: Option<T>) -> Result<(), NoMemory>
    ensures { OnOk result (list.new.items ≡ list.old.items ++ somes (item ∷ [])) }
{
    match item {
        Some(item) => append(list, item),
        None => Ok(()),
    }
}
