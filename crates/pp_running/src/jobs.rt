//! The callers' jobs, made of passes and lists, and taken apart again.

ghost use Rattle.std.specs.Prelude.{◌≡◌, ◌≤◌, map, length, vec_capacity, [], ◌∷◌, ◌++◌, All, IfOk, OnOk};

use pp_callers::Job;
use pp_model::NoMemory;
use std::alloc::Global;

/// One job for each pass, which has the list at its position, and room for one answer a call. The callers are
/// numbered from 0.
pub fn jobs_of<P: Drop, C: Drop, A: Drop>(
    alloc: Global,
    passes: Vec<P>,
    lists: Vec<Vec<C>>,
) -> Result<Vec<Job<P, C, A>>, NoMemory>
    requires { length lists.items ≡ length passes.items }
    ensures passes { IfOk result (λ jobs. map (λ job. job.pass) jobs.items ≡ passes.items) }
    ensures calls { IfOk result (λ jobs. map (λ job. job.calls) jobs.items ≡ lists.items) }
    ensures empty { IfOk result (λ jobs. All (λ job. job.answers.items ≡ []) jobs.items) }
    ensures room { IfOk result (λ jobs. All (λ job. length job.calls.items ≤ vec_capacity job.answers) jobs.items) }
{
    let Ok(mut jobs) = Vec::with_capacity(alloc, passes.len()) else {
        return Err(NoMemory);
    };
    let mut caller = 0u32;
    for (pass, calls) in passes.into_iter().zip(lists) {
        let Ok(answers) = Vec::with_capacity(alloc, calls.len()) else {
            return Err(NoMemory);
        };
        let job = Job {
            caller,
            pass,
            calls,
            answers,
        };
        append(&mut jobs, job)?;
        caller = caller.saturating_add(1);
    }
    Ok(jobs)
}

/// The passes and the answers of jobs.
pub fn parts_of<P: Drop, C: Drop, A: Drop>(
    alloc: Global,
    jobs: Vec<Job<P, C, A>>,
) -> Result<(Vec<P>, Vec<Vec<A>>), NoMemory>
    ensures passes { IfOk result (λ parts. parts.0.items ≡ map (λ job. job.pass) jobs.items) }
    ensures answers { IfOk result (λ parts. parts.1.items ≡ map (λ job. job.answers) jobs.items) }
{
    let Ok(mut passes) = Vec::with_capacity(alloc, jobs.len()) else {
        return Err(NoMemory);
    };
    let Ok(mut answers) = Vec::with_capacity(alloc, jobs.len()) else {
        return Err(NoMemory);
    };
    for job in jobs {
        let Job {
            caller: _,
            pass,
            calls: _,
            answers: given,
        } = job;
        append(&mut passes, pass)?;
        append(&mut answers, given)?;
    }
    Ok((passes, answers))
}

/// Appends an item.
///
/// # Errors
///
/// There was no memory.
pub fn append<T: Drop>(list: &mut Vec<T>, item: T) -> Result<(), NoMemory>
    ensures { OnOk result (list.new.items ≡ list.old.items ++ item ∷ []) }
{
    match list.push(item) {
        Ok(()) => Ok(()),
        Err(_) => Err(NoMemory),
    }
}
