//! The answers of a map's calls, each as its own call gives it.

ghost use Rattle.std.specs.Prelude.{◌≡◌};
ghost use Rattle.pp_model.specs.MapCalls.{get_answer, insert_answer, remove_answer, cut_answer};
ghost use Rattle.pp_answers.specs.Suits.{GetSays, InsertSays, RemoveSays, CutSays};

use pp_model::{Answer, Cut, InsertFault, Inserted, Lost, Reply};

/// What a get answered.
pub fn of_get(answer: Answer) -> Result<Option<u128>, Lost>
    requires { GetSays answer }
    ensures { get_answer result ≡ answer }
{
    match answer {
        Answer::Said(Reply::Value(value)) => Ok(Some(value)),
        Answer::Said(Reply::Absent) => Ok(None),
        Answer::Lost { turns } => Err(Lost { turns }),
        _ => unreachable!(),
    }
}

/// What an insert answered.
pub fn of_insert(answer: Answer) -> Result<Inserted, InsertFault>
    requires { InsertSays answer }
    ensures { insert_answer result ≡ answer }
{
    match answer {
        Answer::Said(Reply::Added) => Ok(Inserted::Added),
        Answer::Said(Reply::Held(value)) => Ok(Inserted::Held(value)),
        Answer::Full => Err(InsertFault::Full),
        Answer::Lost { turns } => Err(InsertFault::Lost { turns }),
        _ => unreachable!(),
    }
}

/// What a remove answered.
pub fn of_remove(answer: Answer) -> Result<Option<u128>, Lost>
    requires { RemoveSays answer }
    ensures { remove_answer result ≡ answer }
{
    match answer {
        Answer::Said(Reply::Took(value)) => Ok(Some(value)),
        Answer::Said(Reply::Absent) => Ok(None),
        Answer::Lost { turns } => Err(Lost { turns }),
        _ => unreachable!(),
    }
}

/// What a cut of this value answered.
pub fn of_cut(answer: Answer, value: u128) -> Result<Cut, Lost>
    requires { CutSays value answer }
    ensures { cut_answer value result ≡ answer }
{
    match answer {
        Answer::Said(Reply::Took(_)) => Ok(Cut::Took),
        Answer::Said(Reply::Other(other)) => Ok(Cut::Other(other)),
        Answer::Said(Reply::Absent) => Ok(Cut::Absent),
        Answer::Lost { turns } => Err(Lost { turns }),
        _ => unreachable!(),
    }
}
