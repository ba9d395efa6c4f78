//! How many answers of each kind a run gave.

ghost use Rattle.std.specs.Prelude.{◌≡◌, ℕ, ◌+◌, ◌^◌, ◌<◌, List, [], ◌∷◌, map, length, sum_by};
ghost use Rattle.pp_model.specs.declared.Answer.{Answer};
ghost use Rattle.pp_trace.specs.Text.{counts_of};
ghost use Rattle.pp_trace.specs.Counting.{HasRoom, CountsAlso};

use crate::Counts;
use pp_model::{Answer, Reply};

impl Counts {
    /// The counts of the answers of all callers, fewer than 2^32 in all.
    pub fn of(lists: &[Vec<Answer>]) -> Counts
        requires { sum_by length (map (λ answers. answers.items) lists.now) < 2 ^ 32 }
        ensures { result ≡ counts_of (map (λ answers. answers.items) lists.now) }
    {
        let mut counts = Counts {
            added: 0,
            held: 0,
            value: 0,
            absent: 0,
            took: 0,
            full: 0,
            lost: 0,
        };
        for answers in lists {
            counts.count_all(answers);
        }
        counts
    }

    fn count_all(&mut self, answers: &[Answer])
        requires { HasRoom self.old (length answers.now) }
        ensures { CountsAlso self.old self.new answers.now }
    {
        for answer in answers {
            self.count(answer);
        }
    }

    fn count(&mut self, answer: &Answer)
        requires { HasRoom self.old 1 }
        ensures { CountsAlso self.old self.new (answer.now ∷ []) }
    {
        match answer {
            Answer::Said(Reply::Value(_)) => self.value += 1,
            Answer::Said(Reply::Absent) => self.absent += 1,
            Answer::Said(Reply::Added) => self.added += 1,
            Answer::Said(Reply::Held(_)) => self.held += 1,
            Answer::Said(Reply::Took(_)) => self.took += 1,
            Answer::Said(Reply::Other(_)) => {}
            Answer::Full => self.full += 1,
            Answer::Lost { .. } => self.lost += 1,
        }
    }
}
