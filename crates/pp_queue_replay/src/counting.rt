//! How many answers of a run are full, and how many are lost.

ghost use Rattle.std.specs.Prelude.{◌≡◌, ◌+◌, ◌≤◌, ◌<◌, ◌^◌, map, length, sum_by, count_by};
ghost use Rattle.pp_trace.specs.Text.{count_all};
ghost use Rattle.pp_queue_replay.specs.Text.{is_full, is_lost};

use pp_queues::calls::QueueAnswer;

/// How many answers are full, and how many are lost.
#[derive(Clone, Copy, Debug, PartialEq, Eq)]
pub struct Counts {
    pub full: u32,
    pub lost: u32,
}

impl Counts {
    /// The counts of the answers of all callers, fewer than 2^32 in all.
    pub fn of(lists: &[Vec<QueueAnswer>]) -> Counts
        requires { sum_by length (map (λ answers. answers.items) lists.now) < 2 ^ 32 }
        ensures full { result.full ≡ count_all is_full (map (λ answers. answers.items) lists.now) }
        ensures lost { result.lost ≡ count_all is_lost (map (λ answers. answers.items) lists.now) }
    {
        let mut counts = Counts { full: 0, lost: 0 };
        for answers in lists {
            counts.count(answers);
        }
        counts
    }

    fn count(&mut self, answers: &[QueueAnswer])
        requires full { self.old.full + length answers.now < 2 ^ 32 }
        requires lost { self.old.lost + length answers.now < 2 ^ 32 }
        ensures full { self.new.full ≡ self.old.full + count_by is_full answers.now }
        ensures lost { self.new.lost ≡ self.old.lost + count_by is_lost answers.now }
    {
        for answer in answers {
            match answer {
                QueueAnswer::Full => self.full += 1,
                QueueAnswer::Lost { .. } => self.lost += 1,
                QueueAnswer::Said(_) => {}
            }
        }
    }
}
