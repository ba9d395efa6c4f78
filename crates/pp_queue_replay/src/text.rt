//! Lines of a run's text, made on the stack.

ghost use Rattle.std.specs.Prelude.{◌≡◌, ◌+◌, ◌≤◌, [], ◌++◌, length, codes};
ghost use Rattle.std.specs.Fmt.{decimal};
ghost use Rattle.arrayvec.specs.ArrayString.{array_string_len};
ghost use Rattle.pp_trace.specs.Text.{counted_line};
ghost use Rattle.pp_queue_replay.specs.Text.{answer_text, answer_line};

use arrayvec::ArrayString;
use itoa::Buffer;
use pp_queues::calls::{QueueAnswer, QueueReply};

// The longest line has two numbers of a caller and a call, a word and a value.
const LINE: usize = 96;

fn push_answer(line: &mut ArrayString<LINE>, answer: &QueueAnswer)
    requires { array_string_len line.old + 44 ≤ 96 }
    ensures bytes { line.new.bytes ≡ line.old.bytes ++ answer_text answer.now }
    ensures len { array_string_len line.new ≤ array_string_len line.old + 44 }
{
    match answer {
        QueueAnswer::Said(QueueReply::Put) => line.push_str("put"),
        QueueAnswer::Said(QueueReply::Took(value)) => {
            line.push_str("took ");
            line.push_str(Buffer::new().format(*value));
        }
        QueueAnswer::Said(QueueReply::Empty) => line.push_str("empty"),
        QueueAnswer::Full => line.push_str("full"),
        QueueAnswer::Lost { .. } => line.push_str("lost"),
    }
}

/// The line of a caller's call of this number.
pub fn of_answer(caller: u32, number: u32, answer: &QueueAnswer) -> ArrayString<LINE>
    ensures { result.bytes ≡ answer_line caller number answer.now }
{
    let mut line = ArrayString::new();
    line.push_str(Buffer::new().format(caller));
    line.push_str(" ");
    line.push_str(Buffer::new().format(number));
    line.push_str(" ");
    push_answer(&mut line, answer);
    line.push_str("\n");
    line
}

/// The line of an item that is left.
pub fn of_item(value: u128) -> ArrayString<LINE>
    ensures { result.bytes ≡ counted_line [] value }
{
    let mut line = ArrayString::new();
    line.push_str(Buffer::new().format(value));
    line.push_str("\n");
    line
}

/// The line that says how many items are left.
pub fn of_length(items: usize) -> ArrayString<LINE>
    ensures { result.bytes ≡ counted_line (codes "left ") items }
{
    let mut line = ArrayString::new();
    line.push_str("left ");
    line.push_str(Buffer::new().format(items));
    line.push_str("\n");
    line
}
