//! Lines of a run's text, made on the stack.

ghost use Rattle.std.specs.Prelude.{◌≡◌, ℕ, ◌+◌, ◌≤◌, [], ◌++◌, length, codes};
ghost use Rattle.std.specs.Fmt.{decimal};
ghost use Rattle.arrayvec.specs.ArrayString.{array_string_len};
ghost use Rattle.pp_trace.specs.Text.{answer_text, answer_line, pair_line, counted_line, counts_text};

use crate::Counts;
use arrayvec::ArrayString;
use itoa::Buffer;
use pp_model::{Answer, Pair, Reply};

// The longest line has two numbers of a caller and a call, a word and a value.
pub const LINE: usize = 96;

// Nine lines of a word and a count.
pub const SUMMARY: usize = 320;

fn push_number<const N: usize>(text: &mut ArrayString<N>, number: u64)
    requires { array_string_len text.old + 20 ≤ N }
    ensures bytes { text.new.bytes ≡ text.old.bytes ++ decimal number }
    ensures len { array_string_len text.new ≤ array_string_len text.old + 20 }
{
    text.push_str(Buffer::new().format(number));
}

fn push_value(text: &mut ArrayString<LINE>, value: u128)
    requires { array_string_len text.old + 39 ≤ 96 }
    ensures bytes { text.new.bytes ≡ text.old.bytes ++ decimal value }
    ensures len { array_string_len text.new ≤ array_string_len text.old + 39 }
{
    text.push_str(Buffer::new().format(value));
}

fn push_answer(line: &mut ArrayString<LINE>, answer: &Answer)
    requires { array_string_len line.old + 45 ≤ 96 }
    ensures bytes { line.new.bytes ≡ line.old.bytes ++ answer_text answer.now }
    ensures len { array_string_len line.new ≤ array_string_len line.old + 45 }
{
    match answer {
        Answer::Said(Reply::Value(value)) => {
            line.push_str("value ");
            push_value(line, *value);
        }
        Answer::Said(Reply::Absent) => line.push_str("absent"),
        Answer::Said(Reply::Added) => line.push_str("added"),
        Answer::Said(Reply::Held(value)) => {
            line.push_str("held ");
            push_value(line, *value);
        }
        Answer::Said(Reply::Took(value)) => {
            line.push_str("took ");
            push_value(line, *value);
        }
        Answer::Said(Reply::Other(value)) => {
            line.push_str("other ");
            push_value(line, *value);
        }
        Answer::Full => line.push_str("full"),
        Answer::Lost { .. } => line.push_str("lost"),
    }
}

/// The line of a caller's call of this number.
pub fn of_answer(caller: u32, number: u32, answer: &Answer) -> ArrayString<LINE>
    ensures { result.bytes ≡ answer_line caller number answer.now }
{
    let mut line = ArrayString::new();
    push_number(&mut line, u64::from(caller));
    line.push_str(" ");
    push_number(&mut line, u64::from(number));
    line.push_str(" ");
    push_answer(&mut line, answer);
    line.push_str("\n");
    line
}

/// The line of a pair.
pub fn of_pair(pair: &Pair) -> ArrayString<LINE>
    ensures { result.bytes ≡ pair_line pair.now }
{
    let mut line = ArrayString::new();
    push_number(&mut line, pair.key);
    line.push_str(" ");
    push_value(&mut line, pair.value);
    line.push_str("\n");
    line
}

fn push_counted<const N: usize>(text: &mut ArrayString<N>, word: &str, count: u64)
    requires { array_string_len text.old + length word.now + 21 ≤ N }
    ensures bytes { text.new.bytes ≡ text.old.bytes ++ counted_line word.now count }
    ensures len { array_string_len text.new ≤ array_string_len text.old + length word.now + 21 }
{
    text.push_str(word);
    push_number(text, count);
    text.push_str("\n");
}

/// The line that says how many pairs follow.
pub fn of_length(pairs: usize) -> ArrayString<LINE>
    ensures { result.bytes ≡ counted_line (codes "contents ") pairs }
{
    let mut line = ArrayString::new();
    push_counted(&mut line, "contents ", pairs as u64);
    line
}

/// The nine lines of a made trace's run.
pub fn of_counts(lines: u32, counts: &Counts, pairs: u32) -> ArrayString<SUMMARY>
    ensures { result.bytes ≡ counts_text lines counts.now pairs }
{
    let mut text = ArrayString::new();
    push_counted(&mut text, "made ", u64::from(lines));
    push_counted(&mut text, "added ", u64::from(counts.added));
    push_counted(&mut text, "held ", u64::from(counts.held));
    push_counted(&mut text, "value ", u64::from(counts.value));
    push_counted(&mut text, "absent ", u64::from(counts.absent));
    push_counted(&mut text, "took ", u64::from(counts.took));
    push_counted(&mut text, "full ", u64::from(counts.full));
    push_counted(&mut text, "lost ", u64::from(counts.lost));
    push_counted(&mut text, "contents ", u64::from(pairs));
    text
}
