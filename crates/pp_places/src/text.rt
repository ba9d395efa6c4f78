//! Lines of a certificate, made on the stack.

ghost use Rattle.std.specs.Prelude.{◌≡◌, ℕ, ◌+◌, ◌≤◌, ◌++◌, length, codes};
ghost use Rattle.std.specs.Fmt.{decimal};
ghost use Rattle.arrayvec.specs.ArrayString.{array_string_len};
ghost use Rattle.pp_trace.specs.Text.{reply_text};
ghost use Rattle.pp_certificate.specs.Printed.{call_text, change_line, said_line, ReplyFits};
ghost use Rattle.pp_places.specs.Held.{IsCallHeld, IsChangeHeld, IsPlacedHeld};

use arrayvec::ArrayString;
use itoa::Buffer;
use pp_model::{Call, Change, Placed, Reply};

// The longest line has a word, two numbers, a call with a key and a value, and a reply with a value.
pub const LINE: usize = 168;

fn push_number(text: &mut ArrayString<LINE>, number: u64)
    requires { array_string_len text.old + 20 ≤ 168 }
    ensures bytes { text.new.bytes ≡ text.old.bytes ++ decimal number }
    ensures len { array_string_len text.new ≤ array_string_len text.old + 20 }
{
    text.push_str(Buffer::new().format(number));
}

fn push_value(text: &mut ArrayString<LINE>, value: u128)
    requires { array_string_len text.old + 39 ≤ 168 }
    ensures bytes { text.new.bytes ≡ text.old.bytes ++ decimal value }
    ensures len { array_string_len text.new ≤ array_string_len text.old + 39 }
{
    text.push_str(Buffer::new().format(value));
}

fn push_pair(text: &mut ArrayString<LINE>, key: u64, value: u128)
    requires { array_string_len text.old + 60 ≤ 168 }
    ensures bytes { text.new.bytes ≡ text.old.bytes ++ (decimal key ++ codes " " ++ decimal value) }
    ensures len { array_string_len text.new ≤ array_string_len text.old + 60 }
{
    push_number(text, key);
    text.push_str(" ");
    push_value(text, value);
}

fn push_call(text: &mut ArrayString<LINE>, call: &Call)
    requires { array_string_len text.old + 67 ≤ 168 }
    ensures bytes { text.new.bytes ≡ text.old.bytes ++ call_text call.now }
    ensures len { array_string_len text.new ≤ array_string_len text.old + 67 }
    ensures held { IsCallHeld call.now }
{
    match call {
        Call::Get { key } => {
            text.push_str("get ");
            push_number(text, *key);
        }
        Call::Insert { key, value } => {
            text.push_str("insert ");
            push_pair(text, *key, *value);
        }
        Call::Remove { key } => {
            text.push_str("remove ");
            push_number(text, *key);
        }
        Call::Cut { key, value } => {
            text.push_str("cut ");
            push_pair(text, *key, *value);
        }
    }
}

fn push_reply(text: &mut ArrayString<LINE>, reply: &Reply)
    requires { array_string_len text.old + 45 ≤ 168 }
    ensures bytes { text.new.bytes ≡ text.old.bytes ++ reply_text reply.now }
    ensures len { array_string_len text.new ≤ array_string_len text.old + 45 }
    ensures held { ReplyFits reply.now }
{
    match reply {
        Reply::Value(value) => {
            text.push_str("value ");
            push_value(text, *value);
        }
        Reply::Absent => text.push_str("absent"),
        Reply::Added => text.push_str("added"),
        Reply::Held(value) => {
            text.push_str("held ");
            push_value(text, *value);
        }
        Reply::Took(value) => {
            text.push_str("took ");
            push_value(text, *value);
        }
        Reply::Other(value) => {
            text.push_str("other ");
            push_value(text, *value);
        }
    }
}

/// The line of a change.
pub fn of_change(change: &Change) -> ArrayString<LINE>
    ensures line { result.bytes ≡ change_line change.now }
    ensures held { IsChangeHeld change.now }
{
    let mut line = ArrayString::new();
    line.push_str("change ");
    push_number(&mut line, u64::from(change.caller));
    line.push_str(" ");
    push_number(&mut line, change.number);
    line.push_str(" ");
    push_call(&mut line, &change.call);
    line.push_str("\n");
    line
}

/// The line of a caller's placed call.
pub fn of_said(caller: u32, placed: &Placed) -> ArrayString<LINE>
    ensures line { result.bytes ≡ said_line caller placed.now }
    ensures held { IsPlacedHeld placed.now }
{
    let mut line = ArrayString::new();
    line.push_str("said ");
    push_number(&mut line, u64::from(caller));
    line.push_str(" ");
    push_number(&mut line, placed.place);
    line.push_str(" ");
    push_call(&mut line, &placed.call);
    line.push_str(" ");
    push_reply(&mut line, &placed.reply);
    line.push_str("\n");
    line
}
