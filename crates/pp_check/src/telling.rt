//! Lines that are written, made on the stack.

ghost use Rattle.std.specs.Prelude.{◌≡◌, ◌+◌, ◌≤◌};
ghost use Rattle.arrayvec.specs.ArrayString.{array_string_len};
ghost use Rattle.pp_check.specs.Judging.{verdict_line, line_of};

use crate::Verdict;
use crate::judging::Way;
use arrayvec::ArrayString;
use itoa::Buffer;

// No line is longer than this.
const LINE: usize = 64;

/// The line of a verdict.
pub fn verdict_text(verdict: Verdict) -> ArrayString<LINE>
    ensures { result.bytes ≡ verdict_line verdict }
{
    let mut line = ArrayString::new();
    match verdict {
        Verdict::Yes => line.push_str("yes\n"),
        Verdict::BadLine { line: number } => {
            line.push_str("no: line ");
            line.push_str(Buffer::new().format(number));
            line.push_str("\n");
        }
        Verdict::Unsound { change } => {
            line.push_str("no: change ");
            line.push_str(Buffer::new().format(change));
            line.push_str("\n");
        }
        Verdict::Misplaced { caller, number } => {
            line.push_str("no: call ");
            line.push_str(Buffer::new().format(caller));
            line.push_str(" ");
            line.push_str(Buffer::new().format(number));
            line.push_str("\n");
        }
    }
    line
}

/// The line that tells a way without a verdict.
pub fn way_text(way: Way) -> ArrayString<LINE>
    ensures { result.bytes ≡ line_of way }
{
    let mut line = ArrayString::new();
    match way {
        Way::Judged(_) => {}
        Way::Unread => line.push_str("read: failed\n"),
        Way::TooLong => line.push_str("trace: longer than 16777216 bytes\n"),
        Way::Unwritten => line.push_str("write: failed\n"),
        Way::NoMemory => line.push_str("memory: refused\n"),
    }
    line
}
