//! The line that tells how a program ended.

ghost use Rattle.std.specs.Prelude.{◌≡◌, ◌+◌, ◌≤◌, ◌<◌, List, ◌++◌, length, codes, IfOk, IfErr};
ghost use Rattle.std.specs.Fmt.{decimal};
ghost use Rattle.arrayvec.specs.ArrayString.{array_string_len};
ghost use Rattle.pp_trace.specs.Text.{why_text};
ghost use Rattle.pp_devices.specs.Told.{IsTold, IsToldWhole, IsToldPart};
ghost use Rattle.pp_devices.specs.Ways.{line_of};

use crate::Way;
use arrayvec::ArrayString;
use itoa::Buffer;
use pp_outside::{Failed, Sink};
use pp_trace::Why;

// No line is longer than this.
const LINE: usize = 96;

/// Writes the line of a way, up to the first write that fails, which ends its writing. Each write offers all that is left of the
/// line. It takes no memory.
pub fn tell<E: Sink>(errs: &mut E, way: Way)
    ensures { IsTold E.written E.faults E.Writes errs.old errs.new (line_of way) }
{
    let line = line_text(way);
    tell_line(errs, line.as_str().as_bytes());
}

/// Writes a line, up to the first write that fails, which ends its writing. Each write offers all that is left of the line. It
/// takes no memory.
pub fn tell_line<E: Sink>(errs: &mut E, line: &[u8])
    ensures { IsTold E.written E.faults E.Writes errs.old errs.new line.now }
{
    let _told = write_text(errs, line);
}

/// Writes a text, up to the first write that fails, which ends its writing. Each write offers all that is left of the text. It
/// takes no memory.
///
/// # Errors
///
/// A write failed.
pub fn write_text<K: Sink>(sink: &mut K, text: &[u8]) -> Result<(), Failed>
    ensures whole { IfOk result (λ u. IsToldWhole K.written K.faults K.Writes sink.old sink.new text.now) }
    ensures part { IfErr result (λ e. IsToldPart K.written K.faults K.Writes sink.old sink.new text.now) }
{
    let mut rest = text;
    while !rest.is_empty() {
        match sink.write(rest) {
            Ok(count) => rest = &rest[count..],
            Err(error) => return Err(error),
        }
    }
    Ok(())
}

fn line_text(way: Way) -> ArrayString<LINE>
    ensures { result.bytes ≡ line_of way }
{
    let mut line = ArrayString::new();
    match way {
        Way::Answered => {}
        Way::BadWords => line.push_str("words: refused\n"),
        Way::BadLine { line: number, why } => {
            line.push_str("trace: line ");
            line.push_str(Buffer::new().format(number));
            line.push_str(": ");
            line.push_str(why_word(why));
            line.push_str("\n");
        }
        Way::Unread => line.push_str("read: failed\n"),
        Way::Unwritten => line.push_str("write: failed\n"),
        Way::NoMemory => line.push_str("memory: refused\n"),
        Way::Partly { full, lost } => {
            line.push_str("answers: ");
            line.push_str(Buffer::new().format(full));
            line.push_str(" full, ");
            line.push_str(Buffer::new().format(lost));
            line.push_str(" lost\n");
        }
        Way::TooLong => line.push_str("trace: longer than 16777216 bytes\n"),
    }
    line
}

fn why_word(why: Why) -> &'static str
    ensures word { result.now ≡ why_text why }
    ensures short { length result.now ≤ 6 }
{
    match why {
        Why::Caller => "caller",
        Why::Word => "word",
        Why::Fields => "fields",
        Why::Key => "key",
        Why::Value => "value",
    }
}
