//! Lines of a tally's text, made on the stack.

ghost use Rattle.std.specs.Prelude.{◌≡◌, ◌++◌, codes};
ghost use Rattle.std.specs.Fmt.{decimal};
ghost use Rattle.pp_tally.specs.Text.{head_text};

use arrayvec::ArrayString;
use itoa::Buffer;

// The lines before the counts have two words and two numbers.
const LINE: usize = 96;

/// The lines that say how many bytes and pieces there are.
pub fn of_head(bytes: usize, pieces: u32) -> ArrayString<LINE>
    ensures { result.bytes ≡ head_text bytes pieces }
{
    let mut line = ArrayString::new();
    line.push_str("bytes ");
    line.push_str(Buffer::new().format(bytes));
    line.push_str("\npieces ");
    line.push_str(Buffer::new().format(pieces));
    line.push_str("\n");
    line
}

/// The line of a byte value and its count.
pub fn of_value(value: u32, count: u32) -> ArrayString<LINE>
    ensures { result.bytes ≡ decimal value ++ codes " " ++ decimal count ++ codes "\n" }
{
    let mut line = ArrayString::new();
    line.push_str(Buffer::new().format(value));
    line.push_str(" ");
    line.push_str(Buffer::new().format(count));
    line.push_str("\n");
    line
}
