//! Lines, fields and numbers of a text.

ghost use Rattle.std.specs.Prelude.{◌≡◌, ◌<◌, ◌≤◌, [], length, take, MatchOption};
ghost use Rattle.std.specs.List.{between, position_or_len};
ghost use Rattle.std.specs.Str.Lines.{strip_carriage_return};
ghost use Rattle.pp_trace.specs.Lines.{IsLineAt, IsFirstField, is_line_feed, is_blank, is_field_byte, fields_of, number_of, as_number};
ghost use Rattle.pp_trace.specs.Lines.{number_with_digit};

/// A part of a text: the places of its first byte, of the byte after its last one, and of the byte at which
/// the scan goes on.
#[derive(Clone, Copy, Debug, PartialEq, Eq)]
pub struct Span {
    pub start: usize,
    pub end: usize,
    pub next: usize,
}

/// What the bytes of a field say as a number in base ten.
#[derive(Clone, Copy, Debug, PartialEq, Eq)]
pub enum Number {
    /// They are this number.
    Is(u128),
    /// They are a number above 2^128 - 1.
    Above,
    /// They are no number.
    Not,
}

/// The line that begins at `from`, which is at most the length: without its line feed, and then without one
/// carriage return at its end; `next` is where the next line begins. `None` comes exactly at the end of the text.
pub fn next_line(bytes: &[u8], from: usize) -> Option<Span>
    requires { from ≤ length bytes.now }
    ensures { MatchOption result (from ≡ length bytes.now) (IsLineAt bytes.now from) }
{
    if from == bytes.len() {
        return None;
    }
    let feed = from + length_to_feed(&bytes[from..]);
    let end = from + length_without_return(&bytes[from..feed]);
    Some(Span {
        start: from,
        end,
        next: (feed + 1).min(bytes.len()),
    })
}

/// The first field between `from` and `end`, which lie in this order within the bytes; its `next` is its `end`.
/// `None` comes exactly where no field is there.
pub fn next_field(bytes: &[u8], from: usize, end: usize) -> Option<Span>
    requires order { from ≤ end }
    requires within { end ≤ length bytes.now }
    ensures { MatchOption result (fields_of (between from end bytes.now) ≡ []) (IsFirstField bytes.now from end) }
{
    let start = from + leading_blanks(&bytes[from..end]);
    if start == end {
        return None;
    }
    let end = start + length_to_blank(&bytes[start..end]);
    Some(Span {
        start,
        end,
        next: end,
    })
}

/// The number in base ten that the bytes from `start` to `end` write, which lie in this order within the bytes;
/// leading zeros are allowed, a sign is not. `Not` comes exactly where they write no number, `Above` exactly where
/// the number is above 2^128 - 1.
pub fn read_number(bytes: &[u8], start: usize, end: usize) -> Number
    requires order { start ≤ end }
    requires within { end ≤ length bytes.now }
    ensures { result ≡ as_number (number_of (between start end bytes.now)) }
{
    if start == end {
        return Number::Not;
    }
    let mut number = Number::Is(0);
    for byte in &bytes[start..end] {
        if !byte.is_ascii_digit() {
            return Number::Not;
        }
        number = with_digit(number, *byte - b'0');
    }
    number
}

/// The number with one more digit at its end.
fn with_digit(number: Number, digit: u8) -> Number
    requires { digit < 10 }
    ensures { result ≡ number_with_digit number digit }
{
    let Number::Is(value) = number else {
        return number;
    };
    match value.checked_mul(10) {
        Some(tens) => match tens.checked_add(u128::from(digit)) {
            Some(sum) => Number::Is(sum),
            None => Number::Above,
        },
        None => Number::Above,
    }
}

fn length_to_feed(text: &[u8]) -> usize
    ensures place { result ≡ position_or_len is_line_feed text.now }
    ensures within { result ≤ length text.now }
{
    text.iter()
        .position(|byte| *byte == b'\n')
        .unwrap_or(text.len())
}

fn length_without_return(line: &[u8]) -> usize
    ensures cut { take result line.now ≡ strip_carriage_return line.now }
    ensures within { result ≤ length line.now }
{
    match line {
        [.., b'\r'] => line.len() - 1,
        _ => line.len(),
    }
}

fn length_to_blank(text: &[u8]) -> usize
    ensures place { result ≡ position_or_len is_blank text.now }
    ensures within { result ≤ length text.now }
{
    text.iter()
        .position(|byte| is_space_or_tab(*byte))
        .unwrap_or(text.len())
}

fn leading_blanks(text: &[u8]) -> usize
    ensures place { result ≡ position_or_len is_field_byte text.now }
    ensures within { result ≤ length text.now }
{
    text.iter()
        .position(|byte| !is_space_or_tab(*byte))
        .unwrap_or(text.len())
}

fn is_space_or_tab(byte: u8) -> bool
    ensures { result ≡ is_blank byte }
{
    byte == b' ' || byte == b'\t'
}
