//! The fields of a line, and the numbers that they write.

ghost use Rattle.std.specs.Prelude.{◌≡◌, ◌==◌, ◌+◌, ◌≤◌, ◌<◌, ◌^◌, [], length, MatchOption, IfSome};
ghost use Rattle.std.specs.List.{between, position_or_len};
ghost use Rattle.pp_certificate.specs.Words.{IsFirstWord, words_left, has_leading_zero, number_below};

use pp_trace::{Number, Span, read_number};

/// The first of the fields that are left of a line, which ends at `end`; the rest of them begins at its `next`, which lies behind
/// the line's end where none is left.
pub fn next_word(bytes: &[u8], from: usize, end: usize) -> Option<Span>
    requires order { from ≤ end + 1 }
    requires within { end ≤ length bytes.now }
    ensures { MatchOption result (words_left bytes.now from end ≡ []) (IsFirstWord bytes.now from end) }
{
    if from > end {
        return None;
    }
    let end = from + length_to(&bytes[from..end], b' ');
    Some(Span {
        start: from,
        end,
        next: end + 1,
    })
}

/// The number that a field writes, if it is one without leading zeros and below a bound.
pub fn read_below(bytes: &[u8], field: Span, bound: u128) -> Option<u64>
    requires order { field.start ≤ field.end }
    requires within { field.end ≤ length bytes.now }
    requires fits { bound ≤ 2 ^ 64 }
    ensures number { result ≡ number_below bound (between field.start field.end bytes.now) }
    ensures below { IfSome result (λ n. n < bound) }
{
    if leads_with_zero(&bytes[field.start..field.end]) {
        return None;
    }
    match read_number(bytes, field.start, field.end) {
        Number::Is(number) if number < bound => Some(number as u64),
        _ => None,
    }
}

/// The value that a field writes, if it is one.
pub fn read_value(bytes: &[u8], field: Span) -> Option<u128>
    requires order { field.start ≤ field.end }
    requires within { field.end ≤ length bytes.now }
    ensures { result ≡ number_below (2 ^ 128) (between field.start field.end bytes.now) }
{
    if leads_with_zero(&bytes[field.start..field.end]) {
        return None;
    }
    match read_number(bytes, field.start, field.end) {
        Number::Is(number) => Some(number),
        _ => None,
    }
}

fn leads_with_zero(field: &[u8]) -> bool
    ensures { result ≡ has_leading_zero field.now }
{
    field.len() > 1 && field[0] == b'0'
}

/// How many bytes stand before the first one that is this.
pub fn length_to(text: &[u8], wanted: u8) -> usize
    ensures place { result ≡ position_or_len (λ byte. byte == wanted) text.now }
    ensures within { result ≤ length text.now }
{
    text.iter()
        .position(|byte| *byte == wanted)
        .unwrap_or(text.len())
}
