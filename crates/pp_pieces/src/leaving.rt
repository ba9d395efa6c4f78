//! The pieces that nobody owns.

ghost use Rattle.std.specs.Prelude.{◌≡◌, ◌<◌, ◌≤◌, [], ◌∷◌, cond, length};
ghost use Rattle.pp_model.specs.Calls.{key_of};
ghost use Rattle.pp_model.specs.Lists.{AtEach};
ghost use Rattle.pp_pieces.specs.Counts.{HaveRoom, CountedIn, owned};
ghost use Rattle.pp_pieces.specs.Left.{Marked, left};
ghost use Rattle.pp_pieces.specs.Pieces.{pieces_of};

use crate::counting::{count_piece, is_won, key_in};
use pp_model::{Answer, Call};

/// Marks the piece of a claim, where it was won.
fn mark_won(taken: &mut [bool], call: &Call, answer: &Answer)
    requires there { key_of call.now < length taken.old }
    ensures { Marked taken.old taken.new (owned (call.now ∷ []) (answer.now ∷ [])) }
{
    if is_won(answer) {
        taken[key_in(call) as usize] = true;
    }
}

/// Marks the pieces that a caller owns, as its claims were answered.
pub fn mark_owned(taken: &mut [bool], calls: &[Call], answers: &[Answer])
    requires there { AtEach calls.now (λ j call. key_of call < length taken.old) }
    requires answered { length answers.now ≡ length calls.now }
    ensures { Marked taken.old taken.new (owned calls.now answers.now) }
{
    for turn in 0..calls.len() {
        mark_won(taken, &calls[turn], &answers[turn]);
    }
}

/// Counts the bytes of a piece too, unless it is taken.
fn count_free(counts: &mut [u32], bytes: &[u8], taken: bool, number: u32)
    requires all { length counts.old ≡ 256 }
    requires short { length bytes.now ≤ 16777216 }
    requires there { number < pieces_of (length bytes.now) }
    requires room { HaveRoom counts.old 4096 }
    ensures { CountedIn counts.old counts.new bytes.now (cond taken [] (number ∷ [])) }
{
    if !taken {
        count_piece(counts, bytes, number);
    }
}

/// Counts the bytes of the pieces that aren't taken.
pub fn count_left(counts: &mut [u32], bytes: &[u8], taken: &[bool])
    requires all { length counts.old ≡ 256 }
    requires short { length bytes.now ≤ 16777216 }
    requires pieces { length taken.now ≡ pieces_of (length bytes.now) }
    requires room { HaveRoom counts.old 16777216 }
    ensures { CountedIn counts.old counts.new bytes.now (left 0 taken.now) }
{
    for number in 0..taken.len() {
        count_free(counts, bytes, taken[number], number as u32);
    }
}
