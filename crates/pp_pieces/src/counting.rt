//! Counting bytes by their value: those of a piece, and those of all pieces that a caller owns or that nobody does.

ghost use Rattle.std.specs.Prelude.{◌≡◌, ◌<◌, ◌≤◌, [], ◌∷◌, length};
ghost use Rattle.pp_model.specs.Calls.{key_of};
ghost use Rattle.pp_model.specs.Lists.{AtEach};
ghost use Rattle.pp_pieces.specs.Counts.{HaveRoom, Counted, CountedIn, is_added, owned};
ghost use Rattle.pp_pieces.specs.Pieces.{pieces_of, piece};

use crate::pieces::piece_at;
use pp_model::{Answer, Call, Reply};

/// Counts these bytes too, in a table of one count for each byte value. It is one pass over them.
pub fn count_bytes(counts: &mut [u32], bytes: &[u8])
    requires all { length counts.old ≡ 256 }
    requires room { HaveRoom counts.old (length bytes.now) }
    ensures { Counted counts.old counts.new bytes.now }
{
    for byte in bytes {
        counts[usize::from(*byte)] += 1;
    }
}

/// Counts the bytes of the piece with this number too.
pub(crate) fn count_piece(counts: &mut [u32], bytes: &[u8], number: u32)
    requires all { length counts.old ≡ 256 }
    requires short { length bytes.now ≤ 16777216 }
    requires there { number < pieces_of (length bytes.now) }
    requires room { HaveRoom counts.old 4096 }
    ensures { Counted counts.old counts.new (piece bytes.now number) }
{
    count_bytes(counts, piece_at(bytes, number));
}

/// Whether the answer says that a claim was won.
pub(crate) fn is_won(answer: &Answer) -> bool
    ensures { result ≡ is_added answer.now }
{
    match answer {
        Answer::Said(Reply::Added) => true,
        Answer::Said(_) => false,
        Answer::Full => false,
        Answer::Lost { turns: _ } => false,
    }
}

/// The key of a call.
pub(crate) fn key_in(call: &Call) -> u64
    ensures { result ≡ key_of call.now }
{
    match call {
        Call::Get { key } => *key,
        Call::Insert { key, value: _ } => *key,
        Call::Remove { key } => *key,
        Call::Cut { key, value: _ } => *key,
    }
}

/// Counts the bytes of the piece of a claim too, where it was won.
fn count_won(counts: &mut [u32], bytes: &[u8], call: &Call, answer: &Answer)
    requires all { length counts.old ≡ 256 }
    requires short { length bytes.now ≤ 16777216 }
    requires there { key_of call.now < pieces_of (length bytes.now) }
    requires room { HaveRoom counts.old 4096 }
    ensures { CountedIn counts.old counts.new bytes.now (owned (call.now ∷ []) (answer.now ∷ [])) }
{
    if is_won(answer) {
        count_piece(counts, bytes, key_in(call) as u32);
    }
}

/// Counts the bytes of the pieces that a caller owns, as its claims were answered.
pub fn count_owned(counts: &mut [u32], bytes: &[u8], calls: &[Call], answers: &[Answer])
    requires all { length counts.old ≡ 256 }
    requires short { length bytes.now ≤ 16777216 }
    requires few { length calls.now ≤ 4096 }
    requires there { AtEach calls.now (λ j call. key_of call < pieces_of (length bytes.now)) }
    requires answered { length answers.now ≡ length calls.now }
    requires room { HaveRoom counts.old 16777216 }
    ensures { CountedIn counts.old counts.new bytes.now (owned calls.now answers.now) }
{
    for turn in 0..calls.len() {
        count_won(counts, bytes, &calls[turn], &answers[turn]);
    }
}
