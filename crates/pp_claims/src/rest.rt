//! The pieces that no caller owns.

ghost use Rattle.std.specs.Prelude.{◌≡◌, ◌<◌, ◌≤◌, IfOk, false, length, replicate};
ghost use Rattle.pp_model.specs.Lists.{AtEach};
ghost use Rattle.pp_pieces.specs.Counts.{CountedIn};
ghost use Rattle.pp_pieces.specs.Left.{Marked};
ghost use Rattle.pp_pieces.specs.Pieces.{pieces_of};
ghost use Rattle.pp_claims.specs.Rest.{MayMark, owned_of, left_over};

use crate::shares::{Share, empty_counts};
use pp_model::NoMemory;
use pp_pieces::leaving::{count_left, mark_owned};
use std::alloc::Global;

/// Marks the pieces that the callers own.
fn mark_all(taken: &mut [bool], shares: &[Share<'_>])
    requires { AtEach shares.now (λ c share. MayMark (length taken.old) share) }
    ensures { Marked taken.old taken.new (owned_of shares.now) }
{
    for share in shares {
        mark_owned(taken, share.calls.as_slice(), share.answers);
    }
}

/// A mark for each piece, none of which is set.
fn no_marks(alloc: Global, pieces: u32) -> Result<Vec<bool>, NoMemory>
    ensures { IfOk result (λ marks. marks.items ≡ replicate pieces false) }
{
    match Vec::from_elem(alloc, false, pieces as usize) {
        Ok(marks) => Ok(marks),
        Err(_) => Err(NoMemory),
    }
}

/// Counts the bytes of the pieces that no caller owns.
///
/// # Errors
///
/// There was no memory.
pub fn count_rest(
    alloc: Global,
    bytes: &[u8],
    pieces: u32,
    shares: &[Share<'_>],
) -> Result<Vec<u32>, NoMemory>
    requires short { length bytes.now ≤ 16777216 }
    requires pieces { pieces ≡ pieces_of (length bytes.now) }
    requires may { AtEach shares.now (λ c share. MayMark pieces share) }
    ensures { IfOk result (λ counts. CountedIn (replicate 256 0) counts.items bytes.now (left_over 0 pieces (owned_of shares.now))) }
{
    let mut taken = no_marks(alloc, pieces)?;
    mark_all(taken.as_mut_slice(), shares);
    let mut counts = empty_counts(alloc)?;
    count_left(counts.as_mut_slice(), bytes, taken.as_slice());
    Ok(counts)
}
