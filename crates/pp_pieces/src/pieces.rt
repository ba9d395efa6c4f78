//! The pieces into which an input is cut.

ghost use Rattle.std.specs.Prelude.{◌≡◌, ◌<◌, ◌≤◌, length};
ghost use Rattle.pp_pieces.specs.Pieces.{pieces_of, piece};

/// A piece has this many bytes, but for the last one, which may be shorter.
pub const PIECE: usize = 4096;

/// How many pieces so many bytes make.
pub fn count_pieces(bytes: usize) -> u32
    requires { bytes ≤ 16777216 }
    ensures count { result ≡ pieces_of bytes }
    ensures few { result ≤ 4096 }
{
    (bytes.saturating_add(PIECE - 1) / PIECE) as u32
}

/// The bytes of the piece with this number, from 0.
pub fn piece_at(bytes: &[u8], number: u32) -> &[u8]
    requires short { length bytes.now ≤ 16777216 }
    requires there { number < pieces_of (length bytes.now) }
    ensures { result.now ≡ piece bytes.now number }
{
    let from = number as usize * PIECE;
    let to = bytes.len().min(from + PIECE);
    &bytes[from..to]
}
