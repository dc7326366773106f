// Whether code calls functions. What calls none has its bill without theirs.
ghost use Rattle.std.specs.Prelude.{◌≡◌, ◌||◌};
ghost use Rattle.prem_asm.specs.Pieces.{followed};
ghost use Rattle.prem_asm.specs.PiecesOf.{piece_of, pieces_of};
ghost use Rattle.prem_wcet.specs.Outlines.{code_of};
ghost use Rattle.prem_wcet.specs.PartsOf.{parts_of};
ghost use Rattle.prem_profile.specs.Bound.Pieces.{has_call};

use prem_asm::Piece;
use prem_wcet::outline::Part;

/// Whether one of two lists of pieces calls a function.
#[cycle(calling)]
fn either_calls(first: &[Piece], second: &[Piece]) -> bool
    ensures { result ≡ (has_call (pieces_of first.now) || has_call (pieces_of second.now)) }
{
    pieces_call(first) || pieces_call(second)
}

#[cycle(calling)]
fn piece_calls(piece: &Piece) -> bool
    ensures { result ≡ has_call (piece_of piece.now) }
{
    match piece {
        Piece::Straight(_) | Piece::Address { .. } => false,
        Piece::Either { taken, other, .. } => either_calls(taken.items(), other.items()),
        Piece::Repeat { head, body, .. } => either_calls(head.items(), body.items()),
        Piece::CallTo { .. } => true,
    }
}

/// Whether pieces call a function.
#[cycle(calling)]
fn pieces_call(pieces: &[Piece]) -> bool
    ensures { result ≡ has_call (pieces_of pieces.now) }
{
    'pieces: for piece in pieces {
        if piece_calls(piece) {
            return true;
        }
    }
    false
}

/// Whether statements call a function.
fn parts_call(parts: &[Part<'_>]) -> bool
    ensures { result ≡ has_call (code_of (parts_of parts.now)) }
{
    'parts: for part in parts {
        if pieces_call(part.code()) {
            return true;
        }
    }
    false
}

/// Whether statements between other pieces call a function, or these do.
pub fn code_calls(before: &[Piece], parts: &[Part<'_>], last: &[Piece]) -> bool
    ensures { result ≡ has_call (followed (pieces_of before.now) (followed (code_of (parts_of parts.now)) (pieces_of last.now))) }
{
    let first = pieces_call(before);
    let middle = parts_call(parts);
    let end = pieces_call(last);
    first | middle | end
}
