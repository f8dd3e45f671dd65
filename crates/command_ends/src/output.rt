ghost use Rattle.std.specs.Prelude.{◌≡◌, ◌≤◌, IsErrOf, take, drop};
ghost use Rattle.outside.specs.Faults.{HasRisen};
ghost use Rattle.outside.specs.Piece.{PutCounts};
ghost use Rattle.command_ends.specs.Output.{PutsText, piece_length};

use outside::{PutAnswer, Sink};

/// Output is put in pieces of this length, the last one shorter.
const PIECE: usize = 512;

/// Puts a text whole, piece by piece.
pub fn put_text<O: Sink>(text: &[u8], out: &mut O) -> Result<(), PutAnswer>
    ensures never_falls { O.faults out.old ≤ O.faults out.new }
    ensures failed { IsErrOf result PutAnswer.Failed → HasRisen (O.faults out.old) (O.faults out.new) }
    ensures counted { PutCounts result (O.faults out.old) (O.faults out.new) }
    ensures bytes { PutsText (O.told out.old) text.now result (O.told out.new) }
{
    let mut rest = text;
    while !rest.is_empty() {
        let (piece, after) = next_piece(rest);
        match out.put(piece) {
            Ok(()) => rest = after,
            Err(answer) => return Err(answer),
        }
    }
    Ok(())
}

// The next piece of a text, and what follows it.
fn next_piece(text: &[u8]) -> (&[u8], &[u8])
    ensures piece { result.0.now ≡ take piece_length text.now }
    ensures after { result.1.now ≡ drop piece_length text.now }
{
    if text.len() > PIECE {
        return text.split_at(PIECE);
    }
    (text, &[])
}
