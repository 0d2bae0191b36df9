//! The line that says why a query has no answer.

ghost use Rattle.std.specs.Prelude.{OnOk, map};
ghost use Rattle.std.specs.Io.KnownBytes.{Appends};
ghost use Rattle.std.specs.List.{concat};
ghost use Rattle.par_io.specs.Faults.{HasCause};
ghost use Rattle.answer_text.specs.Lines.{IsSaid};

use par_io::{Failed, Sink, write_whole};

/// Writes the pieces of a line one after the other, up to a write that fails. It takes no memory.
pub fn write_pieces<E: Sink>(err: &mut E, pieces: &[&str]) -> Result<(), Failed>
    ensures said { IsSaid (E.taken err.old) (E.taken err.new) (E.faults err.old) (E.faults err.new) (concat (map (λ piece. piece.now) pieces.now)) }
    ensures whole { OnOk result (Appends (E.taken err.old) (E.taken err.new) (concat (map (λ piece. piece.now) pieces.now))) }
    ensures cause { HasCause (E.faults err.old) (E.faults err.new) result }
{
    for piece in pieces {
        write_whole(err, piece.as_bytes())?;
    }
    Ok(())
}
