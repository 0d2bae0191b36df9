//! The writing of a text that lies in pieces, as several threads make it.

ghost use Rattle.std.specs.Prelude.{ℕ, OnErr, OnOk, map, take};
ghost use Rattle.std.specs.Io.KnownBytes.{Appends};
ghost use Rattle.std.specs.List.{concat};
ghost use Rattle.par_io.specs.Faults.{HasCause};

use par_io::{Failed, Sink, write_whole};

/// Writes the pieces of a text one after the other, up to a write that fails. It takes no memory: the text never lies
/// in one list.
pub fn write_each<O: Sink>(out: &mut O, pieces: &[Vec<u8>]) -> Result<(), Failed>
    ensures whole { OnOk result (Appends (O.taken out.old) (O.taken out.new) (concat (map (λ piece. piece.items) pieces.now))) }
    ensures prefix { OnErr result ((n : ℕ) × Appends (O.taken out.old) (O.taken out.new) (take n (concat (map (λ piece. piece.items) pieces.now)))) }
    ensures cause { HasCause (O.faults out.old) (O.faults out.new) result }
{
    for piece in pieces {
        write_whole(out, piece.as_slice())?;
    }
    Ok(())
}
