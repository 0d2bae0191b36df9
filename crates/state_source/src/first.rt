//! The first bytes of a source, among them the front of its first file.

ghost use Rattle.std.specs.Prelude.{◌≡◌, ◌≤◌, IfErr, IfOk, IsTrue};
ghost use Rattle.std.specs.Io.KnownBytes.{Consumes};
ghost use Rattle.par_io.specs.Faults.{Rose};
ghost use Rattle.state_source.specs.Reading.{HasFront, IsBegun, IsNoLoad};
ghost use Rattle.state_source.specs.declared.adding.SourceFault.TheVariants as fault;

use crate::adding::SourceFault;
use crate::ahead::{PIECE, new_piece, read_to};
use par_io::Source;
use state_front::read_front;
use std::alloc::Global;

/// The most bytes that are read for a front: a tebibyte.
const MOST_BYTES: usize = 1 << 40;

/// What was read of a source, and whether that was all.
#[derive(Drop)]
pub struct FirstBytes {
    pub bytes: Vec<u8>,
    pub ended: bool,
}

/// Reads a source until what was read begins with the front of a file, or to its end. It reads at most twice the bytes
/// of the front and 64 KiB if there is one, and takes memory for what it reads.
pub fn read_first<S: Source>(alloc: Global, source: &mut S) -> Result<FirstBytes, SourceFault>
    ensures reads { IfOk result (λ first. Consumes (S.left source.old) (S.left source.new) first.bytes.items) }
    ensures begun { IfOk result (IsBegun (S.left source.new)) }

    // Why it answers an error.
    ensures why { IfErr result IsNoLoad }
    ensures read_fault { IfErr result (λ why. why ≡ fault.ReadFault → Rose (S.faults source.old) (S.faults source.new)) }
    ensures faults { S.faults source.old ≤ S.faults source.new }
{
    let Ok(mut piece) = new_piece(alloc) else {
        return Err(SourceFault::Memory);
    };
    let mut bytes = Vec::new(alloc);
    let mut wanted = PIECE;
    'tries: while wanted <= MOST_BYTES {
        let ended = match read_to(source, &mut bytes, piece.as_mut_slice(), wanted) {
            Ok(ended) => ended,
            Err(why) => return Err(why),
        };
        if ended || has_front(alloc, bytes.as_slice()) {
            return Ok(FirstBytes { bytes, ended });
        }
        wanted *= 2;
    }
    Err(SourceFault::Memory)
}

/// Whether some bytes begin with the front of a file.
fn has_front(alloc: Global, bytes: &[u8]) -> bool
    ensures { IsTrue result → HasFront bytes.now }
{
    match read_front(alloc, bytes) {
        Ok(_) => true,
        Err(_) => false,
    }
}
