//! All the bytes of a script.

ghost use Rattle.std.specs.Prelude.{◌≡◌, ◌≢◌, ◌≤◌, ◌+◌, ℕ, List, Err, IfOk, IfErr, IfSome, vec_len};
ghost use Rattle.par_io.specs.Faults.{Rose};
ghost use Rattle.par_io.specs.Reads.{ReadsCount};
ghost use Rattle.par_shell.specs.declared.stop.Stop.TheVariants as stop;

use crate::stop::Stop;
use par_io::{NotWhole, Source, read_whole};
use std::alloc::Global;

/// The most bytes that a script has: 1 MiB.
pub(crate) const MOST_BYTES: usize = 1_048_576;

/// Reads all that the source has left. Each read takes at least a byte, so it returns, after at most one byte more than
/// [`MOST_BYTES`]. On `Err` a part was read and is lost.
pub(crate) fn read_script<S: Source>(alloc: Global, source: &mut S) -> Result<Vec<u8>, Stop>
    ensures whole { IfOk result (λ v. IfSome (S.left source.old) (λ bytes. v.items ≡ bytes)) }
    ensures within { IfOk result (λ v. vec_len v ≤ MOST_BYTES) }
    ensures read_fault { result ≡ Err stop.ReadFault → Rose (S.faults source.old) (S.faults source.new) }
    ensures too_long { result ≡ Err stop.TooLong → ReadsCount (S.left source.old) (S.left source.new) (MOST_BYTES + 1) }
    ensures why { IfErr result (λ why. (why ≢ stop.Usage) × (why ≢ stop.WriteFault)) }
    ensures faults { S.faults source.old ≤ S.faults source.new }
{
    match read_whole(alloc, source, MOST_BYTES) {
        Ok(bytes) => Ok(bytes),
        Err(NotWhole::ReadFault) => Err(Stop::ReadFault),
        Err(NotWhole::TooLong) => Err(Stop::TooLong),
        Err(NotWhole::Memory) => Err(Stop::Memory),
    }
}
