//! The end of a source of which some was read.

ghost use Rattle.std.specs.Prelude.{◌≡◌, ◌≤◌, ◌⊎◌, IfErr, IfOk};
ghost use Rattle.par_io.specs.Faults.{Rose};
ghost use Rattle.state_partial.specs.Drained.{IsDrained};
ghost use Rattle.stream_groups.specs.declared.stop.Stop.TheVariants as stop;

use par_io::Source;
use stream_groups::Stop;

/// How many bytes are read at once.
const PIECE: usize = 65_536;

/// Reads what is left of a source, which gave this many bytes, and says how many it gave in all.
pub(crate) fn drain<S: Source>(source: &mut S, given: u64) -> Result<u64, Stop>
    ensures size { IfOk result (IsDrained (S.left source.old) (S.left source.new) given) }
    ensures read_fault { IfErr result (λ why. why ≡ stop.ReadFault → Rose (S.faults source.old) (S.faults source.new)) }
    ensures faults { S.faults source.old ≤ S.faults source.new }
    ensures why { IfErr result (λ why. (why ≡ stop.ReadFault) ⊎ (why ≡ stop.Memory)) }
{
    let mut piece = [0u8; PIECE];
    let mut size = given;
    for _ in 0..u64::MAX {
        let count = match source.read(&mut piece) {
            Ok(count) => count as u64,
            Err(_) => return Err(Stop::ReadFault),
        };
        if count == 0 {
            return Ok(size);
        }
        size = match size.checked_add(count) {
            Some(size) => size,
            None => return Err(Stop::Memory),
        };
    }
    Err(Stop::Memory)
}
