//! The groups of an input, whose fields another byte than the comma may part.

ghost use Rattle.std.specs.Prelude.{◌≡◌, ◌≤◌, IfErr, IfOk, OnOk, map, option_map};
ghost use Rattle.std.specs.Io.KnownBytes.{IsAtEnd};
ghost use Rattle.csv_rows.specs.Readings.{exchanged};
ghost use Rattle.par_io.specs.Faults.{Rose};
ghost use Rattle.stream_groups.specs.Before.{ReadBefore, most_of_batch};
ghost use Rattle.stream_groups.specs.Reading.{AreGroupsOver};
ghost use Rattle.stream_groups.specs.Sources.{bare_faults, bare_left, exchanged_left};
ghost use Rattle.stream_groups.specs.Stops.{Tells};
ghost use Rattle.stream_groups.specs.Taken.{Takes};
ghost use Rattle.stream_groups.specs.Ways.{of_bytes};
ghost use Rattle.stream_groups.specs.declared.stop.Stop.TheVariants as stop;

use crate::progress::Progress;
use crate::reading::{ReadGroups, read_groups};
use crate::separated::Separated;
use crate::stop::Stop;
use crate::taken::Taken;
use par_io::Source;
use plan_spec::{MOST_WORKERS, Plan};
use std::alloc::Global;
use std::sync::Wait;
use std::thread::Threads;

/// Reads the whole source, in batches of this many bytes or more, with at most this many workers, and reports how far it has
/// come. Its records are read as the plan says. The bytes that the source gave are counted, also if there are no groups.
pub fn read_input<R: Threads + Wait + Sync, S: Source, P: Progress>(
    rt: &R,
    alloc: Global,
    plan: &Plan,
    workers: u32,
    source: &mut Separated<S>,
    size: usize,
    progress: &mut P,
    taken: &mut Taken,
) -> Result<ReadGroups, Stop>
    requires workers { workers ≤ MOST_WORKERS }
    ensures groups { IfOk result (AreGroupsOver (of_bytes plan.now.reading) plan.now (bare_left S.left source.old)) }
    ensures why { IfErr result (Tells (of_bytes plan.now.reading) plan.now (bare_left S.left source.old)) }
    ensures read_fault { IfErr result (λ why. why ≡ stop.ReadFault → Rose (bare_faults S.faults source.old) (bare_faults S.faults source.new)) }
    ensures read_before { IfErr result (λ why. why ≡ stop.ReadFault → ReadBefore (of_bytes plan.now.reading) plan.now (bare_left S.left source.old) (bare_left S.left source.new) (most_of_batch size)) }
    ensures no_write { IfErr result (λ why. (why ≡ stop.WriteFault) → ⊥) }

    // What is left of the source, with the comma and the separator exchanged, and how many bytes it gave.
    ensures end { OnOk result (IsAtEnd (exchanged_left S.left source.new)) }
    ensures taken { Takes (option_map (map (exchanged plan.now.reading.separator)) (bare_left S.left source.old)) (exchanged_left S.left source.new) (bare_faults S.faults source.old) (bare_faults S.faults source.new) taken.old taken.new }
{
    source.separate(plan.reading().separator);
    read_groups(rt, alloc, plan, workers, source, size, progress, taken)
}
