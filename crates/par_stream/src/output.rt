//! The writing of a table.

ghost use Rattle.std.specs.Prelude.{◌≡◌, ◌≢◌, ◌⊎◌, ℕ, List, Option, IfErr, IfOk, IfSome, OnOk, take};
ghost use Rattle.std.specs.Io.KnownBytes.{Appends};
ghost use Rattle.par_io.specs.Faults.{Rose};
ghost use Rattle.result_text.specs.Printable.{IsBoundFrom};
ghost use Rattle.par_stream.specs.Answers.{AnswersGathered, IsTextOver};
ghost use Rattle.stream_groups.specs.Gathering.{AreGathered};
ghost use Rattle.stream_groups.specs.Reading.{AreGroupsOver};
ghost use Rattle.stream_groups.specs.Ways.{Way};
ghost use Rattle.stream_groups.specs.declared.gathered.Gathered.TheVariants as kept;
ghost use Rattle.stream_groups.specs.declared.stop.Stop.TheVariants as stop;

use answer_text::write_each;
use line_runs::table_of_parts;
use par_io::Sink;
use par_model::BoundPlan;
use part_run::Parts;
use partial_agg::GroupMap;
use plan_spec::Plan;
use split_run::table_text;
use std::alloc::{AllocError, Global};
use std::thread::Threads;
use stream_groups::{Gathered, ReadGroups, Stop, all_groups, may_part, useful_workers};

/// The fewest groups in all maps for which it pays to part their keys.
const FEWEST_GROUPS: usize = 16_384;

/// Makes the text of the table of these groups, of a plan and of whatever bytes they are over, in pieces, and writes them one
/// behind the other. Time is that of ordering the groups, and memory that of the text.
pub fn write_table<R: Threads + Sync, O: Sink>(
    rt: &R,
    alloc: Global,
    plan: &Plan,
    read: ReadGroups,
    out: &mut O,
) -> Result<(), Stop>
    requires { (way : Way) × (from : Option (List ℕ)) × AreGroupsOver way plan.now from read }
    ensures table { OnOk result ((way : Way) (from : Option (List ℕ)) → AreGroupsOver way plan.now from read → IfSome from (λ bytes.
        (text : List ℕ) × IsTextOver way plan.now bytes text × Appends (O.taken out.old) (O.taken out.new) text)) }
    ensures part { IfErr result (λ why. why ≡ stop.WriteFault → (way : Way) (from : Option (List ℕ)) → AreGroupsOver way plan.now from read → IfSome from (λ bytes.
        (text : List ℕ) × IsTextOver way plan.now bytes text × (n : ℕ) × Appends (O.taken out.old) (O.taken out.new) (take n text))) }
    ensures nothing { IfErr result (λ why. (why ≢ stop.WriteFault) → out.new ≡ out.old) }
    ensures write_fault { IfErr result (λ why. why ≡ stop.WriteFault → Rose (O.faults out.old) (O.faults out.new)) }
    ensures why { IfErr result (λ why. (why ≡ stop.WriteFault) ⊎ (why ≡ stop.Memory)) }
{
    let ReadGroups {
        bound,
        gathered,
        ..
    } = read;
    let pieces = text_of(rt, alloc, plan, &bound, gathered)?;
    write_each(out, &pieces)?;
    Ok(())
}

/// The text of the table of what was gathered, in pieces.
fn text_of<R: Threads + Sync>(
    rt: &R,
    alloc: Global,
    plan: &Plan,
    bound: &BoundPlan,
    gathered: Gathered,
) -> Result<Vec<Vec<u8>>, AllocError>
    requires bound { IsBoundFrom plan.now.plan bound.now }
    requires rows { AreGathered bound.now gathered }
    ensures { IfOk result (λ pieces. AnswersGathered plan.now.plan bound.now gathered pieces.items) }
{
    match gathered {
        Gathered::Near(maps) => near_text(rt, alloc, plan, bound, maps),
        Gathered::Parted(parts) => parts_text(rt, alloc, plan, bound, parts),
    }
}

/// The text by the maps of the participants. If there are many groups their keys are parted now.
fn near_text<R: Threads + Sync>(
    rt: &R,
    alloc: Global,
    plan: &Plan,
    bound: &BoundPlan,
    maps: Vec<GroupMap>,
) -> Result<Vec<Vec<u8>>, AllocError>
    requires bound { IsBoundFrom plan.now.plan bound.now }
    requires rows { AreGathered bound.now (kept.Near maps) }
    ensures { IfOk result (λ pieces. AnswersGathered plan.now.plan bound.now (kept.Near maps) pieces.items) }
{
    if may_part(bound, &maps) && all_groups(&maps) >= FEWEST_GROUPS {
        let parts = Parts::begin(rt, alloc, maps)?;
        return parts_text(rt, alloc, plan, bound, parts);
    }
    table_text(rt, alloc, plan, bound, maps)
}

/// The text by the maps of the parts, to which all rows that wait are added first.
fn parts_text<R: Threads + Sync>(
    rt: &R,
    alloc: Global,
    plan: &Plan,
    bound: &BoundPlan,
    parts: Parts,
) -> Result<Vec<Vec<u8>>, AllocError>
    requires bound { IsBoundFrom plan.now.plan bound.now }
    requires rows { AreGathered bound.now (kept.Parted parts) }
    ensures { IfOk result (λ pieces. AnswersGathered plan.now.plan bound.now (kept.Parted parts) pieces.items) }
{
    let threads = useful_workers(rt, plan.workers()) as usize + 1;
    let maps = parts.finish(rt, alloc)?;
    table_of_parts(rt, alloc, plan, bound, maps, threads)
}
