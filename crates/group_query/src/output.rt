//! The writing of a table: as a whole, or in pieces if several threads make its text. A piece is written as it was
//! made, so the text is never in one list, and nothing is written before all pieces are there.

ghost use Rattle.std.specs.Prelude.{◌≡◌, ◌≢◌, ◌⊎◌, ℕ, List, IfErr, IfOk, OnOk, take};
ghost use Rattle.std.specs.Io.KnownBytes.{Appends};
ghost use Rattle.par_io.specs.Faults.{Rose};
ghost use Rattle.group_query.specs.Grouping.{ListsGroups};
ghost use Rattle.table_query.specs.Ready.{IsBound};
ghost use Rattle.group_query.specs.Grouping.{IsGroupsText};
ghost use Rattle.table_query.specs.declared.stop.Stop.TheVariants as stop;

use answer_text::write_each;
use gather_run::Gathered;
use par_io::{Failed, Sink, write_whole};
use partial_agg::Groups;
use result_text::{text_in_threads, text_of};
use std::alloc::Global;
use std::thread::Threads;
use table_query::{Ready, Stop};

/// Makes the text of the table of these groups, and writes it.
pub(crate) fn write_table<O: Sink>(
    alloc: Global,
    ready: &Ready,
    groups: &Groups,
    out: &mut O,
) -> Result<(), Stop>
    requires bound { IsBound ready.now }
    requires groups { ListsGroups ready.now.bound ready.now.rows groups.now }
    ensures table { OnOk result ((text : List ℕ) × IsGroupsText ready.now groups.now text × Appends (O.taken out.old) (O.taken out.new) text) }
    ensures part { IfErr result (λ why. why ≡ stop.WriteFault → (text : List ℕ) × IsGroupsText ready.now groups.now text × (n : ℕ) × Appends (O.taken out.old) (O.taken out.new) (take n text)) }
    ensures nothing { IfErr result (λ why. (why ≢ stop.WriteFault) → out.new ≡ out.old) }
    ensures write_fault { IfErr result (λ why. why ≡ stop.WriteFault → Rose (O.faults out.old) (O.faults out.new)) }
    ensures why { IfErr result (λ why. (why ≡ stop.WriteFault) ⊎ (why ≡ stop.Memory)) }
{
    let text = text_of(alloc, &ready.plan, &ready.bound, groups)?;
    match write_whole(out, text.as_slice()) {
        Ok(()) => Ok(()),
        Err(Failed) => Err(Stop::WriteFault),
    }
}

/// Writes the table of groups, with a text that is made by at most this many threads, the caller's among them.
pub(crate) fn write_table_in_threads<R: Threads + Sync, O: Sink>(
    rt: &R,
    alloc: Global,
    ready: &Ready,
    groups: &Groups,
    threads: usize,
    out: &mut O,
) -> Result<(), Stop>
    requires bound { IsBound ready.now }
    requires groups { ListsGroups ready.now.bound ready.now.rows groups.now }
    ensures table { OnOk result ((text : List ℕ) × IsGroupsText ready.now groups.now text × Appends (O.taken out.old) (O.taken out.new) text) }
    ensures part { IfErr result (λ why. why ≡ stop.WriteFault → (text : List ℕ) × IsGroupsText ready.now groups.now text × (n : ℕ) × Appends (O.taken out.old) (O.taken out.new) (take n text)) }
    ensures nothing { IfErr result (λ why. (why ≢ stop.WriteFault) → out.new ≡ out.old) }
    ensures write_fault { IfErr result (λ why. why ≡ stop.WriteFault → Rose (O.faults out.old) (O.faults out.new)) }
    ensures why { IfErr result (λ why. (why ≡ stop.WriteFault) ⊎ (why ≡ stop.Memory)) }
{
    let pieces = text_in_threads(rt, alloc, &ready.plan, &ready.bound, groups, threads)?;
    match write_each(out, &pieces) {
        Ok(()) => Ok(()),
        Err(Failed) => Err(Stop::WriteFault),
    }
}

/// Writes the table of what was gathered, with a text that is made by as many threads as gathered, and gives that back.
pub(crate) fn write_gathered<R: Threads + Sync, O: Sink>(
    rt: &R,
    alloc: Global,
    ready: &Ready,
    gathered: Gathered,
    out: &mut O,
) -> Result<Gathered, Stop>
    requires bound { IsBound ready.now }
    requires groups { ListsGroups ready.now.bound ready.now.rows gathered.groups }
    ensures given { IfOk result (λ given. given ≡ gathered) }
    ensures table { OnOk result ((text : List ℕ) × IsGroupsText ready.now gathered.groups text × Appends (O.taken out.old) (O.taken out.new) text) }
    ensures part { IfErr result (λ why. why ≡ stop.WriteFault → (text : List ℕ) × IsGroupsText ready.now gathered.groups text × (n : ℕ) × Appends (O.taken out.old) (O.taken out.new) (take n text)) }
    ensures nothing { IfErr result (λ why. (why ≢ stop.WriteFault) → out.new ≡ out.old) }
    ensures write_fault { IfErr result (λ why. why ≡ stop.WriteFault → Rose (O.faults out.old) (O.faults out.new)) }
    ensures why { IfErr result (λ why. (why ≡ stop.WriteFault) ⊎ (why ≡ stop.Memory)) }
{
    let threads = ready.plan.workers() as usize + 1;
    write_table_in_threads(rt, alloc, ready, &gathered.groups, threads, out)?;
    Ok(gathered)
}
