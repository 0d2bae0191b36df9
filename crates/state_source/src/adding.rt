//! The files of a source, added one after another.
//!
//! A file is added as soon as it is there, and its bytes are dropped then. If the next bytes are no file as they are,
//! more are read; so why they are none is said only when the source is at its end, of all that is left, but for what no
//! more bytes can change.

ghost use Rattle.std.specs.Prelude.{◌≡◌, ◌≤◌, ◌+◌, ◌++◌, List, ℕ, IfErr, IfOk, true};
ghost use Rattle.par_io.specs.Faults.{Rose};
ghost use Rattle.partial_agg.specs.Groups.{GroupsByKey};
ghost use Rattle.state_head.specs.Head.{subject_of};
ghost use Rattle.state_head.specs.Words.{keys_of};
ghost use Rattle.state_head.specs.declared.cover.Stretch.{Stretch};
ghost use Rattle.state_load.specs.Loading.{AreAdded};
ghost use Rattle.state_source.specs.Adding.{ComesNext, IsFaultOf, IsShifted, IsStep};
ghost use Rattle.state_source.specs.Reading.{EndsAt, OfLeft};
ghost use Rattle.state_source.specs.declared.adding.SourceFault.{SourceFault};
ghost use Rattle.state_source.specs.declared.adding.SourceFault.TheVariants as fault;
ghost use Rattle.state_source.specs.declared.adding.Step.TheVariants as step;
ghost use Rattle.state_whole.specs.Adding.{IsShape};
ghost use Rattle.state_whole.specs.Sums.{AreSummed};

use crate::ahead::{Ahead, PIECE};
use crate::first::FirstBytes;
use crate::sizes::wanted_size;
use par_io::Source;
use state_head::{KeyRange, Whole};
use state_load::{LoadFault, add_files, add_first};
use state_whole::{Shape, Sum};
use std::alloc::Global;

/// Why the files of a source are not added: a read failed, memory ran out, or one of them is not taken.
#[derive(Clone, Copy, Debug, PartialEq, Eq)]
pub enum SourceFault {
    ReadFault,
    Memory,
    Load { fault: LoadFault },
}

/// Adds the files of a source, one after another, to a sum, and says how many they are. Some bytes were read of it
/// already, by [`read_first`](crate::read_first). Each file has to say this plan, header, number of sources and range.
/// Time is that of the bytes and a look-up for each group; memory is that of the groups that the sum keeps, of the
/// covers, of the largest file and a sixteenth of it, and of one read; if a file is not taken, that of all bytes from
/// it on. After an error a sum can only be dropped.
pub fn add_source<S: Source>(
    alloc: Global,
    sum: &mut Sum<'_>,
    first: &FirstBytes,
    source: &mut S,
    whole: Whole<'_>,
    range: KeyRange<'_>,
    shape: &Shape<'_>,
) -> Result<u64, SourceFault>
    requires shape { IsShape shape.now }
    requires end { EndsAt first.now.ended (S.left source.old) }
    ensures added { (m : GroupsByKey) (cover : List Stretch) → AreSummed m cover sum.old
        → IfOk result (λ count. OfLeft (S.left source.old) (λ more. AreAdded shape.now (subject_of whole.entry) (keys_of range.entry) (first.now.bytes.items ++ more) m cover sum.new count)) }
    ensures kept { sum.new.kept ≡ sum.old.kept }

    // When each error comes.
    ensures refused { (m : GroupsByKey) (cover : List Stretch) → AreSummed m cover sum.old
        → IfErr result (λ why. OfLeft (S.left source.old) (λ more. IsFaultOf shape.now (subject_of whole.entry) (keys_of range.entry) m (first.now.bytes.items ++ more) why)) }
    ensures read_fault { IfErr result (λ why. why ≡ fault.ReadFault → Rose (S.faults source.old) (S.faults source.new)) }
{
    let Ok(mut ahead) = Ahead::new(alloc, first) else {
        return Err(SourceFault::Memory);
    };
    for count in 0..u64::MAX {
        match add_next(alloc, sum, &mut ahead, source, whole, range, shape) {
            Ok(true) => {}
            Ok(false) => return add_rest(alloc, sum, ahead.bytes(), whole, range, shape, count),
            Err(why) => return Err(shifted(count, why)),
        }
    }
    Err(SourceFault::Memory)
}

/// What is to be done after the bytes that are held were looked at: a file of them was added; they are the last ones,
/// and begin with none; or there have to be this many before they are looked at again.
#[derive(Clone, Copy)]
enum Step {
    Added,
    Ended,
    Wanted(usize),
}

/// Adds the file that comes next, as soon as it is there. No if the source is at its end, and what is left begins with
/// no file.
fn add_next<S: Source>(
    alloc: Global,
    sum: &mut Sum<'_>,
    ahead: &mut Ahead,
    source: &mut S,
    whole: Whole<'_>,
    range: KeyRange<'_>,
    shape: &Shape<'_>,
) -> Result<bool, SourceFault>
    requires shape { IsShape shape.now }
    requires end { EndsAt ahead.old.ended (S.left source.old) }
    ensures next { IfOk result (ComesNext shape.now (subject_of whole.entry) (keys_of range.entry) (S.left source.old) (S.left source.new) ahead.old ahead.new sum.old sum.new) }
    ensures end { IfOk result (λ _. EndsAt ahead.new.ended (S.left source.new)) }
    ensures kept { sum.new.kept ≡ sum.old.kept }
    ensures refused { (m : GroupsByKey) (cover : List Stretch) → AreSummed m cover sum.old
        → IfErr result (λ why. OfLeft (S.left source.old) (λ more. IsFaultOf shape.now (subject_of whole.entry) (keys_of range.entry) m (ahead.old.bytes ++ more) why)) }
    ensures faults { S.faults source.old ≤ S.faults source.new }
    ensures read_fault { IfErr result (λ why. why ≡ fault.ReadFault → Rose (S.faults source.old) (S.faults source.new)) }
{
    for _ in 0..u64::MAX {
        let wanted = match add_held(alloc, sum, ahead, whole, range, shape) {
            Ok(Step::Added) => return Ok(true),
            Ok(Step::Ended) => return Ok(false),
            Ok(Step::Wanted(wanted)) => wanted,
            Err(why) => return Err(why),
        };
        match ahead.read_on(source, wanted) {
            Ok(()) => {}
            Err(why) => return Err(why),
        }
    }
    Err(SourceFault::Memory)
}

/// Adds the file that the bytes that are held begin with, if it may be there.
fn add_held(
    alloc: Global,
    sum: &mut Sum<'_>,
    ahead: &mut Ahead,
    whole: Whole<'_>,
    range: KeyRange<'_>,
    shape: &Shape<'_>,
) -> Result<Step, SourceFault>
    requires { IsShape shape.now }
    ensures held { IfOk result (IsStep shape.now (subject_of whole.entry) (keys_of range.entry) ahead.old ahead.new sum.old sum.new) }
    ensures kept { sum.new.kept ≡ sum.old.kept }
    ensures refused { (m : GroupsByKey) (cover : List Stretch) (more : List ℕ) → AreSummed m cover sum.old → IfErr result (IsFaultOf shape.now (subject_of whole.entry) (keys_of range.entry) m (ahead.old.bytes ++ more)) }
    ensures why { IfErr result (λ why. (why ≡ fault.ReadFault) → ⊥) }
{
    let ended = ahead.ended();
    if let Some(wanted) = wanted_size(ahead.bytes(), ended) {
        return Ok(Step::Wanted(wanted));
    }
    match add_first(alloc, sum, ahead.bytes(), whole, range, shape) {
        Ok(Some(rest)) => {
            let count = ahead.bytes().len() - rest.len();
            ahead.skip(count);
            Ok(Step::Added)
        }
        Ok(None) => Ok(step_without(ended, ahead.bytes().len())),
        Err(why) => {
            let fault = LoadFault { file: 1, why };
            Err(SourceFault::Load { fault })
        }
    }
}

/// What is to be done if this many bytes begin with no file.
fn step_without(ended: bool, count: usize) -> Step
    ensures added { (result ≡ step.Added) → ⊥ }
    ensures ended { result ≡ step.Ended → ended ≡ true }
{
    if ended {
        return Step::Ended;
    }
    Step::Wanted(count.saturating_mul(2).max(PIECE))
}

/// Adds the files that the last bytes of a source are, after this many others, and says how many they are in all.
fn add_rest(
    alloc: Global,
    sum: &mut Sum<'_>,
    bytes: &[u8],
    whole: Whole<'_>,
    range: KeyRange<'_>,
    shape: &Shape<'_>,
    before: u64,
) -> Result<u64, SourceFault>
    requires { IsShape shape.now }
    ensures added { (m : GroupsByKey) (cover : List Stretch) → AreSummed m cover sum.old
        → IfOk result (λ count. (more : ℕ) × AreAdded shape.now (subject_of whole.entry) (keys_of range.entry) bytes.now m cover sum.new more × (count ≡ before + more)) }
    ensures kept { sum.new.kept ≡ sum.old.kept }
    ensures refused { (m : GroupsByKey) (cover : List Stretch) → AreSummed m cover sum.old
        → IfErr result (λ why. (fault : SourceFault) × IsFaultOf shape.now (subject_of whole.entry) (keys_of range.entry) m bytes.now fault × IsShifted before fault why) }
    ensures why { IfErr result (λ why. (why ≡ fault.ReadFault) → ⊥) }
{
    match add_files(alloc, sum, bytes, whole, range, shape) {
        Ok(more) => match before.checked_add(more) {
            Some(count) => Ok(count),
            None => Err(SourceFault::Memory),
        },
        Err(fault) => Err(shifted(before, SourceFault::Load { fault })),
    }
}

/// A fault of a file that comes after this many others.
pub(crate) fn shifted(before: u64, why: SourceFault) -> SourceFault
    ensures { IsShifted before why result }
{
    let SourceFault::Load { fault } = why else {
        return why;
    };
    match before.checked_add(fault.file) {
        Some(file) => SourceFault::Load {
            fault: LoadFault {
                file,
                why: fault.why,
            },
        },
        None => SourceFault::Memory,
    }
}
