//! Writes the sum of several files as a file.
//!
//! If a row is refused the file says so, and has no groups, as no table will have them.

ghost use Rattle.std.specs.Prelude.{◌≡◌, ◌++◌, All, Err, IfErr, OnOk};
ghost use Rattle.partial_agg.specs.Listed.{listed};
ghost use Rattle.result_text.specs.Printable.{IsKeyOf};
ghost use Rattle.state_combine.specs.Combined.{AreBeside, IsCombined, IsNotCombined, IsTooLong};
ghost use Rattle.state_combine.specs.declared.combining.CombineFault.TheVariants as fault;
ghost use Rattle.state_head.specs.Cover.{IsStretch};
ghost use Rattle.state_head.specs.Head.{subject_of};
ghost use Rattle.state_head.specs.Words.{keys_of};
ghost use Rattle.state_whole.specs.Adding.{IsShape};
ghost use Rattle.state_whole.specs.Files.{StateFile, file_bytes};
ghost use Rattle.state_writer.specs.declared.writer.WriteError.TheVariants as variant;

use partial_agg::{GroupMap, Groups};
use state_cover::{CoverFault, join_cover};
use state_head::{Head, KeyRange, Stretch, Whole};
use state_save::push_file;
use state_total::first_refused;
use state_whole::{Shape, Sum};
use state_writer::WriteError;
use std::alloc::Global;

/// Why the sum of some files is not written: their stretches are no cover, as `why` says; or memory ran out, or the file would be too
/// long.
#[derive(Clone, Copy, Debug, PartialEq, Eq)]
pub enum CombineFault {
    Cover { why: CoverFault },
    Write { why: WriteError },
}

/// Puts the file that the sum of some files is at the end of `out`, if they say this of themselves. Time and memory are those of
/// [`push_file`].
pub fn push_combined(
    alloc: Global,
    out: &mut Vec<u8>,
    whole: Whole<'_>,
    range: KeyRange<'_>,
    sum: Sum<'_>,
    shape: &Shape<'_>,
) -> Result<(), CombineFault>
    requires shape { IsShape shape.now }
    requires keys { All (λ group. IsKeyOf shape.now.columns group.key) (listed sum.map) }
    requires stretches { All (IsStretch whole.sources) sum.cover.items }
    ensures file { OnOk result ((f : StateFile) × IsCombined shape.now (subject_of whole.entry) (keys_of range.entry) sum.entry.map sum.entry.cover.items f
        × (out.new.items ≡ out.old.items ++ file_bytes shape.now.kinds.now f)) }

    // When each error comes.
    ensures refused { IfErr result (IsNotCombined sum.entry.cover.items) }
    ensures long { result ≡ Err (fault.Write variant.Long) → IsTooLong shape.now (subject_of whole.entry) (keys_of range.entry) sum.entry.map sum.entry.cover.items }
{
    let (map, mut stretches) = sum.into_parts();
    let cover = match join_cover(alloc, &mut stretches, whole.sources) {
        Ok(cover) => cover,
        Err(why) => return Err(CombineFault::Cover { why }),
    };
    let groups = groups_beside(alloc, cover.as_slice(), map);
    let head = Head {
        whole,
        cover,
        range,
    };
    match push_file(alloc, out, &head, &groups, shape) {
        Ok(()) => Ok(()),
        Err(why) => Err(CombineFault::Write { why }),
    }
}

/// The groups of a map, or none of them if a row of a cover is refused.
fn groups_beside(alloc: Global, cover: &[Stretch], map: GroupMap) -> Groups
    ensures { AreBeside cover.now map result }
{
    match first_refused(cover) {
        Some(_) => GroupMap::new(alloc).into_groups(),
        None => map.into_groups(),
    }
}
