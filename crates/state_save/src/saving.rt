//! Puts the groups of a map into a file, in the order of the table.
//!
//! A map has its groups in the order of their encoded keys, in which a short column comes before a long one. So a list of references
//! is sorted, as for the text of a table, and no group is copied but into the bytes.

ghost use Rattle.std.specs.Prelude.{◌≡◌, ◌≤◌, ◌<◌, ◌^◌, ◌++◌, ◌∷◌, [], ℕ, All, Err, List, OnOk, length, map as map_list};
ghost use Rattle.partial_agg.specs.declared.groups.Group.{Group as MapGroup};
ghost use Rattle.result_text.specs.GroupOrder.{group_of};
ghost use Rattle.result_text.specs.Printable.{IsKeyOf};
ghost use Rattle.state_blocks.specs.Blocks.{Group};
ghost use Rattle.state_head.specs.Head.{head_bytes, preface_of};
ghost use Rattle.state_save.specs.Saving.{AreTuplesOf, AreWritten, DoNotFit, IsFileOf, tuple_of, tuples_at};
ghost use Rattle.state_whole.specs.Adding.{IsShape};
ghost use Rattle.state_whole.specs.Files.{StateFile, file_bytes};
ghost use Rattle.state_writer.specs.Writing.{Fit, FitInBlocks, Goes, HasTaken};
ghost use Rattle.state_writer.specs.declared.writer.WriteError.TheVariants as variant;

use partial_agg::Groups;
use result_text::{GroupRef, in_order};
use state_front::{FrontWrite, push_front};
use state_head::Head;
use state_lanes::lane_slots;
use state_whole::Shape;
use state_writer::{BodyWriter, WriteError};
use std::alloc::Global;

/// Puts a file of some groups at the end of `out`: this head, and the groups in the order of the table. It takes memory for the file,
/// and 24 bytes a group; time is that of the file, and of n log n comparisons of the keys of n groups.
/// After an error the bytes at the end of `out` are of no use.
pub fn push_file(
    alloc: Global,
    out: &mut Vec<u8>,
    head: &Head<'_>,
    groups: &Groups,
    shape: &Shape<'_>,
) -> Result<(), WriteError>
    requires shape { IsShape shape.now }
    requires keys { All (λ group. IsKeyOf shape.now.columns group.key) groups.now }
    ensures file { OnOk result ((f : StateFile) × IsFileOf shape.now (preface_of head.now) groups.now f × (out.new.items ≡ out.old.items ++ file_bytes shape.now.kinds.now f)) }
    ensures short { OnOk result (length (head_bytes (preface_of head.now)) ≤ 2 ^ 28) }

    // When the error comes that is not of memory: the head or what comes after it is too long for a file.
    ensures long { result ≡ Err variant.Long → DoNotFit shape.now (preface_of head.now) groups.now }
{
    let from = out.len();
    match push_front(alloc, out, head) {
        Ok(()) => {}
        Err(FrontWrite::Memory) => return Err(WriteError::Memory),
        Err(FrontWrite::Long) => return Err(WriteError::Long),
    }
    let at = (out.len() - from) as u64;
    push_groups(alloc, out, at, groups, shape)
}

/// Puts what comes after a head at the end of `out`, if that head ends at this place of its file.
pub fn push_groups(
    alloc: Global,
    out: &mut Vec<u8>,
    at: u64,
    groups: &Groups,
    shape: &Shape<'_>,
) -> Result<(), WriteError>
    requires shape { IsShape shape.now }
    requires keys { All (λ group. IsKeyOf shape.now.columns group.key) groups.now }
    ensures written { OnOk result (AreWritten shape.now groups.now at out.old.items out.new.items) }

    // When the error comes that is not of memory.
    ensures long { result ≡ Err variant.Long → (tuples : List Group) × AreTuplesOf shape.now groups.now tuples × (Fit shape.now.kinds.now at tuples → ⊥) }
{
    groups.keys_rise();
    let refs = in_order(alloc, groups, shape.columns)?;
    let mut writer = BodyWriter::new(alloc, at);
    push_each(&mut writer, out, groups, &refs, shape)?;
    writer.finish(alloc, out)
}

/// Takes groups of a map into a file, in this order.
fn push_each(
    writer: &mut BodyWriter,
    out: &mut Vec<u8>,
    groups: &Groups,
    refs: &[GroupRef<'_>],
    shape: &Shape<'_>,
) -> Result<(), WriteError>
    requires shape { IsShape shape.now }
    requires within { All (λ group. group.at < length groups.now) refs.now }
    ensures taken { (start : ℕ) → HasTaken shape.now.kinds.now start [] [] writer.old
        → OnOk result (Goes shape.now.kinds.now start (tuples_at shape.now groups.now refs.now) [] out.old.items out.new.items writer.new) }
    ensures long { (start : ℕ) → HasTaken shape.now.kinds.now start [] [] writer.old → result ≡ Err variant.Long → FitInBlocks shape.now.kinds.now start (tuples_at shape.now groups.now refs.now) → ⊥ }
{
    for group in refs {
        push_group(writer, out, groups, *group, shape)?;
    }
    Ok(())
}

/// Takes a group of a map into a file.
fn push_group(
    writer: &mut BodyWriter,
    out: &mut Vec<u8>,
    groups: &Groups,
    group: GroupRef<'_>,
    shape: &Shape<'_>,
) -> Result<(), WriteError>
    requires shape { IsShape shape.now }
    requires place { group.at < length groups.now }
    ensures taken { (start : ℕ) (tuples : List Group) (written : List ℕ) → HasTaken shape.now.kinds.now start tuples written writer.old
        → OnOk result (Goes shape.now.kinds.now start (tuples ++ tuple_of shape.now (group_of groups.now group.entry) ∷ []) written out.old.items out.new.items writer.new) }
    ensures long { (start : ℕ) (tuples : List Group) (written : List ℕ) → HasTaken shape.now.kinds.now start tuples written writer.old → result ≡ Err variant.Long
        → FitInBlocks shape.now.kinds.now start (tuples ++ tuple_of shape.now (group_of groups.now group.entry) ∷ []) → ⊥ }
{
    let state = groups.state(group.at);
    let found = lane_slots(shape.lanes, shape.items, &state.slots);
    let slots = &found[..shape.lanes.len()];
    writer.push(out, shape.kinds, group.key, state.rows, slots)
}
