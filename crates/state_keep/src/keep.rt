//! The groups of a file whose keys lie in a range, in a map.
//!
//! The blocks were read before, and their keys are in order. So a block that begins after the range, or before which the next one begins,
//! has no group of it and is passed over.

ghost use Rattle.std.specs.Prelude.{◌≡◌, ◌<◌, ◌≤◌, ◌++◌, ◌∷◌, List, ℕ, All, IfOk, MatchResult, OnOk, length, map as map_list, take};
ghost use Rattle.par_model.specs.declared.refusal.TheConstants.{LONGEST_KEY};
ghost use Rattle.state_blocks.specs.Blocks.{Group, IsBlock, IsTuple, block_bytes, blocks_bytes, tuple_bytes};
ghost use Rattle.state_body.specs.Body.{groups_of};
ghost use Rattle.state_file.specs.Section.{section};
ghost use Rattle.state_keep.specs.declared.keep.KeepFault.TheVariants as fault;
ghost use Rattle.state_lanes.specs.Lanes.{item_slots};
ghost use Rattle.state_order.specs.Order.{Rise};
ghost use Rattle.state_whole.specs.Adding.{IsShape, kept_sum, kept_with, key_of, state_of};

use crate::pass::is_passed;
use par_model::{AggState, NO_VALUES};
use partial_agg::GroupMap;
use state_blocks::split_block;
use state_groups::read_group;
use state_lanes::item_slots;
use state_order::is_within;
use state_whole::{Kept, Shape};
use std::alloc::AllocError;

/// Why a map is not filled: memory ran out, or the bytes are no blocks of a file.
#[derive(Clone, Copy, Debug, PartialEq, Eq)]
pub enum KeepFault {
    Memory,
    NoBlocks,
}

/// Adds to a map those groups of the blocks of a file that are kept. The blocks were read before, and their keys are in order. A block
/// without keys of the range costs a look at its first key. After an error the map is of no use.
pub fn keep_blocks(
    map: &mut GroupMap,
    blocks: &[u8],
    shape: &Shape<'_>,
    kept: Kept<'_>,
) -> Result<(), KeepFault>
    requires { IsShape shape.now }
    ensures { (bs : List (List Group)) → All (IsBlock shape.now.columns shape.now.kinds.now) bs → Rise kept.entry.columns (map_list key_of (groups_of bs)) → blocks.now ≡ blocks_bytes shape.now.kinds.now bs
        → MatchResult result (λ done. map.new ≡ kept_sum shape.now kept.entry map.old (groups_of bs)) (λ why. why ≡ fault.Memory) }
{
    let mut rest = blocks;
    for _ in 0..blocks.len() {
        if rest.is_empty() {
            return Ok(());
        }
        rest = keep_first(map, rest, shape, kept)?;
    }
    Ok(())
}

/// Adds those groups of the first block that are kept. The bytes after it.
fn keep_first<'a>(
    map: &mut GroupMap,
    blocks: &'a [u8],
    shape: &Shape<'_>,
    kept: Kept<'_>,
) -> Result<&'a [u8], KeepFault>
    requires { IsShape shape.now }
    ensures kept { (block : List Group) (later : List (List Group)) → IsBlock shape.now.columns shape.now.kinds.now block → All (IsBlock shape.now.columns shape.now.kinds.now) later
        → Rise kept.entry.columns (map_list key_of (groups_of (block ∷ later))) → blocks.now ≡ section (block_bytes shape.now.kinds.now block) ++ blocks_bytes shape.now.kinds.now later
        → MatchResult result (λ after. (after.now ≡ blocks_bytes shape.now.kinds.now later) × (map.new ≡ kept_sum shape.now kept.entry map.old block)) (λ why. why ≡ fault.Memory) }
    ensures shorter { IfOk result (λ after. length after.now < length blocks.now) }
{
    let Some((part, after)) = split_block(blocks) else {
        return Err(KeepFault::NoBlocks);
    };
    if is_passed(part, after, shape, kept) {
        return Ok(after);
    }
    keep_block(map, part, shape, kept)?;
    Ok(after)
}

/// Adds those groups of a block that are kept.
fn keep_block(
    map: &mut GroupMap,
    part: &[u8],
    shape: &Shape<'_>,
    kept: Kept<'_>,
) -> Result<(), KeepFault>
    requires { IsShape shape.now }
    ensures { (block : List Group) → All (IsTuple shape.now.columns shape.now.kinds.now) block → part.now ≡ block_bytes shape.now.kinds.now block
        → MatchResult result (λ done. map.new ≡ kept_sum shape.now kept.entry map.old block) (λ why. why ≡ fault.Memory) }
{
    let mut rest = part;
    for _ in 0..part.len() {
        if rest.is_empty() {
            return Ok(());
        }
        rest = keep_group(map, rest, shape, kept)?;
    }
    Ok(())
}

/// Adds the group that some bytes begin with, if it is kept. The bytes after it.
fn keep_group<'a>(
    map: &mut GroupMap,
    bytes: &'a [u8],
    shape: &Shape<'_>,
    kept: Kept<'_>,
) -> Result<&'a [u8], KeepFault>
    requires { IsShape shape.now }
    ensures kept { (g : Group) (rest : List ℕ) → IsTuple shape.now.columns shape.now.kinds.now g → bytes.now ≡ tuple_bytes shape.now.kinds.now g ++ rest
        → MatchResult result (λ after. (after.now ≡ rest) × (map.new ≡ kept_with kept.entry map.old g.key (state_of shape.now g))) (λ why. why ≡ fault.Memory) }
    ensures shorter { IfOk result (λ after. length after.now < length bytes.now) }
{
    let mut state = AggState {
        rows: 0,
        slots: [NO_VALUES; 8],
    };
    let Some((key, rest)) = read_group(bytes, shape.columns, shape.kinds, &mut state) else {
        return Err(KeepFault::NoBlocks);
    };
    match keep(map, key, &state, shape, kept) {
        Ok(()) => Ok(rest),
        Err(AllocError) => Err(KeepFault::Memory),
    }
}

/// Adds a group to those of a map, if it is one that is kept. Its rows, and a slot for each lane, are those that were read.
fn keep(
    map: &mut GroupMap,
    key: &[u8],
    read: &AggState,
    shape: &Shape<'_>,
    kept: Kept<'_>,
) -> Result<(), AllocError>
    requires shape { IsShape shape.now }
    requires key { length key.now ≤ LONGEST_KEY }
    ensures { OnOk result (map.new ≡ kept_with kept.entry map.old key.now
        (record { rows = read.now.rows; slots = item_slots shape.now.lanes.now (take (length shape.now.kinds.now) read.now.slots) shape.now.items.now })) }
{
    if !is_within(kept.range, key, kept.columns) {
        return Ok(());
    }
    let rows = read.rows;
    let slots = item_slots(shape.lanes, &read.slots[..shape.kinds.len()], shape.items);
    map.add_bytes(key, &AggState { rows, slots })
}
