//! The groups of one file, added to those of other files.
//!
//! The blocks were read before, so each group is one that rows can give. Here its key has to come after that of the group before,
//! and to lie within the file's range; then its state is added under its key, if the sum keeps that key.

ghost use Rattle.std.specs.Prelude.{◌≡◌, ◌<◌, ◌≤◌, ◌+◌, ◌^◌, ◌++◌, ◌∷◌, [], ℕ, List, All, IfOk, MatchResult, OnOk, length, map as map_list, take};
ghost use Rattle.par_model.specs.declared.refusal.TheConstants.{LONGEST_KEY};
ghost use Rattle.partial_agg.specs.Groups.{GroupsByKey};
ghost use Rattle.state_blocks.specs.Blocks.{Group, IsBlock, IsTuple, block_bytes, blocks_bytes, tuple_bytes};
ghost use Rattle.state_body.specs.Body.{groups_of};
ghost use Rattle.state_head.specs.Words.{Keys};
ghost use Rattle.state_lanes.specs.Lanes.{item_slots};
ghost use Rattle.state_order.specs.Order.{HasKeys, IsNoNext};
ghost use Rattle.state_whole.specs.Adding.{CannotAdd, HasAdded, IsNoKey, IsNoMore, IsShape, kept_with, key_of};

use crate::rows::larger;
use par_model::{AggState, Item, NO_VALUES};
use partial_agg::GroupMap;
use state_blocks::split_block;
use state_groups::read_group;
use state_head::KeyRange;
use state_lanes::{Lane, item_slots};
use state_order::{KeyOrder, OrderFault, is_within};
use std::alloc::AllocError;

/// What the tuples of a file are of: keys of this many columns, and a slot for each lane of these aggregates. `kinds` says which lanes
/// have numbers.
#[derive(Clone, Copy)]
pub struct Shape<'a> {
    pub columns: u32,
    pub lanes: &'a [Lane],
    pub kinds: &'a [bool],
    pub items: &'a [Item],
}

/// Why the groups of a file are not added: memory ran out; the group of this number, counting from 1, is none, is out of order, or is
/// out of the file's range.
#[derive(Clone, Copy, Debug, PartialEq, Eq)]
pub enum GroupFault {
    Memory,
    NoGroup { number: u64 },
    Order { number: u64 },
    Range { number: u64 },
}

/// Which groups a sum keeps of those that files have: those whose keys, of this many columns, lie within this range.
#[derive(Clone, Copy)]
pub struct Kept<'a> {
    pub columns: u32,
    pub range: KeyRange<'a>,
}

/// How many groups of a file came so far, and the most rows that one of them has.
#[derive(Clone, Copy)]
pub(crate) struct FileCount {
    pub(crate) groups: u64,
    pub(crate) most: u64,
}

/// Adds the groups of the blocks of a file, which were read before.
pub(crate) fn add_blocks<'a>(
    map: &mut GroupMap,
    order: &mut KeyOrder<'a>,
    count: &mut FileCount,
    blocks: &'a [u8],
    shape: &Shape<'_>,
    kept: Kept<'_>,
) -> Result<(), GroupFault>
    requires shape { IsShape shape.now }
    requires few { count.old.groups + length blocks.now < 2 ^ 64 }
    ensures { (start : GroupsByKey) (range : Keys) (groups : List Group) (bs : List (List Group)) → HasAdded shape.now kept.entry range start groups map.old order.old count.old → All (IsBlock shape.now.columns shape.now.kinds.now) bs
        → blocks.now ≡ blocks_bytes shape.now.kinds.now bs
        → MatchResult result (λ done. HasAdded shape.now kept.entry range start (groups ++ groups_of bs) map.new order.new count.new) (CannotAdd shape.now range (groups ++ groups_of bs)) }
{
    let mut rest = blocks;
    for _ in 0..blocks.len() {
        if rest.is_empty() {
            return Ok(());
        }
        let number = count.groups + 1;
        let Some((part, after)) = split_block(rest) else {
            return Err(GroupFault::NoGroup { number });
        };
        add_block(map, order, count, part, shape, kept)?;
        rest = after;
    }
    Ok(())
}

/// Adds the groups of a block.
fn add_block<'a>(
    map: &mut GroupMap,
    order: &mut KeyOrder<'a>,
    count: &mut FileCount,
    part: &'a [u8],
    shape: &Shape<'_>,
    kept: Kept<'_>,
) -> Result<(), GroupFault>
    requires shape { IsShape shape.now }
    requires few { count.old.groups + length part.now < 2 ^ 64 }
    ensures added { (start : GroupsByKey) (range : Keys) (groups : List Group) (block : List Group) → HasAdded shape.now kept.entry range start groups map.old order.old count.old → All (IsTuple shape.now.columns shape.now.kinds.now) block
        → part.now ≡ block_bytes shape.now.kinds.now block
        → MatchResult result (λ done. HasAdded shape.now kept.entry range start (groups ++ block) map.new order.new count.new) (CannotAdd shape.now range (groups ++ block)) }
    ensures few { count.new.groups ≤ count.old.groups + length part.now }
{
    let mut rest = part;
    for _ in 0..part.len() {
        if rest.is_empty() {
            return Ok(());
        }
        rest = add_group(map, order, count, rest, shape, kept)?;
    }
    Ok(())
}

/// Adds the group that some bytes begin with. The bytes after it.
fn add_group<'a>(
    map: &mut GroupMap,
    order: &mut KeyOrder<'a>,
    count: &mut FileCount,
    bytes: &'a [u8],
    shape: &Shape<'_>,
    kept: Kept<'_>,
) -> Result<&'a [u8], GroupFault>
    requires shape { IsShape shape.now }
    requires few { count.old.groups + 1 < 2 ^ 64 }
    ensures added { (start : GroupsByKey) (range : Keys) (groups : List Group) (g : Group) (rest : List ℕ) → HasAdded shape.now kept.entry range start groups map.old order.old count.old → IsTuple shape.now.columns shape.now.kinds.now g
        → bytes.now ≡ tuple_bytes shape.now.kinds.now g ++ rest
        → MatchResult result (λ after. (after.now ≡ rest) × HasAdded shape.now kept.entry range start (groups ++ g ∷ []) map.new order.new count.new) (IsNoMore shape.now range groups g) }
    ensures few { count.new.groups ≤ count.old.groups + 1 }
    ensures shorter { IfOk result (λ after. length after.now < length bytes.now) }
{
    let mut state = AggState {
        rows: 0,
        slots: [NO_VALUES; 8],
    };
    let number = count.groups + 1;
    let Some((key, rest)) = read_group(bytes, shape.columns, shape.kinds, &mut state) else {
        return Err(GroupFault::NoGroup { number });
    };
    next_key(order, key, number)?;
    match keep(map, key, &state, shape, kept) {
        Ok(()) => {}
        Err(AllocError) => return Err(GroupFault::Memory),
    }
    count.groups = number;
    count.most = larger(count.most, state.rows);
    Ok(rest)
}

/// Adds a group to those of a map, if it is one that is kept. Its rows, and a slot for each lane, are those that were read.
fn keep(
    map: &mut GroupMap,
    key: &[u8],
    read: &AggState,
    shape: &Shape<'_>,
    kept: Kept<'_>,
) -> Result<(), AllocError>
    requires shape { IsShape shape.now }
    requires key { length key.now ≤ LONGEST_KEY }
    ensures { OnOk result (map.new ≡ kept_with kept.entry map.old key.now
        (record { rows = read.now.rows; slots = item_slots shape.now.lanes.now (take (length shape.now.kinds.now) read.now.slots) shape.now.items.now })) }
{
    if !is_within(kept.range, key, kept.columns) {
        return Ok(());
    }
    let rows = read.rows;
    let slots = item_slots(shape.lanes, &read.slots[..shape.kinds.len()], shape.items);
    map.add_bytes(key, &AggState { rows, slots })
}

/// Takes the key of the group of this number.
fn next_key<'a>(order: &mut KeyOrder<'a>, key: &'a [u8], number: u64) -> Result<(), GroupFault>
    ensures { (columns : ℕ) (range : Keys) (keys : List (List ℕ)) → HasKeys columns range keys order.old
        → MatchResult result (λ done. HasKeys columns range (keys ++ key.now ∷ []) order.new) (IsNoKey columns range keys key.now number) }
{
    match order.take(key) {
        Ok(()) => Ok(()),
        Err(OrderFault::Order) => Err(GroupFault::Order { number }),
        Err(OrderFault::Range) => Err(GroupFault::Range { number }),
    }
}
