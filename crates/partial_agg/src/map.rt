//! The map from the keys of groups to their aggregates, and the list that it ends as.
//!
//! It has three parts. `keys` finds the place of a key by its hash; `states` has the state of each key, one after the
//! other in the order in which the keys came; `left` has the places of the groups that are in the map, and is put in
//! the order of their keys, the greatest first, when the first group is asked for. So a row of a group that is there
//! costs one look-up and changes its state in place, and the order is made once. Rows of groups that are there are added
//! in runs (`run`); the row at which a run ends is then added by itself.
//!
//! `take_first` takes the last place out of `left`, and leaves the key and its state where they are, until no place is
//! left. A key that comes again after that gets its old place back. While no key was taken, each key that is found is
//! in the map.

ghost use Rattle.std.specs.Prelude.{◌≡◌, ◌<◌, ◌≤◌, ◌+◌, ◌*◌, ◌^◌, ◌∷◌, ◌++◌, ◌↔◌, [], ℕ, List, Contains, IsTrue, true, false, IfOk, IfErr, IfSome, IfNone, Ok, OnOk, OnErr, None, Some, All, drop, get_or, length, map as map_list, reverse, set, take};
ghost use Rattle.std.specs.FinMap as map;
ghost use Rattle.std.specs.List.{position_from};
ghost use Rattle.std.specs.List.Sorted.{IsPermutation, IsSorted};
ghost use Rattle.key_index.specs.Index.{hash as key_hash};
ghost use Rattle.key_index.specs.Keys.{key_at, key_cmp};
ghost use Rattle.csv_rows.specs.Records.{record_at};
ghost use Rattle.par_model.specs.Plan.{Plan};
ghost use Rattle.par_model.specs.Columns.{HasColumns};
ghost use Rattle.par_model.specs.declared.refusal.TheConstants.{LONGEST_KEY};
ghost use Rattle.partial_agg.specs.Blocks.{AddedFirst, ExplainsRow, Stopped};
ghost use Rattle.partial_agg.specs.Cursor.{AddedSome, SomeRefused};
ghost use Rattle.partial_agg.specs.Groups.{AreGroups, GroupsByKey, added, with_rows};
ghost use Rattle.partial_agg.specs.Listed.{listed};
ghost use Rattle.par_model.specs.Refuse.{is_unreadable};
ghost use Rattle.partial_agg.specs.Items.{items_state};
ghost use Rattle.partial_agg.specs.State.{combined, empty_state};
ghost use Rattle.partial_agg.specs.Values.{value_of, values_state};
ghost use Rattle.partial_agg.specs.Status.{AreHashed, IsHashOf, IsKeptBy};
ghost use Rattle.partial_agg.specs.Rows.{IsAccepted, header_width};
ghost use Rattle.row_blocks.specs.Blocks.{block_rows};

use crate::ahead::{Clue, Clues, NO_GUESS, are_far, clue_at, clue_or_hash, look_ahead};
use crate::fields::{RowCursor, RowFields};
use crate::groups::Groups;
use crate::key::GroupKey;
use crate::lent::LentGroups;
use crate::row::{RowBuffer, RowStatus, read_values};
use crate::state::one_row;
use crate::states::StateList;
use csv_rows::{NearRows, RowStore};
use key_index::{KeyTable, hash_of};
use par_model::{AggState, BoundPlan, ITEM_CAUSE};
use row_blocks::BLOCK_ROWS;
use std::alloc::{AllocError, Global};
use std::marker::Model;

/// A map from keys to states, in the order of the keys' bytes.
#[derive(Drop)]
pub struct GroupMap {
    /// Each key that came, with its place, even if its group was taken.
    keys: KeyTable,
    /// The state of the key at each place.
    states: StateList,
    /// The places of the groups that are in the map.
    left: Vec<usize>,
    /// That no group was taken, so that each place is left.
    whole: bool,
    /// That `left` is in the order of the keys, the greatest first.
    sorted: bool,
    alloc: Global,
}

impl Model for GroupMap {
    ghost use Rattle.std.specs.Prelude.{length, reverse};
    ghost use Rattle.partial_agg.specs.Groups.{GroupsByKey, groups_code};

    ghost Value = { GroupsByKey };

    ghost coded = { groups_code };

    ghost use Rattle.partial_agg.specs.Placed.{IsGrouped, groups_at, places_of};

    ghost view = { λ m. groups_at (places_of m.keys (reverse m.left.items)) m.states };

    ghost invariant = { λ m. IsGrouped m.keys (length m.states) (reverse m.left.items) m.whole m.sorted };
}

/// Why a block was not added whole: its first refused row, or no memory.
#[derive(Debug, Drop)]
pub enum BlockAnswer {
    Row { row: u64, cause: u8, item: u32 },
    Memory,
}

impl GroupMap {
    /// A map of no groups. Takes no memory.
    pub fn new(alloc: Global) -> GroupMap
        ensures empty { result ≡ map.empty }
        ensures groups { (plan : Plan) → AreGroups plan [] result }
    {
        GroupMap {
            keys: KeyTable::new(alloc),
            states: StateList::new(alloc),
            left: Vec::new(alloc),
            whole: true,
            sorted: true,
            alloc,
        }
    }

    /// The number of groups.
    pub fn len(&self) -> usize
        ensures { result ≡ map.len self.now }
    {
        self.left.len()
    }

    /// Adds a state under a key: to the state that the key has, if it has one. The time is that of a look-up.
    pub fn add(&mut self, key: GroupKey, state: &AggState) -> Result<(), AllocError>
        ensures ok { OnOk result (self.new ≡ added self.old key state.now) }
        ensures err { OnErr result (self.new ≡ self.old) }
    {
        let key = key.bytes();
        self.add_state(hash_of(key), key, state)
    }

    /// Adds a state under the key of these bytes, which are copied only if the key is new.
    pub fn add_bytes(&mut self, key: &[u8], state: &AggState) -> Result<(), AllocError>
        requires { length key.now ≤ LONGEST_KEY }
        ensures ok { OnOk result (self.new ≡ added self.old key.now state.now) }
        ensures err { OnErr result (self.new ≡ self.old) }
    {
        self.add_state(hash_of(key), key, state)
    }

    /// Adds a row by its key and the values that its aggregates take, in their order. The time is that of a look-up.
    pub fn add_values(&mut self, key: &[u8], values: &[Option<i64>]) -> Result<(), AllocError>
        requires short { length key.now ≤ LONGEST_KEY }
        requires few { length values.now ≤ 8 }
        ensures ok { OnOk result (self.new ≡ added self.old key.now (values_state values.now)) }
        ensures err { OnErr result (self.new ≡ self.old) }
    {
        let hash = hash_of(key);
        match self.keys.find_hashed(hash, NO_GUESS, key) {
            Some(place) if self.whole => self.states.add_values(place, values),
            Some(_left_out) => self.add_state(hash, key, &one_row(values)),
            None => {
                let place = self.states.len();
                self.left.reserve(1)?;
                self.states.push_values(values)?;
                match self.keys.push_hashed(self.alloc, hash, key) {
                    Ok(()) => {}
                    Err(AllocError) => {
                        self.states.truncate(place);
                        return Err(AllocError);
                    }
                }
                self.left.push_reserved(place);
                self.sorted = false;
                Ok(())
            }
        }
    }

    /// The groups where they lie, in an order that isn't specified. Takes no memory.
    pub fn lent(&self) -> LentGroups<'_>
        ensures groups { IsPermutation (listed self.now) result }
        ensures whole { All (λ group. length group.state.slots ≡ 8) result }
    {
        self.states.are_whole();
        LentGroups::of_parts(&self.keys, &self.states, self.left.as_slice())
    }

    /// Takes all groups out of the map. Their memory stays, for the groups that come next.
    pub fn clear(&mut self)
        ensures { self.new ≡ map.empty }
    {
        self.keys.clear();
        self.states.truncate(0);
        self.left.clear();
        self.whole = true;
        self.sorted = true;
    }

    /// Takes the group with the least key out of the map.
    pub fn take_first(&mut self) -> Option<(GroupKey, AggState)>
        ensures first { IfSome result (λ group. map.entries self.old ≡ group ∷ map.entries self.new) }
        ensures none { IfNone result (self.old ≡ map.empty) }
        ensures unchanged { IfNone result (self.new ≡ self.old) }
    {
        put_in_order(&self.keys, &mut self.left, self.sorted);
        self.sorted = true;
        let Some(place) = self.left.pop() else {
            return None;
        };
        self.whole = false;
        let group = (
            GroupKey::copy_of(self.keys.get(place)),
            self.states.get(place),
        );
        if self.left.is_empty() {
            *self = GroupMap::new(self.alloc);
        }
        Some(group)
    }

    /// The groups in the order of their keys, where they lie. Takes no memory and copies no group.
    pub fn into_groups(self) -> Groups
        ensures { result ≡ listed self }
    {
        let GroupMap {
            keys,
            states,
            mut left,
            sorted,
            ..
        } = self;
        put_in_order(&keys, &mut left, sorted);
        left.reverse();
        Groups::of_parts(keys, states, left)
    }

    /// Adds the rows of a block in order, but for those that the filter leaves out. It stops at the first refused row
    /// of the block, after it has added the rows before that one; if memory runs out it stops at a row that it doesn't
    /// name, and the map can then only be dropped. Each row is read once; the time for it is that of a look-up.
    pub fn add_block(
        &mut self,
        rows: &RowStore,
        plan: &BoundPlan,
        block: u64,
    ) -> Result<(), BlockAnswer>
        requires block { BLOCK_ROWS * block + 1 < length rows.now }
        requires columns { HasColumns plan.now (header_width rows.now) }
        ensures added { OnOk result (self.new ≡ with_rows plan.now self.old (block_rows rows.now block)) }
        ensures accepted { OnOk result (All (IsAccepted plan.now (header_width rows.now)) (block_rows rows.now block)) }

        // From the map of other rows it makes the map of those and the block's rows.
        ensures groups { OnOk result ((xs : List (List (List ℕ))) → All (IsAccepted plan.now (header_width rows.now)) xs → length xs + 256 < 2 ^ 64
            → AreGroups plan.now xs self.old → AreGroups plan.now (xs ++ block_rows rows.now block) self.new) }

        // Where it stopped, and what it added before that.
        ensures stopped { IfErr result (Stopped plan.now rows.now block self.old self.new) }
    {
        let last = rows.count();
        let first = BLOCK_ROWS * block + 1;
        let count = (last - first + 1).min(BLOCK_ROWS);
        let near = rows.near(first);
        let width = rows.width(0);
        let clues = self.look_ahead(&near, first, count, width, plan);
        let mut buffer = RowBuffer::new();
        let mut at = self.add_near(&mut buffer, &near, block, 0, count, width, plan);
        'rows: while at < count {
            let number = first + at;
            let clue = clue_at(&clues, at);
            match self.add_read(&mut buffer, clue, number, &near.find(number), width, plan) {
                Ok(()) => {}
                Err(answer) => return Err(answer),
            }
            at = self.add_near(&mut buffer, &near, block, at + 1, count, width, plan);
        }
        Ok(())
    }

    /// Adds the rows that a cursor has left, but for those that the filters leave out, and gives their number. The width
    /// is that of the table's header. Each row is read once; the time for it is that of a look-up. An answer that names
    /// a row names row 1, since a cursor does not count. After an `Err` the map can only be dropped.
    pub fn add_left<C: RowCursor>(
        &mut self,
        cursor: &mut C,
        width: u32,
        plan: &BoundPlan,
    ) -> Result<u64, BlockAnswer>
        requires widest { width ≤ C.widest }
        requires few { length (C.left cursor.old) < 2 ^ 64 }
        requires columns { HasColumns plan.now width }
        ensures added { OnOk result (self.new ≡ with_rows plan.now self.old (C.left cursor.old)) }
        ensures accepted { OnOk result (All (IsAccepted plan.now width) (C.left cursor.old)) }
        ensures count { IfOk result (λ count. count ≡ length (C.left cursor.old)) }
        ensures refused { IfErr result (SomeRefused plan.now width (C.left cursor.old)) }
    {
        let mut buffer = RowBuffer::new();
        let mut count = 0;
        'rows: while self.add_next(&mut buffer, cursor, &mut count, width, plan)? {
            self.fit_at(count, plan);
            self.add_fields(&mut buffer, cursor, width, plan)?;
            count += 1;
        }
        Ok(count)
    }

    /// Adds a row, if the filters don't leave it out. The width is that of the header of its table. An answer that names
    /// it names it as row 1. The row is read once; the time is that of a look-up.
    #[inline(always)]
    pub fn add_fields<F: RowFields>(
        &mut self,
        buffer: &mut RowBuffer,
        row: &F,
        width: u32,
        plan: &BoundPlan,
    ) -> Result<(), BlockAnswer>
        requires columns { HasColumns plan.now width }
        ensures added { OnOk result (self.new ≡ with_rows plan.now self.old (F.fields row.now ∷ [])) }
        ensures accepted { OnOk result (IsAccepted plan.now width (F.fields row.now)) }
        ensures stopped { IfErr result (ExplainsRow plan.now width (F.fields row.now) 1) }
        ensures err { OnErr result (self.new ≡ self.old) }
    {
        self.add_read(buffer, None, 1, row, width, plan)
    }

    /// Finds whether the states fit the plan's rows, if 256 rows were added since it was found, or none.
    fn fit_at(&mut self, count: u64, plan: &BoundPlan)
        ensures { self.new ≡ self.old }
    {
        if count % BLOCK_ROWS == 0 {
            self.states.fit(plan.items());
        }
    }

    /// Adds rows of a block from a place on, as long as they are of groups that are there and near, and gives the place
    /// of the first that it doesn't add.
    fn add_near(
        &mut self,
        buffer: &mut RowBuffer,
        rows: &NearRows<'_>,
        block: u64,
        from: u64,
        count: u64,
        width: u32,
        plan: &BoundPlan,
    ) -> u64
        requires order { from ≤ count }
        requires few { count ≤ 256 }
        requires rows { 256 * block + 1 + count ≤ length rows.now }
        requires fits { 256 * block + 1 + count < 2 ^ 64 }
        requires width { width ≡ header_width rows.now }
        requires columns { HasColumns plan.now width }
        ensures from { from ≤ result }
        ensures within { result ≤ count }
        ensures added { (start : GroupsByKey) → AddedFirst plan.now rows.now block from start self.old → AddedFirst plan.now rows.now block result start self.new }
    {
        if !self.whole || are_far(&self.keys) {
            return from;
        }
        self.states
            .add_near(&self.keys, buffer, rows, block, from, count, width, plan)
    }

    /// Adds rows that a cursor has left, as long as they are of groups that are there, and counts them. Returns whether
    /// it stopped at a row, which is the cursor's and is not added.
    #[inline(always)]
    fn add_next<C: RowCursor>(
        &mut self,
        buffer: &mut RowBuffer,
        cursor: &mut C,
        count: &mut u64,
        width: u32,
        plan: &BoundPlan,
    ) -> Result<bool, BlockAnswer>
        requires widest { width ≤ C.widest }
        requires few { count.old + length (C.left cursor.old) < 2 ^ 64 }
        requires columns { HasColumns plan.now width }
        ensures rises { count.old ≤ count.new }
        ensures few { result ≡ Ok true → count.new + (1 + length (C.left cursor.new)) ≡ count.old + length (C.left cursor.old) }
        ensures stopped { result ≡ Ok true → (start : GroupsByKey) (all : List (List (List ℕ))) → AddedSome plan.now width all count.old (C.left cursor.old) start self.old
            → AddedSome plan.now width all count.new (C.fields cursor.new ∷ C.left cursor.new) start self.new }
        ensures ended { result ≡ Ok false → (start : GroupsByKey) (all : List (List (List ℕ))) → AddedSome plan.now width all count.old (C.left cursor.old) start self.old
            → AddedSome plan.now width all count.new [] start self.new }
        ensures refused { IfErr result (λ why. (all : List (List (List ℕ))) → C.left cursor.old ≡ drop count.old all → SomeRefused plan.now width all why) }
    {
        if !self.whole {
            return cursor.next_row(width);
        }
        self.states
            .add_next(&self.keys, buffer, cursor, count, width, plan)
    }

    /// Does what is done once for this many rows: the look-ahead, and finding whether the states fit the plan's rows.
    fn look_ahead(
        &mut self,
        rows: &NearRows<'_>,
        first: u64,
        count: u64,
        width: u32,
        plan: &BoundPlan,
    ) -> Option<Clues>
        requires rows { first + count ≤ length rows.now }
        requires fits { first + count < 2 ^ 64 }
        requires few { count ≤ 256 }
        requires columns { HasColumns plan.now width }
        ensures same { self.new ≡ self.old }
        ensures hashed { IfSome result (λ clues. AreHashed plan.now width rows.now first count clues.hashes) }
    {
        self.states.fit(plan.items());
        look_ahead(&self.keys, &self.states, rows, first, count, width, plan)
    }

    /// Reads a row, to whose key there may be a clue, and adds it if it is kept.
    fn add_read<F: RowFields>(
        &mut self,
        buffer: &mut RowBuffer,
        clue: Option<Clue>,
        number: u64,
        row: &F,
        width: u32,
        plan: &BoundPlan,
    ) -> Result<(), BlockAnswer>
        requires columns { HasColumns plan.now width }
        requires hashed { IfSome clue (λ clue. IsHashOf plan.now width (F.fields row.now) clue.hash) }
        ensures added { OnOk result (self.new ≡ with_rows plan.now self.old (F.fields row.now ∷ [])) }
        ensures accepted { OnOk result (IsAccepted plan.now width (F.fields row.now)) }
        ensures stopped { IfErr result (ExplainsRow plan.now width (F.fields row.now) number) }
        ensures err { OnErr result (self.new ≡ self.old) }
    {
        match buffer.read_key(row, width, plan) {
            RowStatus::Refused(refusal) => Err(BlockAnswer::Row {
                row: number,
                cause: refusal.cause,
                item: refusal.item,
            }),
            RowStatus::LeftOut => Ok(()),
            RowStatus::Kept => {
                let clue = clue_or_hash(clue, buffer.key.bytes());
                self.add_kept(buffer, clue, number, row, width, plan)
            }
        }
    }

    /// Adds a row whose key is read and hashed. A row of a group that is there is mostly read only as far as the lanes
    /// of its state need.
    fn add_kept<F: RowFields>(
        &mut self,
        buffer: &mut RowBuffer,
        clue: Clue,
        number: u64,
        row: &F,
        width: u32,
        plan: &BoundPlan,
    ) -> Result<(), BlockAnswer>
        requires columns { HasColumns plan.now width }
        requires kept { IsKeptBy plan.now width (F.fields row.now) buffer.old.key }
        requires hashed { clue.hash ≡ key_hash buffer.old.key }
        ensures added { OnOk result (self.new ≡ with_rows plan.now self.old (F.fields row.now ∷ [])) }
        ensures accepted { OnOk result (IsAccepted plan.now width (F.fields row.now)) }
        ensures stopped { IfErr result (ExplainsRow plan.now width (F.fields row.now) number) }
        ensures err { OnErr result (self.new ≡ self.old) }
    {
        match self
            .keys
            .find_hashed(clue.hash, clue.guess, buffer.key.bytes())
        {
            Some(place) if self.whole => {
                add_to_known(&mut self.states, place, buffer, number, row, width, plan)
            }
            _ => self.add_other(buffer, clue.hash, number, row, width, plan),
        }
    }

    /// Adds a row, whose key is read and hashed, of a group that may not be there.
    fn add_other<F: RowFields>(
        &mut self,
        buffer: &mut RowBuffer,
        hash: u64,
        number: u64,
        row: &F,
        width: u32,
        plan: &BoundPlan,
    ) -> Result<(), BlockAnswer>
        requires columns { HasColumns plan.now width }
        requires kept { IsKeptBy plan.now width (F.fields row.now) buffer.old.key }
        requires hashed { hash ≡ key_hash buffer.old.key }
        ensures added { OnOk result (self.new ≡ with_rows plan.now self.old (F.fields row.now ∷ [])) }
        ensures accepted { OnOk result (IsAccepted plan.now width (F.fields row.now)) }
        ensures stopped { IfErr result (ExplainsRow plan.now width (F.fields row.now) number) }
        ensures err { OnErr result (self.new ≡ self.old) }
    {
        match read_kept(buffer, number, row, width, plan) {
            Ok(()) => {}
            Err(answer) => return Err(answer),
        }
        let state = one_row(&buffer.values[..plan.items().len()]);
        match self.add_state(hash, buffer.key.bytes(), &state) {
            Ok(()) => Ok(()),
            Err(AllocError) => Err(BlockAnswer::Memory),
        }
    }

    /// Adds a state under a key.
    #[inline(never)]
    fn add_state(&mut self, hash: u64, key: &[u8], state: &AggState) -> Result<(), AllocError>
        requires short { length key.now ≤ LONGEST_KEY }
        requires hashed { hash ≡ key_hash key.now }
        ensures ok { OnOk result (self.new ≡ added self.old key.now state.now) }
        ensures err { OnErr result (self.new ≡ self.old) }
    {
        match self.keys.find_hashed(hash, NO_GUESS, key) {
            Some(place) => {
                if self.whole || is_left(self.left.as_slice(), place) {
                    self.states.combine(place, state)?;
                } else {
                    self.left.reserve(1)?;
                    self.states.put(place, state)?;
                    self.left.push_reserved(place);
                    self.sorted = false;
                }
                Ok(())
            }
            None => {
                let place = self.states.len();
                self.left.reserve(1)?;
                self.states.push(state)?;
                match self.keys.push_hashed(self.alloc, hash, key) {
                    Ok(()) => {}
                    Err(AllocError) => {
                        self.states.truncate(place);
                        return Err(AllocError);
                    }
                }
                self.left.push_reserved(place);
                self.sorted = false;
                Ok(())
            }
        }
    }
}

/// Reads the values of a row that is kept. A refusal names the row by this number.
fn read_kept<F: RowFields>(
    buffer: &mut RowBuffer,
    number: u64,
    row: &F,
    width: u32,
    plan: &BoundPlan,
) -> Result<(), BlockAnswer>
    requires columns { HasColumns plan.now width }
    requires kept { IsKeptBy plan.now width (F.fields row.now) buffer.old.key }
    ensures key { buffer.new.key ≡ buffer.old.key }
    ensures values { OnOk result (take (length plan.now.items) buffer.new.values ≡ map_list (value_of (F.fields row.now)) plan.now.items) }
    ensures readable { OnOk result (position_from (is_unreadable (F.fields row.now)) 0 plan.now.items ≡ None) }
    ensures stopped { IfErr result (ExplainsRow plan.now width (F.fields row.now) number) }
{
    match read_values(&mut buffer.values, row, plan.items()) {
        Ok(()) => Ok(()),
        Err(item) => Err(BlockAnswer::Row {
            row: number,
            cause: ITEM_CAUSE,
            item,
        }),
    }
}

/// Adds a row that is kept to the state at a place: mostly by the values of the state's lanes only, otherwise by those
/// of all aggregates.
fn add_to_known<F: RowFields>(
    states: &mut StateList,
    place: usize,
    buffer: &mut RowBuffer,
    number: u64,
    row: &F,
    width: u32,
    plan: &BoundPlan,
) -> Result<(), BlockAnswer>
    requires place { place < length states.old }
    requires columns { HasColumns plan.now width }
    requires kept { IsKeptBy plan.now width (F.fields row.now) buffer.old.key }
    ensures added { OnOk result (states.new ≡ set states.old place (combined (get_or states.old place empty_state) (items_state (F.fields row.now) plan.now.items))) }
    ensures readable { OnOk result (position_from (is_unreadable (F.fields row.now)) 0 plan.now.items ≡ None) }
    ensures stopped { IfErr result (ExplainsRow plan.now width (F.fields row.now) number) }
    ensures err { OnErr result (states.new ≡ states.old) }
{
    if states.add_row(place, row, plan.items()) {
        return Ok(());
    }
    match read_kept(buffer, number, row, width, plan) {
        Ok(()) => {}
        Err(answer) => return Err(answer),
    }
    match states.add_values(place, &buffer.values[..plan.items().len()]) {
        Ok(()) => Ok(()),
        Err(AllocError) => Err(BlockAnswer::Memory),
    }
}

fn is_left(left: &[usize], place: usize) -> bool
    ensures { IsTrue result ↔ Contains left.now place }
{
    left.contains(&place)
}

/// Puts places in the order of their keys, the greatest first, unless they are in it already.
fn put_in_order(keys: &KeyTable, left: &mut Vec<usize>, sorted: bool)
    ensures permutation { IsPermutation left.old.items left.new.items }
    ensures sorted { sorted ≡ false → IsSorted key_cmp (map_list (key_at keys.now) (reverse left.new.items)) }
    ensures unchanged { sorted ≡ true → left.new.items ≡ left.old.items }
{
    if !sorted {
        keys.sort(left);
        left.reverse();
    }
}
