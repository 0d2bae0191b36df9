//! The states of a map's groups, in as little memory as they need.
//!
//! A state has eight slots of 48 bytes, of which a plan seldom needs more than one or two (`Layout`). So a list of
//! states keeps the number of rows of each in one list and its lanes in another, all under one layout. A state that
//! doesn't fit the layout gets a finer one, and the lanes of all states are laid out anew. That happens when a slot
//! gets its first values or its first integers, or differs for the first time from another: a few dozen times to a list
//! at most, and mostly within its first rows. A layout that is chosen from the states themselves needs no plan, so the
//! states that a leader receives lie as those of its own rows.
//!
//! Whether the layout fits the rows of a plan, whatever their values, is found once for a block of rows (`fit`). A row
//! of such a plan is then added by only the columns of its lanes, and a run of rows with one test for all of them.

ghost use Rattle.std.specs.Prelude.{◌≡◌, ◌<◌, ◌≤◌, ◌+◌, ◌*◌, ◌^◌, ◌++◌, ◌∷◌, [], ℕ, All, Bool, IfErr, IfOk, IfSome, IsTrue, List, None, Ok, OnErr, OnOk, Some, drop, false, true, get_or, length, map, set, slice_get, take};
ghost use Rattle.std.specs.Bool.{OnFalse, OnTrue};
ghost use Rattle.std.specs.List.{position_from};
ghost use Rattle.par_model.specs.Columns.{HasColumns, reads_column};
ghost use Rattle.par_model.specs.Refuse.{is_unreadable};
ghost use Rattle.partial_agg.specs.Blocks.{AddedFirst};
ghost use Rattle.partial_agg.specs.Cursor.{AddedSome, SomeRefused};
ghost use Rattle.partial_agg.specs.Fitting.{FitsItems, IsFitted};
ghost use Rattle.partial_agg.specs.Groups.{GroupsByKey};
ghost use Rattle.partial_agg.specs.Items.{items_state};
ghost use Rattle.partial_agg.specs.Lanes.{Fits, IsWide, lanes_of, states_in, with_lanes};
ghost use Rattle.partial_agg.specs.Placed.{IsGrouped, groups_at, places_of};
ghost use Rattle.partial_agg.specs.Rows.{header_width};
ghost use Rattle.partial_agg.specs.State.{combined, combined_slots, empty_state};
ghost use Rattle.partial_agg.specs.Values.{slot_of_value, values_state};
ghost use Rattle.partial_agg.specs.declared.layout.Layout.{Layout};

use crate::fields::{RowCursor, RowFields};
use crate::layout::{Layout, value_at};
use crate::map::BlockAnswer;
use crate::row::RowBuffer;
use crate::run::{add_by_lanes, add_near, add_next};
use crate::state::{add_to_slot, combine_slots, one_row, slot_of};
use csv_rows::NearRows;
use key_index::KeyTable;
use par_model::{AggState, BoundPlan, Item, SlotState};
use std::alloc::{AllocError, Global};
use std::marker::Model;

/// A list of states.
#[derive(Drop)]
pub(crate) struct StateList {
    layout: Layout,
    /// Items of which the layout fits each row, if any are known.
    fitted: Option<Vec<Item>>,
    /// The number of rows of each state.
    rows: Vec<u64>,
    /// The lanes of the states, those of one after the other.
    lanes: Vec<SlotState>,
    alloc: Global,
}

impl Model for StateList {
    ghost use Rattle.std.specs.Prelude.{List};
    ghost use Rattle.par_model.specs.declared.state.AggState.{AggState};
    ghost use Rattle.partial_agg.specs.Fitting.{AreLaid};
    ghost use Rattle.partial_agg.specs.Lanes.{states_in};

    ghost Value = { List AggState };

    ghost view = { λ s. states_in s.layout s.rows.items s.lanes.items };

    ghost invariant = { λ s. AreLaid s.layout s.fitted s.rows.items s.lanes.items };
}

impl StateList {
    /// No states. Takes no memory.
    pub(crate) fn new(alloc: Global) -> StateList
        ensures { result ≡ [] }
    {
        StateList {
            layout: Layout::none(),
            fitted: None,
            rows: Vec::new(alloc),
            lanes: Vec::new(alloc),
            alloc,
        }
    }

    /// The number of states.
    pub(crate) fn len(&self) -> usize
        ensures { result ≡ length self.now }
    {
        self.rows.len()
    }

    /// Tells that each state has eight slots. It does nothing.
    pub(crate) fn are_whole(&self)
        ensures { All (λ state. length state.slots ≡ 8) self.now }
    {
        self.layout.has_all_parts();
    }

    /// The state at a place, as a copy.
    pub(crate) fn get(&self, at: usize) -> AggState
        requires { at < length self.now }
        ensures { slice_get self.now at ≡ Some result }
    {
        let width = self.layout.width();
        let lanes = lanes_at(&self.lanes, at * width, width);
        AggState {
            rows: self.rows[at],
            slots: self.layout.expand(lanes),
        }
    }

    /// Reads the state at a place: the number of its rows and this many slots. The other slots stay as they are.
    pub(crate) fn read(&self, at: usize, state: &mut AggState, count: usize)
        requires place { at < length self.now }
        requires few { count ≤ 8 }
        ensures rows { state.new.rows ≡ (get_or self.now at empty_state).rows }
        ensures front { take count state.new.slots ≡ take count (get_or self.now at empty_state).slots }
        ensures rest { drop count state.new.slots ≡ drop count state.old.slots }
    {
        let width = self.layout.width();
        let lanes = lanes_at(&self.lanes, at * width, width);
        state.rows = self.rows[at];
        self.layout.read(lanes, &mut state.slots, count);
    }

    /// Whether there is a state at this place in which nothing is counted. No row makes one.
    pub(crate) fn is_blank(&self, at: usize) -> bool {
        let lane = at.wrapping_mul(self.layout.width());
        at < self.rows.len()
            && lane < self.lanes.len()
            && self.rows[at].wrapping_add(self.lanes[lane].count) == 0
    }

    /// Puts a state after the others.
    pub(crate) fn push(&mut self, state: &AggState) -> Result<(), AllocError>
        ensures ok { OnOk result (self.new ≡ self.old ++ state.now ∷ []) }
        ensures err { OnErr result (self.new ≡ self.old) }
    {
        make_fit(
            self.alloc,
            &mut self.layout,
            &mut self.fitted,
            &self.rows,
            &mut self.lanes,
            &state.slots,
        )?;
        self.rows.reserve(1)?;
        let lanes = self.layout.lanes(&state.slots);
        self.lanes.extend_from_slice(&lanes[..self.layout.width()])?;
        self.rows.push_reserved(state.rows);
        Ok(())
    }

    /// Puts the state of one row that has these values after the others.
    pub(crate) fn push_values(&mut self, values: &[Option<i64>]) -> Result<(), AllocError>
        requires { length values.now ≤ 8 }
        ensures ok { OnOk result (self.new ≡ self.old ++ values_state values.now ∷ []) }
        ensures err { OnErr result (self.new ≡ self.old) }
    {
        if !self.layout.fits_values(values) {
            return self.push(&one_row(values));
        }
        self.rows.reserve(1)?;
        push_lanes(&mut self.lanes, self.layout.kept(), values)?;
        self.rows.push_reserved(1);
        Ok(())
    }

    /// Drops the states from a place on.
    pub(crate) fn truncate(&mut self, len: usize)
        requires { len ≤ length self.old }
        ensures { self.new ≡ take len self.old }
    {
        self.lanes.truncate(len * self.layout.width());
        self.rows.truncate(len);
    }

    /// Replaces a state by another.
    pub(crate) fn put(&mut self, at: usize, state: &AggState) -> Result<(), AllocError>
        requires { at < length self.old }
        ensures ok { OnOk result (self.new ≡ set self.old at state.now) }
        ensures err { OnErr result (self.new ≡ self.old) }
    {
        make_fit(
            self.alloc,
            &mut self.layout,
            &mut self.fitted,
            &self.rows,
            &mut self.lanes,
            &state.slots,
        )?;
        let width = self.layout.width();
        let lanes = self.layout.lanes(&state.slots);
        put_lanes(&mut self.lanes, at * width, &lanes[..width]);
        self.rows[at] = state.rows;
        Ok(())
    }

    /// Adds the rows of another state to the state at a place.
    pub(crate) fn combine(&mut self, at: usize, state: &AggState) -> Result<(), AllocError>
        requires { at < length self.old }
        ensures ok { OnOk result (self.new ≡ set self.old at (combined (get_or self.old at empty_state) state.now)) }
        ensures err { OnErr result (self.new ≡ self.old) }
    {
        make_fit(
            self.alloc,
            &mut self.layout,
            &mut self.fitted,
            &self.rows,
            &mut self.lanes,
            &state.slots,
        )?;
        let width = self.layout.width();
        let lanes = self.layout.lanes(&state.slots);
        combine_lanes(&mut self.lanes, at * width, &lanes[..width]);
        self.rows[at] = self.rows[at].wrapping_add(state.rows);
        Ok(())
    }

    /// Makes rows of these items known to the calls that add rows, if the layout fits each of them. It is done once for
    /// many rows.
    pub(crate) fn fit(&mut self, items: &[Item])
        requires { length items.now ≤ 8 }
        ensures { self.new ≡ self.old }
    {
        if is_known(&self.fitted, items) {
            return;
        }
        if self.layout.fits_items(items) {
            if let Ok(fitted) = Vec::from_slice(self.alloc, items) {
                self.fitted = Some(fitted);
            }
        }
    }

    /// Adds a row to the state at a place, if rows of these items are known to fit, and each can read its field;
    /// returns whether it did. Only the columns of the lanes are read.
    pub(crate) fn add_row<F: RowFields>(&mut self, at: usize, row: &F, items: &[Item]) -> bool
        requires place { at < length self.old }
        requires columns { All (λ item. IsTrue (reads_column item.kind) → item.column < length (F.fields row.now)) items.now }
        ensures added { OnTrue result (self.new ≡ set self.old at (combined (get_or self.old at empty_state) (items_state (F.fields row.now) items.now))) }
        ensures readable { OnTrue result (position_from (is_unreadable (F.fields row.now)) 0 items.now ≡ None) }
        ensures unchanged { OnFalse result (self.new ≡ self.old) }
    {
        if !is_known(&self.fitted, items) {
            return false;
        }
        let mut values = [None; 8];
        add_by_lanes(
            &self.layout,
            &mut self.rows,
            &mut self.lanes,
            at,
            &mut values,
            row,
            items,
        )
    }

    /// Adds the rows of a block from a place on to the states of their groups, if rows of the plan's items are known to
    /// fit, and gives the place of the first that it doesn't add.
    pub(crate) fn add_near(
        &mut self,
        keys: &KeyTable,
        buffer: &mut RowBuffer,
        rows: &NearRows<'_>,
        block: u64,
        from: u64,
        count: u64,
        width: u32,
        plan: &BoundPlan,
    ) -> u64
        requires order { from ≤ count }
        requires few { count ≤ 256 }
        requires rows { 256 * block + 1 + count ≤ length rows.now }
        requires fits { 256 * block + 1 + count < 2 ^ 64 }
        requires width { width ≡ header_width rows.now }
        requires columns { HasColumns plan.now width }
        ensures from { from ≤ result }
        ensures within { result ≤ count }
        ensures size { length self.new ≡ length self.old }
        ensures added { (left : List ℕ) (sorted : Bool) (start : GroupsByKey) → IsGrouped keys.now (length self.old) left true sorted
            → AddedFirst plan.now rows.now block from start (groups_at (places_of keys.now left) self.old)
            → AddedFirst plan.now rows.now block result start (groups_at (places_of keys.now left) self.new) }
    {
        if !is_known(&self.fitted, plan.items()) {
            return from;
        }
        add_near(
            &self.layout,
            &mut self.rows,
            &mut self.lanes,
            keys,
            buffer,
            rows,
            block,
            from,
            count,
            width,
            plan,
        )
    }

    /// Adds the rows that a cursor has left to the states of their groups, if rows of the plan's items are known to fit,
    /// and counts them. Returns whether it stopped at a row, which is the cursor's and is not added.
    pub(crate) fn add_next<C: RowCursor>(
        &mut self,
        keys: &KeyTable,
        buffer: &mut RowBuffer,
        cursor: &mut C,
        count: &mut u64,
        width: u32,
        plan: &BoundPlan,
    ) -> Result<bool, BlockAnswer>
        requires widest { width ≤ C.widest }
        requires few { count.old + length (C.left cursor.old) < 2 ^ 64 }
        requires columns { HasColumns plan.now width }
        ensures size { length self.new ≡ length self.old }
        ensures rises { count.old ≤ count.new }
        ensures few { result ≡ Ok true → count.new + (1 + length (C.left cursor.new)) ≡ count.old + length (C.left cursor.old) }
        ensures stopped { result ≡ Ok true → (left : List ℕ) (sorted : Bool) (start : GroupsByKey) (all : List (List (List ℕ))) → IsGrouped keys.now (length self.old) left true sorted
            → AddedSome plan.now width all count.old (C.left cursor.old) start (groups_at (places_of keys.now left) self.old)
            → AddedSome plan.now width all count.new (C.fields cursor.new ∷ C.left cursor.new) start (groups_at (places_of keys.now left) self.new) }
        ensures ended { result ≡ Ok false → (left : List ℕ) (sorted : Bool) (start : GroupsByKey) (all : List (List (List ℕ))) → IsGrouped keys.now (length self.old) left true sorted
            → AddedSome plan.now width all count.old (C.left cursor.old) start (groups_at (places_of keys.now left) self.old)
            → AddedSome plan.now width all count.new [] start (groups_at (places_of keys.now left) self.new) }
        ensures refused { IfErr result (λ why. (all : List (List (List ℕ))) → C.left cursor.old ≡ drop count.old all → SomeRefused plan.now width all why) }
    {
        if !is_known(&self.fitted, plan.items()) {
            return cursor.next_row(width);
        }
        add_next(
            &self.layout,
            &mut self.rows,
            &mut self.lanes,
            keys,
            buffer,
            cursor,
            count,
            width,
            plan,
        )
    }

    /// Adds the row that has these values to the state at a place.
    pub(crate) fn add_values(&mut self, at: usize, values: &[Option<i64>]) -> Result<(), AllocError>
        requires place { at < length self.old }
        requires few { length values.now ≤ 8 }
        ensures ok { OnOk result (self.new ≡ set self.old at (combined (get_or self.old at empty_state) (values_state values.now))) }
        ensures err { OnErr result (self.new ≡ self.old) }
    {
        if !self.layout.fits_values(values) {
            return self.combine(at, &one_row(values));
        }
        let first = at * self.layout.width();
        add_values(&mut self.lanes, first, &self.layout, values);
        self.rows[at] = self.rows[at].wrapping_add(1);
        Ok(())
    }
}

/// Whether these are the items that are known to fit.
fn is_known(fitted: &Option<Vec<Item>>, items: &[Item]) -> bool
    ensures { (layout : Layout) → IsFitted layout fitted.now → IsTrue result → FitsItems layout items.now }
{
    match fitted {
        Some(fitted) => same_items(fitted.as_slice(), items),
        None => false,
    }
}

/// Whether two lists have the same items.
fn same_items(a: &[Item], b: &[Item]) -> bool
    ensures { IsTrue result → a.now ≡ b.now }
{
    if a.len() != b.len() {
        return false;
    }
    for (at, item) in a.iter().enumerate() {
        if !is_same(*item, b[at]) {
            return false;
        }
    }
    true
}

fn is_same(a: Item, b: Item) -> bool
    ensures { IsTrue result → a ≡ b }
{
    a == b
}

/// Adds values to the lanes from a place on, one to each.
#[inline(always)]
pub(crate) fn add_each(lanes: &mut [SlotState], first: usize, values: &[Option<i64>])
    requires { first + length values.now ≤ length lanes.old }
    ensures { lanes.new ≡ with_lanes lanes.old first (combined_slots (take (length values.now) (drop first lanes.old)) (map slot_of_value values.now)) }
{
    add_to_each(&mut lanes[first..first + values.len()], values);
}

/// Adds a value to each lane.
#[inline(always)]
fn add_to_each(lanes: &mut [SlotState], values: &[Option<i64>])
    requires { length lanes.old ≡ length values.now }
    ensures { lanes.new ≡ combined_slots lanes.old (map slot_of_value values.now) }
{
    for lane in 0..lanes.len() {
        add_to_slot(&mut lanes[lane], values[lane]);
    }
}

/// This many lanes from a place on.
fn lanes_at(lanes: &[SlotState], first: usize, width: usize) -> &[SlotState]
    requires { first + width ≤ length lanes.now }
    ensures { result.now ≡ take width (drop first lanes.now) }
{
    &lanes[first..first + width]
}

/// Replaces lanes by others.
fn put_lanes(lanes: &mut [SlotState], first: usize, new: &[SlotState])
    requires { first + length new.now ≤ length lanes.old }
    ensures { lanes.new ≡ with_lanes lanes.old first new.now }
{
    lanes[first..first + new.len()].copy_from_slice(new);
}

/// Puts the lanes of one row that has these values after the others, or none of them.
fn push_lanes(
    lanes: &mut Vec<SlotState>,
    kept: &[usize],
    values: &[Option<i64>],
) -> Result<(), AllocError>
    ensures ok { OnOk result (lanes.new.items ≡ lanes.old.items ++ map (λ at. slot_of_value (get_or values.now at None)) kept.now) }
    ensures err { OnErr result (lanes.new.items ≡ lanes.old.items) }
{
    lanes.reserve(kept.len())?;
    for at in kept {
        lanes.push_reserved(slot_of(value_at(values, *at)));
    }
    Ok(())
}

/// Adds lanes to those from a place on.
fn combine_lanes(lanes: &mut [SlotState], first: usize, others: &[SlotState])
    requires { first + length others.now ≤ length lanes.old }
    ensures { lanes.new ≡ with_lanes lanes.old first (combined_slots (take (length others.now) (drop first lanes.old)) others.now) }
{
    combine_slots(&mut lanes[first..first + others.len()], others);
}

/// Adds the row that has these values to the lanes from a place on.
fn add_values(lanes: &mut [SlotState], first: usize, layout: &Layout, values: &[Option<i64>])
    requires { first + layout.now.width ≤ length lanes.old }
    ensures { lanes.new ≡ with_lanes lanes.old first (combined_slots (take layout.now.width (drop first lanes.old)) (lanes_of layout.now (values_state values.now).slots)) }
{
    add_to_lanes(&mut lanes[first..first + layout.width()], layout, values);
}

/// Adds the row that has these values to the lanes of a state.
fn add_to_lanes(lanes: &mut [SlotState], layout: &Layout, values: &[Option<i64>])
    requires { length lanes.old ≡ layout.now.width }
    ensures { lanes.new ≡ combined_slots lanes.old (lanes_of layout.now (values_state values.now).slots) }
{
    let kept = layout.kept();
    for lane in 0..lanes.len() {
        add_to_slot(&mut lanes[lane], value_at(values, kept[lane]));
    }
}

/// Lays the states out anew, if these slots don't fit the layout of their lanes, under one that they fit too.
fn make_fit(
    alloc: Global,
    layout: &mut Layout,
    fitted: &mut Option<Vec<Item>>,
    rows: &[u64],
    lanes: &mut Vec<SlotState>,
    slots: &[SlotState; 8],
) -> Result<(), AllocError>
    requires whole { length lanes.old.items ≡ length rows.now * layout.old.width }
    ensures fits { OnOk result (Fits layout.new slots.now) }
    ensures whole { length lanes.new.items ≡ length rows.now * layout.new.width }
    ensures same { states_in layout.new rows.now lanes.new.items ≡ states_in layout.old rows.now lanes.old.items }
    ensures fitted { IsFitted layout.old fitted.old → IsFitted layout.new fitted.new }
{
    if layout.fits(slots) {
        return Ok(());
    }
    let finer = layout.finer(slots);
    if finer.fits(slots) {
        if let Some(relaid) = relaid(alloc, layout, &finer, rows, lanes)? {
            *layout = finer;
            *fitted = None;
            *lanes = relaid;
            return Ok(());
        }
    }
    let wide = Layout::wide();
    if let Some(relaid) = relaid(alloc, layout, &wide, rows, lanes)? {
        *layout = wide;
        *fitted = None;
        *lanes = relaid;
    }
    Ok(())
}

/// The lanes of states under another layout, unless one of them doesn't fit it. All states fit the wide one.
fn relaid(
    alloc: Global,
    old: &Layout,
    new: &Layout,
    rows: &[u64],
    lanes: &[SlotState],
) -> Result<Option<Vec<SlotState>>, AllocError>
    requires whole { length lanes.now ≡ length rows.now * old.now.width }
    ensures whole { IfOk result (λ relaid. IfSome relaid (λ lanes. length lanes.items ≡ length rows.now * new.now.width)) }
    ensures same { IfOk result (λ relaid. IfSome relaid (λ relaid. states_in new.now rows.now relaid.items ≡ states_in old.now rows.now lanes.now)) }
    ensures wide { IsWide new.now → IfOk result (λ relaid. relaid ≡ None → ⊥) }
{
    let width = old.width();
    let mut relaid = Vec::new(alloc);
    for at in 0..rows.len() {
        let slots = old.expand(lanes_at(lanes, at * width, width));
        if !new.fits(&slots) {
            return Ok(None);
        }
        relaid.extend_from_slice(&new.lanes(&slots)[..new.width()])?;
    }
    Ok(Some(relaid))
}
