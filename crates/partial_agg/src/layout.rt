//! Which slots of a state are kept, and how the others follow from them.
//!
//! Aggregates of one column mostly have the same slot: a sum, a minimum, a maximum and an average all keep the count,
//! the sum, the least and the greatest of the column's integers, a count keeps only the count, and the slots past the
//! plan's aggregates have no values. So a layout keeps some slots of a state, its lanes, and says of each of the eight
//! slots how it follows from these. Whether a state follows from its lanes is tested, so that no layout can be wrong: a
//! badly chosen layout costs a new one.

ghost use Rattle.std.specs.Prelude.{◌≡◌, ◌<◌, ◌≤◌, ◌↔◌, ℕ, List, IsTrue, None, false, drop, get_or, length, slice_get, take};
ghost use Rattle.par_model.specs.Aggregate.{no_values};
ghost use Rattle.par_model.specs.Refuse.{reads_numbers};
ghost use Rattle.partial_agg.specs.Items.{is_item_unreadable, item_value, items_state};
ghost use Rattle.partial_agg.specs.State.{without_integers};
ghost use Rattle.partial_agg.specs.Values.{slot_of_value, values_state};

use par_model::{Item, ItemKind, NO_VALUES, SlotState};

/// How a slot follows from the lanes of its state.
#[derive(Clone, Copy, PartialEq, Eq)]
pub(crate) enum SlotPart {
    /// It has no values.
    Empty,
    /// It has the count of this lane, and no integers.
    Count(usize),
    /// It is this lane.
    Whole(usize),
}

impl SlotPart {
    ghost use Rattle.partial_agg.specs.Lanes.{slot_in};

    /// The slot that follows from these lanes.
    fn slot_in(self, lanes: &[SlotState]) -> SlotState
        ensures { result ≡ slot_in lanes.now self }
    {
        match self {
            SlotPart::Empty => NO_VALUES,
            SlotPart::Count(lane) => only_count(slot_at(lanes, lane)),
            SlotPart::Whole(lane) => slot_at(lanes, lane),
        }
    }
}

/// Which slots are lanes, and how each of the eight slots follows from them.
#[derive(Clone, Copy)]
pub(crate) struct Layout {
    parts: [SlotPart; 8],
    /// The slot that is each lane.
    kept: [usize; 8],
    /// The number of lanes.
    width: usize,
    ghost narrow: { width ≤ 8 },
}

impl Layout {
    ghost use Rattle.partial_agg.specs.Fitting.{AreLanesReadable, FitsItems, IsToldItem};
    ghost use Rattle.partial_agg.specs.Lanes.{Fits, IsWide, lanes_of, slot_in, slots_in};

    /// The layout of states that have no values.
    pub(crate) fn none() -> Layout {
        Layout {
            parts: [SlotPart::Empty; 8],
            kept: [0; 8],
            width: 0,
        }
    }

    /// The layout of all states: each slot is a lane.
    pub(crate) fn wide() -> Layout
        ensures { IsWide result }
    {
        Layout {
            parts: [
                SlotPart::Whole(0),
                SlotPart::Whole(1),
                SlotPart::Whole(2),
                SlotPart::Whole(3),
                SlotPart::Whole(4),
                SlotPart::Whole(5),
                SlotPart::Whole(6),
                SlotPart::Whole(7),
            ],
            kept: [0, 1, 2, 3, 4, 5, 6, 7],
            width: 8,
        }
    }

    /// The number of lanes.
    pub(crate) fn width(&self) -> usize
        ensures width { result ≡ self.now.width }
        ensures narrow { result ≤ 8 }
    {
        self.width
    }

    /// The slots that are lanes.
    pub(crate) fn kept(&self) -> &[usize]
        ensures kept { result.now ≡ take self.now.width self.now.kept }
        ensures width { length result.now ≡ self.now.width }
    {
        &self.kept[..self.width]
    }

    /// Tells that there is a part for each of the eight slots. It does nothing.
    pub(crate) fn has_all_parts(&self)
        ensures { length self.now.parts ≡ 8 }
    {
        let _parts = &self.parts;
    }

    /// The slots that lanes stand for.
    pub(crate) fn expand(&self, lanes: &[SlotState]) -> [SlotState; 8]
        ensures { result ≡ slots_in self.now.parts lanes.now }
    {
        let mut slots = [NO_VALUES; 8];
        for at in 0..8 {
            slots[at] = self.parts[at].slot_in(lanes);
        }
        slots
    }

    /// Reads this many of the slots that lanes stand for. The others stay as they are.
    pub(crate) fn read(&self, lanes: &[SlotState], slots: &mut [SlotState; 8], count: usize)
        requires { count ≤ 8 }
        ensures front { take count slots.new ≡ take count (slots_in self.now.parts lanes.now) }
        ensures rest { drop count slots.new ≡ drop count slots.old }
    {
        for at in 0..count {
            slots[at] = self.parts[at].slot_in(lanes);
        }
    }

    /// The lanes of a state with these slots, at the front of an array.
    pub(crate) fn lanes(&self, slots: &[SlotState; 8]) -> [SlotState; 8]
        ensures lanes { take self.now.width result ≡ lanes_of self.now slots.now }
        ensures width { length (lanes_of self.now slots.now) ≡ self.now.width }
    {
        let mut lanes = [NO_VALUES; 8];
        for lane in 0..self.width {
            lanes[lane] = slot_at(slots, self.kept[lane]);
        }
        lanes
    }

    /// Whether slots follow from their lanes.
    pub(crate) fn fits(&self, slots: &[SlotState; 8]) -> bool
        ensures { IsTrue result ↔ Fits self.now slots.now }
    {
        for at in 0..8 {
            if !is_same(self.told(slots, self.parts[at]), slots[at]) {
                return false;
            }
        }
        true
    }

    /// What a slot has to be, given the lanes of these slots.
    fn told(&self, slots: &[SlotState; 8], part: SlotPart) -> SlotState
        ensures { result ≡ slot_in (lanes_of self.now slots.now) part }
    {
        match part {
            SlotPart::Empty => NO_VALUES,
            SlotPart::Count(lane) => only_count(self.lane_of(slots, lane)),
            SlotPart::Whole(lane) => self.lane_of(slots, lane),
        }
    }

    /// A lane of these slots.
    fn lane_of(&self, slots: &[SlotState; 8], lane: usize) -> SlotState
        ensures { result ≡ get_or (lanes_of self.now slots.now) lane no_values }
    {
        if lane < self.width {
            slot_at(slots, self.kept[lane])
        } else {
            NO_VALUES
        }
    }

    /// Whether the slots of the one row that has these values follow from their lanes.
    pub(crate) fn fits_values(&self, values: &[Option<i64>]) -> bool
        requires { length values.now ≤ 8 }
        ensures { IsTrue result → Fits self.now (values_state values.now).slots }
    {
        for at in 0..8 {
            if !self.tells(values, self.parts[at], value_at(values, at)) {
                return false;
            }
        }
        true
    }

    /// Whether the slots of each row of these items follow from their lanes, whatever its values are: each item takes
    /// the value that the item of its lane takes, or counts it. Of such a row only the lanes need to be read.
    pub(crate) fn fits_items(&self, items: &[Item]) -> bool
        requires { length items.now ≤ 8 }
        ensures { IsTrue result → FitsItems self.now items.now }
    {
        for at in 0..8 {
            if !self.tells_item(items, self.parts[at], item_at(items, at)) {
                return false;
            }
        }
        true
    }

    /// Whether an item's value is what it has to be, given the lanes, for each row of these items that has readable
    /// lanes.
    fn tells_item(&self, items: &[Item], part: SlotPart, item: Option<Item>) -> bool
        ensures { IsTrue result → (row : List (List ℕ)) → AreLanesReadable self.now items.now row → IsToldItem self.now items.now row part item }
    {
        match part {
            SlotPart::Empty => takes_nothing(item),
            SlotPart::Count(lane) => is_count_of(item, self.item_of(items, lane)),
            SlotPart::Whole(lane) => takes_same(item, self.item_of(items, lane)),
        }
    }

    /// The item of a lane, if it has one.
    fn item_of(&self, items: &[Item], lane: usize) -> Option<Item>
        ensures value { (row : List (List ℕ)) → slot_of_value (item_value row result) ≡ get_or (lanes_of self.now (items_state row items.now).slots) lane no_values }
        ensures readable { (row : List (List ℕ)) → AreLanesReadable self.now items.now row → is_item_unreadable row result ≡ false }
    {
        if lane < self.width {
            item_at(items, self.kept[lane])
        } else {
            None
        }
    }

    /// Whether a value's slot is what it has to be, given the lanes of the row that has these values.
    fn tells(&self, values: &[Option<i64>], part: SlotPart, value: Option<i64>) -> bool
        ensures { IsTrue result → slot_in (lanes_of self.now (values_state values.now).slots) part ≡ slot_of_value value }
    {
        match part {
            SlotPart::Empty => value.is_none(),
            SlotPart::Count(lane) => is_counted(value, self.value_of(values, lane)),
            SlotPart::Whole(lane) => value == self.value_of(values, lane),
        }
    }

    /// The value of a lane, of the row that has these values.
    fn value_of(&self, values: &[Option<i64>], lane: usize) -> Option<i64>
        ensures { slot_of_value result ≡ get_or (lanes_of self.now (values_state values.now).slots) lane no_values }
    {
        if lane < self.width {
            value_at(values, self.kept[lane])
        } else {
            None
        }
    }

    /// A layout for states of this one and for these slots too. Slots that differ in no state are one lane, and a slot
    /// that has had no integers is the count of another lane if their counts never differed.
    pub(crate) fn finer(&self, slots: &[SlotState; 8]) -> Layout {
        let mut finer = Layout::none();
        for at in 0..8 {
            if !self.is_plain(slots, at) {
                finer.parts[at] = self.twin(&finer, slots, at);
                finer.open_lane(at);
            }
        }
        for at in 0..8 {
            if self.is_plain(slots, at) && !self.is_empty(slots, at) {
                finer.parts[at] = self.counter(&finer, slots, at);
                finer.open_lane(at);
            }
        }
        finer
    }

    /// Whether a slot has had no integers, as far as this layout shows, and has none now.
    fn is_plain(&self, slots: &[SlotState; 8], at: usize) -> bool
        requires { at < 8 }
    {
        !matches!(self.parts[at], SlotPart::Whole(_)) && slots[at] == only_count(slots[at])
    }

    /// Whether a slot has had no values, and has none now.
    fn is_empty(&self, slots: &[SlotState; 8], at: usize) -> bool
        requires { at < 8 }
    {
        self.parts[at] == SlotPart::Empty && slots[at] == NO_VALUES
    }

    /// The lane of a slot before this one from which it never differed, if there is one.
    fn twin(&self, finer: &Layout, slots: &[SlotState; 8], at: usize) -> SlotPart
        requires { at < 8 }
    {
        for other in 0..at {
            let part = finer.parts[other];
            if part != SlotPart::Empty
                && self.parts[other] == self.parts[at]
                && slots[other] == slots[at]
            {
                return part;
            }
        }
        SlotPart::Empty
    }

    /// The count of a lane that has always had as many values as this slot, if there is one.
    fn counter(&self, finer: &Layout, slots: &[SlotState; 8], at: usize) -> SlotPart
        requires { at < 8 }
    {
        for other in 0..8 {
            if let SlotPart::Whole(lane) = finer.parts[other] {
                if slots[other].count == slots[at].count
                    && same_count(self.parts[other], self.parts[at])
                {
                    return SlotPart::Count(lane);
                }
            }
        }
        SlotPart::Empty
    }

    /// Makes a slot that doesn't follow from the lanes a lane itself.
    fn open_lane(&mut self, at: usize)
        requires { at < 8 }
    {
        if self.parts[at] == SlotPart::Empty && self.width < 8 {
            self.kept[self.width] = at;
            self.parts[at] = SlotPart::Whole(self.width);
            self.width += 1;
        }
    }
}

/// Whether the lanes give two slots the same count.
fn same_count(a: SlotPart, b: SlotPart) -> bool {
    match (a, b) {
        (SlotPart::Empty, SlotPart::Empty) => true,
        (SlotPart::Whole(x), SlotPart::Count(y)) => x == y,
        (SlotPart::Count(x), SlotPart::Count(y)) => x == y,
        _ => false,
    }
}

fn is_same(a: SlotState, b: SlotState) -> bool
    ensures { IsTrue result ↔ (a ≡ b) }
{
    a == b
}

/// The slot at a place, or one without values past the end.
pub(crate) fn slot_at(slots: &[SlotState], at: usize) -> SlotState
    ensures { result ≡ get_or slots.now at no_values }
{
    if at < slots.len() {
        slots[at]
    } else {
        NO_VALUES
    }
}

/// The value at a place, or none past the end.
pub(crate) fn value_at(values: &[Option<i64>], at: usize) -> Option<i64>
    ensures { result ≡ get_or values.now at None }
{
    if at < values.len() { values[at] } else { None }
}

/// The item at a place, or none past the end.
pub(crate) fn item_at(items: &[Item], at: usize) -> Option<Item>
    ensures { result ≡ slice_get items.now at }
{
    if at < items.len() {
        Some(items[at])
    } else {
        None
    }
}

/// Whether no row has a value of an item.
fn takes_nothing(item: Option<Item>) -> bool
    ensures { IsTrue result → (row : List (List ℕ)) → (item_value row item ≡ None) × (is_item_unreadable row item ≡ false) }
{
    match item {
        None => true,
        Some(item) => item.kind == ItemKind::Rows,
    }
}

/// Whether two items take the same value of each row.
fn takes_same(item: Option<Item>, other: Option<Item>) -> bool
    ensures { IsTrue result → (row : List (List ℕ)) → (item_value row item ≡ item_value row other) × (is_item_unreadable row item ≡ is_item_unreadable row other) }
{
    match (item, other) {
        (None, None) => true,
        (Some(item), Some(other)) => {
            item.column == other.column
                && item.places == other.places
                && (item.kind == other.kind
                    || takes_numbers(item.kind) && takes_numbers(other.kind))
        }
        _ => false,
    }
}

/// Whether an item only counts the numbers that another takes.
fn is_count_of(item: Option<Item>, other: Option<Item>) -> bool
    ensures { IsTrue result → (row : List (List ℕ)) → is_item_unreadable row other ≡ false
        → (slot_of_value (item_value row item) ≡ without_integers (slot_of_value (item_value row other))) × (is_item_unreadable row item ≡ false) }
{
    match (item, other) {
        (Some(item), Some(other)) => {
            item.column == other.column && item.kind == ItemKind::Count && takes_numbers(other.kind)
        }
        _ => false,
    }
}

/// Whether an aggregate takes a column's numbers.
fn takes_numbers(kind: ItemKind) -> bool
    ensures { result ≡ reads_numbers kind }
{
    match kind {
        ItemKind::Rows | ItemKind::Count => false,
        ItemKind::Sum | ItemKind::Min | ItemKind::Max | ItemKind::Avg => true,
    }
}

/// A slot's count, without its integers.
fn only_count(slot: SlotState) -> SlotState
    ensures { result ≡ without_integers slot }
{
    SlotState {
        count: slot.count,
        ..NO_VALUES
    }
}

/// Whether a value only counts the other one.
fn is_counted(value: Option<i64>, other: Option<i64>) -> bool
    ensures { IsTrue result → slot_of_value value ≡ without_integers (slot_of_value other) }
{
    match other {
        None => value.is_none(),
        Some(_) => value == Some(0),
    }
}
