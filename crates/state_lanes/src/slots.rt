//! The slots of a state from those of its lanes, and back.

ghost use Rattle.std.specs.Prelude.{◌≡◌, ◌≤◌, length, take};
ghost use Rattle.state_lanes.specs.Lanes.{first_of, is_of, item_slots, lane_slots, slot_at, slot_in};

use crate::lanes::{Lane, is_same, lane_of};
use par_model::{Item, NO_VALUES, SlotState};

/// The slots of some lanes, from those of a state of these aggregates; the places past the lanes have no values. It looks at
/// each aggregate once for each lane.
#[tactic(auto, unfolding(crate::specs::Lanes::lane_slots))]
pub fn lane_slots(lanes: &[Lane], items: &[Item], slots: &[SlotState; 8]) -> [SlotState; 8]
    requires lanes { length lanes.now ≤ 8 }
    requires items { length items.now ≤ 8 }
    ensures { take (length lanes.now) result ≡ lane_slots lanes.now items.now slots.now }
{
    let mut found = [NO_VALUES; 8];
    for at in 0..lanes.len() {
        found[at] = first_of(items, slots, lanes[at]);
    }
    found
}

/// The slots of a state of these aggregates, from those of its lanes, which are in front. It looks at each lane once for each
/// aggregate.
#[tactic(auto, unfolding(crate::specs::Lanes::item_slots))]
pub fn item_slots(lanes: &[Lane], slots: &[SlotState], items: &[Item]) -> [SlotState; 8]
    requires lanes { length lanes.now ≤ length slots.now }
    requires items { length items.now ≤ 8 }
    ensures { result ≡ item_slots lanes.now slots.now items.now }
{
    let mut found = [NO_VALUES; 8];
    for at in 0..items.len() {
        found[at] = slot_in(lanes, slots, &items[at]);
    }
    found
}

/// The slot of the first aggregate that reads a lane.
fn first_of(items: &[Item], slots: &[SlotState; 8], lane: Lane) -> SlotState
    requires { length items.now ≤ 8 }
    ensures { result ≡ first_of items.now slots.now lane }
{
    for at in 0..items.len() {
        if is_of(lane, &items[at]) {
            return slots[at];
        }
    }
    NO_VALUES
}

/// Whether an aggregate reads this lane.
fn is_of(lane: Lane, item: &Item) -> bool
    ensures { result ≡ is_of lane item.now }
{
    match lane_of(item) {
        Some(one) => is_same(one, lane),
        None => false,
    }
}

/// The slot of an aggregate: that of its lane.
fn slot_in(lanes: &[Lane], slots: &[SlotState], item: &Item) -> SlotState
    requires { length lanes.now ≤ length slots.now }
    ensures { result ≡ slot_in lanes.now slots.now item.now }
{
    match lane_of(item) {
        Some(lane) => slot_at(lanes, slots, lane),
        None => NO_VALUES,
    }
}

/// The slot of a lane, among those of some lanes.
fn slot_at(lanes: &[Lane], slots: &[SlotState], lane: Lane) -> SlotState
    requires { length lanes.now ≤ length slots.now }
    ensures { result ≡ slot_at lanes.now slots.now lane }
{
    for at in 0..lanes.len() {
        if is_same(lanes[at], lane) {
            return slots[at];
        }
    }
    NO_VALUES
}
