//! The lanes of a plan: each column as its aggregates read it, once.
//!
//! `sum`, `min`, `max` and `avg` of a column have the same slot, so a file has it once. Which lanes there are, and in which
//! order, is told by the plan's aggregates alone.

ghost use Rattle.std.specs.Prelude.{◌≡◌, ◌≤◌, ◌+◌, IfOk, OnOk, length};
ghost use Rattle.state_lanes.specs.Lanes.{has_lane, has_numbers, is_same, kinds_of, lane_of, lanes_of, with_lane};

use par_model::{Item, ItemKind};
use std::alloc::{AllocError, Global};

/// A column as an aggregate reads it: the values are only counted, or they are numbers with this many digits after the point.
#[derive(Clone, Copy, Debug, PartialEq, Eq)]
pub enum Lane {
    Values { column: u32 },
    Numbers { column: u32, places: u32 },
}

/// The lanes of some aggregates, each once, in the order in which they come first. A count of rows has none.
#[tactic(auto, unfolding(crate::specs::Lanes::lanes_of))]
pub fn lanes_of(alloc: Global, items: &[Item]) -> Result<Vec<Lane>, AllocError>
    ensures lanes { IfOk result (λ lanes. lanes.items ≡ lanes_of items.now) }
    ensures few { IfOk result (λ lanes. length lanes.items ≤ length items.now) }
{
    let mut lanes: Vec<Lane> = Vec::new(alloc);
    for item in items {
        add_lane(&mut lanes, lane_of(item))?;
    }
    Ok(lanes)
}

/// Puts a lane, if there is one, at the end of some, unless it is among them.
fn add_lane(lanes: &mut Vec<Lane>, lane: Option<Lane>) -> Result<(), AllocError>
    ensures lanes { OnOk result (lanes.new.items ≡ with_lane lanes.old.items lane) }
    ensures few { length lanes.new.items ≤ length lanes.old.items + 1 }
{
    if let Some(lane) = lane {
        if !has_lane(lanes.as_slice(), lane) {
            lanes.push(lane)?;
        }
    }
    Ok(())
}

/// Which of some lanes have numbers.
pub fn kinds_of(alloc: Global, lanes: &[Lane]) -> Result<Vec<bool>, AllocError>
    ensures { IfOk result (λ kinds. kinds.items ≡ kinds_of lanes.now) }
{
    let mut kinds: Vec<bool> = Vec::new(alloc);
    for lane in lanes {
        kinds.push(has_numbers(*lane))?;
    }
    Ok(kinds)
}

fn has_numbers(lane: Lane) -> bool
    ensures { result ≡ has_numbers lane }
{
    match lane {
        Lane::Values { .. } => false,
        Lane::Numbers { .. } => true,
    }
}

/// The lane of an aggregate.
pub(crate) fn lane_of(item: &Item) -> Option<Lane>
    ensures { result ≡ lane_of item.now }
{
    let column = item.column;
    match item.kind {
        ItemKind::Rows => None,
        ItemKind::Count => Some(Lane::Values { column }),
        ItemKind::Sum | ItemKind::Min | ItemKind::Max | ItemKind::Avg => {
            let places = item.places;
            Some(Lane::Numbers { column, places })
        }
    }
}

/// Whether two lanes are the same.
pub(crate) fn is_same(one: Lane, lane: Lane) -> bool
    ensures { result ≡ is_same one lane }
{
    match (one, lane) {
        (Lane::Values { column }, Lane::Values { column: other }) => column == other,
        (
            Lane::Numbers { column, places },
            Lane::Numbers {
                column: other,
                places: more,
            },
        ) => column == other && places == more,
        _ => false,
    }
}

/// Whether a lane is among some.
fn has_lane(lanes: &[Lane], lane: Lane) -> bool
    ensures { result ≡ has_lane lanes.now lane }
{
    for at in 0..lanes.len() {
        if is_same(lanes[at], lane) {
            return true;
        }
    }
    false
}
