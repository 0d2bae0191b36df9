//! The bound on the rows of a group.

ghost use Rattle.std.specs.Prelude.{◌≡◌, ◌≤◌, ◌+◌, ◌^◌, ◌⊎◌, All, IfNone, IfSome};
ghost use Rattle.partial_agg.specs.Listed.{listed};
ghost use Rattle.state_whole.specs.Adding.{HasRows};
ghost use Rattle.state_whole.specs.Sums.{AreBounded};

use par_model::{AggState, NO_VALUES};
use partial_agg::GroupMap;

/// The most rows of a group: 2^50.
const MOST_ROWS: u64 = 1 << 50;

/// What no group of a map has more rows than, if that is at most 2^50, and if none has more than these two numbers together. The groups
/// are looked at only if the two are more than 2^50.
pub(crate) fn bounded(map: &GroupMap, before: u64, more: u64) -> Option<u64>
    ensures few { IfSome result (λ most. most ≤ 2 ^ 50) }
    ensures bound { All (λ group. group.state.rows ≤ before + more) (listed map.now) → IfSome result (λ most. All (λ group. group.state.rows ≤ most) (listed map.now)) }

    // When there is a group with more.
    ensures past { IfNone result (AreBounded map.now → ⊥) }
{
    let sum = before.saturating_add(more);
    if sum <= MOST_ROWS {
        return Some(sum);
    }
    let most = most_rows(map);
    if most <= MOST_ROWS { Some(most) } else { None }
}

/// The most rows that a group of a map has; 0 if there is no group. It costs one step for each group.
fn most_rows(map: &GroupMap) -> u64
    ensures bound { All (λ group. group.state.rows ≤ result) (listed map.now) }
    ensures reached { (result ≡ 0) ⊎ HasRows result (listed map.now) }
{
    let groups = map.lent();
    let mut state = AggState {
        rows: 0,
        slots: [NO_VALUES; 8],
    };
    let mut most = 0u64;
    for at in 0..groups.len() {
        groups.read_state(at, &mut state, 0);
        most = larger(most, state.rows);
    }
    most
}

/// The larger one of two numbers.
pub(crate) fn larger(a: u64, b: u64) -> u64
    ensures first { a ≤ result }
    ensures second { b ≤ result }
    ensures one { (result ≡ a) ⊎ (result ≡ b) }
{
    if a < b { b } else { a }
}
