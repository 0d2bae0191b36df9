//! The bound on the rows of a group, in maps of ranges.

ghost use Rattle.std.specs.Prelude.{◌≡◌, IsTrue, length};
ghost use Rattle.state_source.specs.Beside.{HasManyRows};
ghost use Rattle.state_whole.specs.Sums.{AreBounded};

use par_model::{AggState, NO_VALUES};
use partial_agg::GroupMap;
use state_ranges::RangeMap;

/// The most rows of a group: 2^50.
const MOST_ROWS: u64 = 1 << 50;

/// Whether a group of one of these maps has more than 2^50 rows. It costs one step for each group.
pub(crate) fn has_many_rows(ranges: &[RangeMap]) -> bool
    ensures { IsTrue result → HasManyRows ranges.now }
{
    for at in 0..ranges.len() {
        if has_many(&ranges[at].map) {
            return true;
        }
    }
    false
}

/// Whether a group of a map has more than 2^50 rows.
fn has_many(map: &GroupMap) -> bool
    ensures { IsTrue result → AreBounded map.now → ⊥ }
{
    let groups = map.lent();
    let mut state = AggState {
        rows: 0,
        slots: [NO_VALUES; 8],
    };
    for at in 0..groups.len() {
        groups.read_state(at, &mut state, 0);
        if state.rows > MOST_ROWS {
            return true;
        }
    }
    false
}
