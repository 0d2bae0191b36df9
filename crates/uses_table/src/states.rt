//! What no clause says: the layout as it is written out by hand, and the table's size of an item with such a cell.

mod table;

use agg_cell::{AggObject, STATE_WORDS};
use dshash_core::{CellObject, item_bytes};
use par_model::{AggState, NO_VALUES, SlotState};
use std::test::Fail;

/// The state of one row, and of two others, whose first slots have values at the limits of their numbers.
fn one_row() -> AggState {
    let mut slots = [NO_VALUES; 8];
    slots[0] = SlotState {
        count: 1,
        sum: -1,
        least: -1,
        greatest: -1,
    };
    AggState { rows: 1, slots }
}

fn two_rows() -> AggState {
    let mut slots = [NO_VALUES; 8];
    slots[0] = SlotState {
        count: 2,
        sum: -9_223_372_036_854_775_801,
        least: i64::MIN,
        greatest: 7,
    };
    slots[7] = SlotState {
        count: 1,
        sum: i128::MAX,
        least: 5,
        greatest: i64::MAX,
    };
    AggState { rows: 2, slots }
}

#[test]
fn words_of_a_state(rt: HostRuntime) -> Result<(), Fail> {
    let mut words = [9u64; STATE_WORDS];
    AggObject::encode(&two_rows(), &mut words);
    assert!(rt; words[..6] == [2, 2, 0x8000_0000_0000_0007, u64::MAX, 1 << 63, 7]);
    assert!(rt; words[6..36] == [0; 30]);
    assert!(rt; words[36..] == [1, u64::MAX, u64::MAX >> 1, 5, u64::MAX >> 1]);
    assert!(rt; AggObject::decode(&words) == two_rows());
    assert!(rt; item_bytes(32, STATE_WORDS as u32) == 600);
    Ok(())
}
