//! The lanes of a plan, and the slots of a state from them and back, on one worked plan.

use par_model::{Item, ItemKind, NO_VALUES, SlotState};
use state_lanes::{Lane, item_slots, kinds_of, lane_slots, lanes_of};
use std::test::Fail;

/// `count,sum:v,avg:v,count:v,max:w`, where v has two digits after the point.
const ITEMS: [Item; 5] = [
    Item {
        kind: ItemKind::Rows,
        column: 0,
        places: 0,
    },
    Item {
        kind: ItemKind::Sum,
        column: 1,
        places: 2,
    },
    Item {
        kind: ItemKind::Avg,
        column: 1,
        places: 2,
    },
    Item {
        kind: ItemKind::Count,
        column: 1,
        places: 0,
    },
    Item {
        kind: ItemKind::Max,
        column: 2,
        places: 0,
    },
];

const LANES: [Lane; 3] = [
    Lane::Numbers {
        column: 1,
        places: 2,
    },
    Lane::Values { column: 1 },
    Lane::Numbers {
        column: 2,
        places: 0,
    },
];

/// A slot of two numbers, and of what is counted only.
const PRICES: SlotState = SlotState {
    count: 2,
    sum: 300,
    least: 100,
    greatest: 200,
};

const COUNTED: SlotState = SlotState {
    count: 2,
    ..NO_VALUES
};

#[test]
fn lanes(rt: HostRuntime) -> Result<(), Fail> {
    let lanes = lanes_of(rt.alloc(), &ITEMS)?;
    assert!(rt; lanes.as_slice() == LANES.as_slice());
    let kinds = kinds_of(rt.alloc(), &LANES)?;
    assert!(rt; kinds.as_slice() == [true, false, true].as_slice());
    let slots = item_slots(&LANES, &[PRICES, COUNTED, NO_VALUES], &ITEMS);
    let none = NO_VALUES;
    assert!(rt; slots == [none, PRICES, PRICES, COUNTED, none, none, none, none]);
    let back = lane_slots(&LANES, &ITEMS, &slots);
    assert!(rt; back == [PRICES, COUNTED, none, none, none, none, none, none]);
    Ok(())
}
