//! Worked bytes of slots and groups.

use par_model::{AggState, NO_VALUES, SlotState};
use state_groups::{push_group, push_slot, read_group, read_slot};
use std::test::Fail;

/// The slot of the integers 1 and 2.
const ONE_AND_TWO: SlotState = SlotState {
    count: 2,
    sum: 3,
    least: 1,
    greatest: 2,
};

/// Slots with their integers, and their bytes.
const SLOTS: [(SlotState, &[u8]); 4] = [
    (NO_VALUES, &[0]),
    (ONE_AND_TWO, &[2, 6, 2, 1]),
    (
        SlotState {
            count: 2,
            sum: -3,
            least: -2,
            greatest: -1,
        },
        &[2, 5, 3, 1],
    ),
    (
        SlotState {
            count: 2,
            sum: -1,
            least: i64::MIN,
            greatest: i64::MAX,
        },
        &[
            2, 1, 255, 255, 255, 255, 255, 255, 255, 255, 255, 1, 255, 255, 255, 255, 255, 255,
            255, 255, 255, 1,
        ],
    ),
];

/// The group of three rows with the column `a`, of which two have the integers 1 and 2.
const GROUP: [u8; 11] = [5, 1, 0, 0, 0, b'a', 3, 2, 6, 2, 1];

/// A state of no rows.
const NONE: AggState = AggState {
    rows: 0,
    slots: [NO_VALUES; 8],
};

#[test]
fn slots(rt: HostRuntime) -> Result<(), Fail> {
    for (slot, bytes) in SLOTS {
        let mut out = Vec::new(rt.alloc());
        push_slot(&mut out, true, &slot)?;
        assert!(rt; out.as_slice() == bytes, "{}", slot.sum);
        assert!(rt; read_slot(bytes, true, 2).map(|found| found.0) == Some(slot));
    }
    let mut out = Vec::new(rt.alloc());
    let values = SlotState {
        count: 300,
        ..NO_VALUES
    };
    push_slot(&mut out, false, &values)?;
    assert!(rt; out.as_slice() == b"\xac\x02".as_slice());
    Ok(())
}

#[test]
fn groups(rt: HostRuntime) -> Result<(), Fail> {
    let mut out = Vec::new(rt.alloc());
    push_group(&mut out, &[true], &GROUP[1..6], 3, &[ONE_AND_TWO])?;
    assert!(rt; out.as_slice() == GROUP.as_slice());
    let mut state = NONE;
    let Some((key, rest)) = read_group(&GROUP, 1, &[true], &mut state) else {
        return Err(Fail::new("no group"));
    };
    assert!(rt; key == &GROUP[1..6] && rest.is_empty());
    assert!(rt; state.rows == 3 && state.slots[0] == ONE_AND_TWO);
    Ok(())
}
