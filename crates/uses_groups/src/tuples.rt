//! What no clause says: that the calls succeed, and the format as it is written out by hand.

use par_model::{AggState, SlotState};
use partial_agg::GroupKey;
use std::test::Fail;
use tuple_codec::{Tuple, TupleRead, decode, encode};

/// The group of the empty key, with no rows and no slots.
const NOTHING: [u8; 13] = [0; 13];

fn why(bytes: &[u8]) -> Option<TupleRead> {
    decode(bytes).err()
}

#[test]
fn shapes_that_are_refused(rt: HostRuntime) -> Result<(), Fail> {
    for k in 0..13 {
        let at = if k < 4 {
            0
        } else if k < 12 {
            4
        } else {
            12
        };
        assert!(rt;
            why(&NOTHING[..k]) == Some(TupleRead::Short { at }),
            "{k} bytes"
        );
    }
    assert!(rt; why(&[0; 14]) == Some(TupleRead::Trailing { left: 1 }));
    let mut bytes = NOTHING;
    bytes[0] = 249;
    assert!(rt; why(&bytes) == Some(TupleRead::Range { at: 0 }));
    bytes[0] = 0;
    bytes[12] = 9;
    assert!(rt; why(&bytes) == Some(TupleRead::Range { at: 12 }));
    bytes[12] = 1;
    assert!(rt; why(&bytes) == Some(TupleRead::Short { at: 13 }));
    Ok(())
}

/// A slot without values.
const NONE: SlotState = SlotState {
    count: 0,
    sum: 0,
    least: 0,
    greatest: 0,
};

/// A state whose one slot is at the limits of its numbers.
const STATE: AggState = AggState {
    rows: 258,
    slots: [
        SlotState {
            count: 1,
            sum: i128::MIN,
            least: i64::MIN,
            greatest: -1,
        },
        NONE,
        NONE,
        NONE,
        NONE,
        NONE,
        NONE,
        NONE,
    ],
};

/// The key of one column with the field `x`.
const KEY: &[u8] = b"\x01\0\0\0x";

/// The tuple of [`KEY`] and [`STATE`] as it is written out by hand: its front, and the last bytes of two numbers.
fn is_written(tuple: &Tuple) -> bool {
    let front = b"\x05\0\0\0\x01\0\0\0x\x02\x01\0\0\0\0\0\0\x01\x01".as_slice();
    tuple.len == 58
        && &tuple.bytes[..19] == front
        && tuple.bytes[41] == 0x80
        && tuple.bytes[57] == 0xff
}

#[test]
fn there_and_back(rt: HostRuntime) -> Result<(), Fail> {
    let key = GroupKey::of(KEY).ok_or("a short key")?;
    let tuple = encode(&key, &STATE, 1);
    assert!(rt; is_written(&tuple));
    let (back, same) = decode(&tuple.bytes[..58])?;
    assert!(rt; back.bytes() == KEY && same == STATE);
    Ok(())
}
