//! Worked bytes of stretches and of a head.

use state_head::{
    Head, KeyRange, Place, PlanWords, RefusedRow, Rows, Stretch, Whole, push_head, push_stretch,
    read_head, read_stretch,
};
use std::test::Fail;

/// The bytes from 5 up to 300, of source 1 of 1,000 bytes.
const PLACE: Place = Place {
    source: 1,
    from: 5,
    to: 300,
    size: 1000,
};

/// Stretches, and their bytes.
const STRETCHES: [(Stretch, &[u8]); 2] = [
    (
        Stretch {
            place: PLACE,
            rows: Rows::Counted(7),
        },
        &[1, 5, 172, 2, 232, 7, 0, 7],
    ),
    (
        Stretch {
            place: PLACE,
            rows: Rows::Refused(RefusedRow {
                row: 3,
                cause: 1,
                item: 0,
            }),
        },
        &[1, 5, 172, 2, 232, 7, 3, 1, 0],
    ),
];

#[test]
fn stretches(rt: HostRuntime) -> Result<(), Fail> {
    for (stretch, bytes) in STRETCHES {
        let mut out = Vec::new(rt.alloc());
        push_stretch(&mut out, stretch)?;
        assert!(rt; out.as_slice() == bytes);
        assert!(rt; read_stretch(bytes, 2).map(|found| found.0) == Some(stretch));
    }
    Ok(())
}

/// A cover of two sources: the first bytes of the one, which has no row, and some of the other, in two stretches.
const COVER: [Stretch; 3] = [
    Stretch {
        place: Place {
            source: 0,
            from: 0,
            to: 2,
            size: 9,
        },
        rows: Rows::Counted(0),
    },
    Stretch {
        place: PLACE,
        rows: Rows::Counted(7),
    },
    Stretch {
        place: Place {
            from: 301,
            to: 400,
            ..PLACE
        },
        rows: Rows::Counted(1),
    },
];

/// The head of a file of that cover.
const HEAD: &[u8] =
    b"\x01k\x05count\0\0\x02k\n\x02\x03\0\0\x02\x09\0\0\x01\x05\xac\x02\xe8\x07\0\x07\x01\xad\x02\x90\x03\xe8\x07\0\x01\x05\x01\0\0\0b\0";

#[test]
fn heads(rt: HostRuntime) -> Result<(), Fail> {
    let mut cover = Vec::new(rt.alloc());
    cover.extend_from_slice(&COVER)?;
    let words = PlanWords {
        group: b"k",
        agg: b"count",
        filter: b"",
        decimals: b"",
    };
    let range = KeyRange {
        low: b"\x01\0\0\0b",
        high: b"",
    };
    let whole = Whole {
        words,
        header: b"k\n",
        sources: 2,
    };
    let mut out = Vec::new(rt.alloc());
    push_head(
        &mut out,
        &Head {
            whole,
            cover,
            range,
        },
    )?;
    assert!(rt; out.as_slice() == HEAD);
    let Some(head) = read_head(rt.alloc(), HEAD)? else {
        return Err(Fail::new("no head"));
    };
    assert!(rt; head.cover.as_slice() == COVER.as_slice());
    assert!(rt; head.whole.sources == 2 && head.whole.header == b"k\n".as_slice());
    assert!(rt; head.range.low.len() == 5 && head.range.high.is_empty());
    Ok(())
}
