//! Worked bytes of the first line and a head.

use state_front::{push_front, read_front};
use state_head::{Head, KeyRange, PlanWords, Whole};
use std::test::Fail;

#[test]
fn fronts(rt: HostRuntime) -> Result<(), Fail> {
    let words = PlanWords {
        group: b"k",
        agg: b"count",
        filter: b"",
        decimals: b"",
    };
    let head = Head {
        whole: Whole {
            words,
            header: b"k,v\n",
            sources: 1,
        },
        cover: Vec::new(rt.alloc()),
        range: KeyRange {
            low: b"",
            high: b"",
        },
    };
    let mut out = Vec::new(rt.alloc());
    push_front(rt.alloc(), &mut out, &head).ok();
    assert!(rt;
        out.as_slice().starts_with(
            b"parstream states 1\n\x13\0\0\0\x01k\x05count\0\0\x04k,v\n\x01\0\0\0"
        )
    );
    assert!(rt; out.len() == 46);
    out.extend_from_slice(b"more")?;
    let Ok(read) = read_front(rt.alloc(), out.as_slice()) else {
        return Err(Fail::new("no front"));
    };
    assert!(rt; read.at == 46 && read.rest == b"more".as_slice());
    assert!(rt; read.head.whole.header == b"k,v\n".as_slice());
    Ok(())
}
