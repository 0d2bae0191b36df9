//! A file of two groups, with the bytes that `docs/STATES.md` says: written of a map, and read.

ghost use Rattle.std.specs.Prelude.{All, IfOk};
ghost use Rattle.result_text.specs.Printable.{IsKeyOf};

use par_io::MemSource;
use par_model::{AggState, Item, ItemKind, NO_VALUES, SlotState};
use partial_agg::{GroupMap, Groups};
use state_front::FrontFault;
use state_head::{Head, KeyRange, Place, PlanWords, Rows, Stretch, Whole};
use state_lanes::Lane;
use state_load::{LoadCause, LoadFault, add_files};
use state_save::push_file;
use state_source::{SourceFault, add_source, read_first};
use state_whole::{Kept, Shape, Sum};
use std::alloc::Global;
use std::test::Fail;

/// The file of the 24 bytes `k,v`, `b,`, `abc,1`, `abc,2`, `abc,`: its first line, head, block, end of blocks, foot, end. In the map `b` comes
/// before `abc`.
pub(crate) const FILE: &[u8] = b"parstream states 1\n\
    %\0\0\0\x01k\x11sum:v,count,avg:v\0\0\x04k,v\n\x01\x01\0\0\x18\x18\0\x04\0\0m\x85\xcfg\
    \x15\0\0\0\x07\x03\0\0\0abc\x03\x02\x06\x02\x01\x05\x01\0\0\0b\x01\0\xb7\xcf\xb4\xe5\
    \0\0\0\0\0\0\0\0\
    \x0b\0\0\0\x02\x01@\x07\x03\0\0\0abc2\x819\x8f\
    \x0b\0\0\0\nstates\n";

pub(crate) const WHOLE: Whole<'_> = Whole {
    words: PlanWords {
        group: b"k",
        agg: b"sum:v,count,avg:v",
        filter: b"",
        decimals: b"",
    },
    header: b"k,v\n",
    sources: 1,
};

pub(crate) const RANGE: KeyRange<'_> = KeyRange {
    low: b"",
    high: b"",
};

/// All bytes of the source.
pub(crate) const STRETCH: Stretch = Stretch {
    place: Place {
        source: 0,
        from: 0,
        to: 24,
        size: 24,
    },
    rows: Rows::Counted(4),
};

/// `sum:v,count,avg:v`, which is one lane.
const ITEMS: [Item; 3] = [
    Item {
        kind: ItemKind::Sum,
        column: 1,
        places: 0,
    },
    Item {
        kind: ItemKind::Rows,
        column: 0,
        places: 0,
    },
    Item {
        kind: ItemKind::Avg,
        column: 1,
        places: 0,
    },
];

const LANES: [Lane; 1] = [Lane::Numbers {
    column: 1,
    places: 0,
}];

pub(crate) const SHAPE: Shape<'_> = Shape {
    columns: 1,
    lanes: &LANES,
    kinds: &[true],
    items: &ITEMS,
};

/// The integers 1 and 2.
const ONE_AND_TWO: SlotState = SlotState {
    count: 2,
    sum: 3,
    least: 1,
    greatest: 2,
};

#[test]
fn saved(rt: HostRuntime) -> Result<(), Fail> {
    let mut cover = Vec::new(rt.alloc());
    cover.push(STRETCH)?;
    let head = Head {
        whole: WHOLE,
        cover,
        range: RANGE,
    };
    let groups = groups_of(rt.alloc())?;
    let mut out = Vec::new(rt.alloc());
    assert!(rt; push_file(rt.alloc(), &mut out, &head, &groups, &SHAPE).is_ok());
    assert!(rt; out.as_slice() == FILE);
    Ok(())
}

#[test]
fn loaded(rt: HostRuntime) -> Result<(), Fail> {
    let kept = Kept {
        columns: 1,
        range: KeyRange {
            low: b"\x01\0\0\0b",
            high: b"",
        },
    };
    let mut sum = Sum::new(rt.alloc(), kept);
    let files = add_files(rt.alloc(), &mut sum, FILE, WHOLE, RANGE, &SHAPE);
    assert!(rt; files == Ok(1));
    assert!(rt; sum.map.len() == 1 && sum.cover.as_slice() == [STRETCH].as_slice());
    Ok(())
}

/// 1,000 files, which are more than a few reads take, and then these bytes, as a source brings them; the reads with these numbers fail.
fn added(rt: &HostRuntime, after: &[u8], fail: &[u64]) -> Result<Result<u64, SourceFault>, Fail> {
    let mut bytes = Vec::new(rt.alloc());
    for _ in 0..1000 {
        bytes.extend_from_slice(FILE)?;
    }
    bytes.extend_from_slice(after)?;
    let mut source = MemSource::new(bytes, 5000, Vec::from_slice(rt.alloc(), fail)?);
    let first = match read_first(rt.alloc(), &mut source) {
        Ok(first) => first,
        Err(why) => return Ok(Err(why)),
    };
    let kept = Kept {
        columns: 1,
        range: RANGE,
    };
    let mut sum = Sum::new(rt.alloc(), kept);
    Ok(add_source(
        rt.alloc(),
        &mut sum,
        &first,
        &mut source,
        WHOLE,
        RANGE,
        &SHAPE,
    ))
}

#[test]
fn streamed(rt: HostRuntime) -> Result<(), Fail> {
    assert!(rt; added(&rt, b"", &[])? == Ok(1000));
    let fault = LoadFault {
        file: 1001,
        why: LoadCause::Front {
            why: FrontFault::NoStates,
        },
    };
    assert!(rt; added(&rt, b"parstream", &[])? == Err(SourceFault::Load { fault }));
    assert!(rt; added(&rt, b"", &[3])? == Err(SourceFault::ReadFault));
    assert!(rt; added(&rt, b"", &[20])? == Err(SourceFault::ReadFault));
    Ok(())
}

/// The groups of the file, as a map has them.
fn groups_of(alloc: Global) -> Result<Groups, Fail>
    ensures { IfOk result (λ groups. All (λ group. IsKeyOf 1 group.key) groups) }
{
    let mut map = GroupMap::new(alloc);
    map.add_bytes(b"\x01\0\0\0b", &state_of(1, NO_VALUES))?;
    map.add_bytes(b"\x03\0\0\0abc", &state_of(3, ONE_AND_TWO))?;
    Ok(map.into_groups())
}

/// A state of this many rows, with this slot where an aggregate reads the lane.
fn state_of(rows: u64, slot: SlotState) -> AggState {
    let none = NO_VALUES;
    AggState {
        rows,
        slots: [slot, none, slot, none, none, none, none, none],
    }
}
