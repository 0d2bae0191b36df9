//! Covers of two sources, whole, and with a stretch that is missing.

use state_cover::{CoverFault, Missing, join_cover, missing_bytes};
use state_head::{Place, RefusedRow, Rows, Stretch, push_cover, read_cover};
use std::alloc::Global;
use std::test::Fail;

const FIRST: Stretch = Stretch {
    place: Place {
        source: 0,
        from: 0,
        to: 40,
        size: 100,
    },
    rows: Rows::Counted(4),
};

const SECOND: Stretch = Stretch {
    place: Place {
        source: 0,
        from: 40,
        to: 100,
        size: 100,
    },
    rows: Rows::Refused(RefusedRow {
        row: 3,
        cause: 3,
        item: 1,
    }),
};

const OTHER: Stretch = Stretch {
    place: Place {
        source: 1,
        from: 0,
        to: 7,
        size: 7,
    },
    rows: Rows::Counted(1),
};

#[test]
fn covers(rt: HostRuntime) -> Result<(), Fail> {
    let whole = Stretch {
        place: Place {
            from: 0,
            ..SECOND.place
        },
        rows: Rows::Refused(RefusedRow {
            row: 7,
            cause: 3,
            item: 1,
        }),
    };
    let cover = joined(rt.alloc(), &[SECOND], &[FIRST, OTHER]);
    assert!(rt; cover == Ok(2));
    let gap = Missing {
        source: 0,
        from: 40,
        to: Some(100),
    };
    assert!(rt; missing(rt.alloc(), &[FIRST, OTHER]) == Some(gap));
    assert!(rt; missing(rt.alloc(), &[whole, OTHER]).is_none());
    Ok(())
}

/// How many stretches the cover of two files of two sources has, whose covers these are.
fn joined(alloc: Global, a: &[Stretch], b: &[Stretch]) -> Result<usize, CoverFault> {
    let mut bytes = Vec::new(alloc);
    let mut more = Vec::new(alloc);
    if push_cover(&mut bytes, a).is_err() || push_cover(&mut more, b).is_err() {
        return Err(CoverFault::Memory);
    }
    let Ok(Some((mut all, _))) = read_cover(alloc, bytes.as_slice(), 2) else {
        return Err(CoverFault::Memory);
    };
    let Ok(Some((rest, _))) = read_cover(alloc, more.as_slice(), 2) else {
        return Err(CoverFault::Memory);
    };
    if all.extend_from_slice(rest.as_slice()).is_err() {
        return Err(CoverFault::Memory);
    }
    Ok(join_cover(alloc, &mut all, 2)?.len())
}

/// What a cover of two sources lacks.
fn missing(alloc: Global, cover: &[Stretch]) -> Option<Missing> {
    let mut bytes = Vec::new(alloc);
    push_cover(&mut bytes, cover).ok()?;
    let (cover, _) = read_cover(alloc, bytes.as_slice(), 2).ok()??;
    missing_bytes(cover.as_slice(), 2)
}
