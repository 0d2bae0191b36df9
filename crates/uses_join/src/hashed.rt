//! Runs over a few rows, which show what no clause says: that the calls succeed.

use csv_rows::{RowStore, rows};
use hash_join::{JoinAnswer, Joined, MOST_PAIRS, join};
use std::alloc::{AllocError, Global};
use std::sync::Wait;
use std::test::Fail;
use std::thread::Threads;

/// The rows of a text.
fn stored(alloc: Global, text: &[u8]) -> Result<RowStore, Fail> {
    match rows(alloc, text) {
        Ok(store) => Ok(store),
        Err(_) => Err(Fail::new("no rows")),
    }
}

/// The join of two texts, on the columns of these numbers.
fn joined<R: Threads + Wait + Sync>(
    rt: &R,
    alloc: Global,
    left: &[u8],
    right: &[u8],
    columns: (u32, u32),
    workers: u32,
) -> Result<Result<Joined, JoinAnswer>, Fail> {
    let left = stored(alloc, left)?;
    let right = stored(alloc, right)?;
    if columns.0 >= left.width(0) || columns.1 >= right.width(0) || workers > 64 {
        return Err(Fail::new("no column"));
    }
    Ok(join(rt, alloc, &left, &right, columns.0, columns.1, workers))
}

/// Whether the pairs are these.
fn has_pairs(joined: &Joined, pairs: &[(u64, u64)]) -> bool {
    if joined.pairs.len() != pairs.len() {
        return false;
    }
    for at in 0..pairs.len() {
        if at >= joined.pairs.len() {
            return false;
        }
        let pair = joined.pairs.get(at);
        if (pair.left, pair.right) != pairs[at] {
            return false;
        }
    }
    true
}

/// Checks the pairs of two texts with this many workers, and that each participant has its pass of the table's area.
fn check_with<R: Threads + Wait + Sync>(
    rt: &R,
    alloc: Global,
    left: &[u8],
    right: &[u8],
    columns: (u32, u32),
    pairs: &[(u64, u64)],
    workers: u32,
) -> Result<(), Fail> {
    match joined(rt, alloc, left, right, columns, workers)? {
        Ok(joined) => {
            if has_pairs(&joined, pairs) && joined.areas.len() == workers as usize + 1 {
                Ok(())
            } else {
                Err(Fail::new("other pairs or other passes"))
            }
        }
        Err(_) => Err(Fail::new("no pairs")),
    }
}

/// Checks the pairs of two texts, with several numbers of workers.
fn check<R: Threads + Wait + Sync>(
    rt: &R,
    alloc: Global,
    left: &[u8],
    right: &[u8],
    columns: (u32, u32),
    pairs: &[(u64, u64)],
) -> Result<(), Fail> {
    for workers in [0, 3] {
        check_with(rt, alloc, left, right, columns, pairs, workers)?;
    }
    Ok(())
}

#[test]
fn a_few_rows(rt: HostRuntime) -> Result<(), Fail> {
    check(
        &rt,
        rt.alloc(),
        b"id,a\n1,x\n2,y\n1,z\n,q\n",
        b"id,b\n1,p\n3,r\n,s\n1,t\n",
        (0, 0),
        &[(1, 1), (1, 4), (3, 1), (3, 4)],
    )
}

/// Why there is no join of two texts on their first columns, or else how many pairs there are.
fn counted<R: Threads + Wait + Sync>(
    rt: &R,
    alloc: Global,
    left: &[u8],
    right: &[u8],
    workers: u32,
) -> Result<Result<usize, JoinAnswer>, Fail> {
    match joined(rt, alloc, left, right, (0, 0), workers)? {
        Ok(joined) => Ok(Ok(joined.pairs.len())),
        Err(why) => Ok(Err(why)),
    }
}

/// A header, rows with one field, and then rows with another.
fn of_two_keys(alloc: Global, ones: u64, twos: u64) -> Result<Vec<u8>, AllocError> {
    let mut text = Vec::from_slice(alloc, b"id\n")?;
    for row in 0..ones.saturating_add(twos) {
        text.extend_from_slice(if row < ones { b"1\n" } else { b"2\n" })?;
    }
    Ok(text)
}

#[test]
fn as_many_pairs_as_there_may_be(rt: HostRuntime) -> Result<(), Fail> {
    let thousand = of_two_keys(rt.alloc(), 1024, 0)?;
    let more = of_two_keys(rt.alloc(), 1025, 0)?;
    for workers in [0, 3] {
        let most = counted(&rt, rt.alloc(), &thousand, &thousand, workers)?;
        assert!(rt; most == Ok(MOST_PAIRS));
        let none = counted(&rt, rt.alloc(), &more, &thousand, workers)?;
        assert!(rt; none == Err(JoinAnswer::TooManyPairs));
    }
    Ok(())
}

/// The first block of right rows has too many pairs, and thousands of further rows have none: a participant that draws
/// those is told to stop, and the answer is that of the first.
#[test]
fn too_many_pairs_of_one_participant(rt: HostRuntime) -> Result<(), Fail> {
    let left = of_two_keys(rt.alloc(), 4200, 0)?;
    let right = of_two_keys(rt.alloc(), 256, 20_000)?;
    for workers in [0, 1, 3] {
        let none = counted(&rt, rt.alloc(), &left, &right, workers)?;
        assert!(rt; none == Err(JoinAnswer::TooManyPairs));
    }
    Ok(())
}
