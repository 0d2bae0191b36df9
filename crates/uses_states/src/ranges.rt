//! The file of two groups: looked at, added by threads in ranges of keys, and as a table.

use crate::files::{FILE, RANGE, SHAPE, STRETCH, WHOLE};
use par_io::{MemSink, MemSource};
use state_load::look_first;
use state_query::{WRITTEN, finalize_states};
use state_source::{SourceFault, read_first, sum_ranges};
use std::alloc::{AllocError, Global};
use std::test::Fail;
use std::thread::Threads;

/// The table of the file.
const TABLE: &[u8] = b"k,sum(v),count,avg(v)\nabc,3,3,1.5000\nb,,1,\n";

#[test]
fn looked(rt: HostRuntime) -> Result<(), Fail> {
    let Ok(Some(at)) = look_first(rt.alloc(), FILE, WHOLE, RANGE, &SHAPE) else {
        return Err(Fail::new("no file"));
    };
    assert!(rt; at.blocks.len() == 29 && at.rest.is_empty());
    assert!(rt; at.front.head.cover.as_slice() == [STRETCH].as_slice());
    Ok(())
}

/// How many stretches three of these files have, added by two threads; the reads with these numbers fail.
fn summed<R: Threads + Sync>(rt: &R, alloc: Global, fail: &[u64]) -> Result<usize, SourceFault> {
    let mut bytes = Vec::new(alloc);
    for _ in 0..3 {
        if bytes.extend_from_slice(FILE).is_err() {
            return Err(SourceFault::Memory);
        }
    }
    let Ok(fail) = Vec::from_slice(alloc, fail) else {
        return Err(SourceFault::Memory);
    };
    let mut source = MemSource::new(bytes, 100, fail);
    let first = read_first(alloc, &mut source)?;
    let sums = sum_ranges(rt, alloc, &first, &mut source, WHOLE, RANGE, &SHAPE, 2)?;
    Ok(sums.cover.len())
}

#[test]
fn in_ranges(rt: HostRuntime) -> Result<(), Fail> {
    assert!(rt; summed(&rt, rt.alloc(), &[]) == Ok(3));
    assert!(rt; summed(&rt, rt.alloc(), &[2]) == Err(SourceFault::ReadFault));
    Ok(())
}

/// A sink for some bytes.
fn sink(alloc: Global) -> Result<MemSink, AllocError> {
    MemSink::new(alloc, 64, 400, Vec::new(alloc))
}

#[test]
fn finalized(rt: HostRuntime) -> Result<(), Fail> {
    for threads in 1..3 {
        let bytes = Vec::from_slice(rt.alloc(), FILE)?;
        let mut source = MemSource::new(bytes, 100, Vec::new(rt.alloc()));
        let mut out = sink(rt.alloc())?;
        let mut err = sink(rt.alloc())?;
        let alloc = rt.alloc();
        let status = finalize_states(&rt, alloc, threads, &mut source, &mut out, &mut err);
        assert!(rt; status == WRITTEN && out.written() == TABLE);
    }
    Ok(())
}
