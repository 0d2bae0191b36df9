//! Reads and writes that fail, with windows of five bytes that are read three bytes a call.

use crate::windows::{Answer, answered};
use par_io::{MemSink, MemSource};
use std::alloc::{AllocError, Global};
use std::sync::Wait;
use std::test::Fail;
use std::thread::Threads;

/// The status, and what was written: the table, and the line after the program's name.
type Wanted<'a> = (u8, &'a [u8], &'a [u8]);

/// What is answered if the read or the write with one of these numbers fails.
fn answered_failing<R: Threads + Wait + Sync>(
    rt: &R,
    alloc: Global,
    words: &str,
    input: &str,
    read: u64,
    write: u64,
) -> Result<Answer, AllocError> {
    let bytes = Vec::from_slice(alloc, input.as_bytes())?;
    let source = MemSource::new(bytes, 3, Vec::from_slice(alloc, &[read])?);
    let out = MemSink::new(alloc, 5, 100, Vec::from_slice(alloc, &[write])?)?;
    answered(rt, alloc, words, source, out, 5)
}

/// Whether that is this, for each of several numbers of workers.
fn is_answered<R: Threads + Wait + Sync>(
    rt: &R,
    alloc: Global,
    input: &str,
    read: u64,
    write: u64,
    wanted: Wanted<'_>,
) -> Result<bool, AllocError> {
    let (status, table, line) = wanted;
    for workers in [0, 1, 3u32] {
        let words = format!(in alloc; "--group g --agg count,sum:v --workers {workers}")?;
        let given = answered_failing(rt, alloc, words.as_str(), input, read, write)?;
        if given.status != status || given.out.as_slice() != table || given.err.as_slice() != line {
            return Ok(false);
        }
    }
    Ok(true)
}

/// No call has this number.
const NONE: u64 = 0;

#[test]
fn reads_that_fail(rt: HostRuntime) -> Result<(), Fail> {
    let alloc = rt.alloc();
    // Eight reads, the last of which meets the end.
    let input = "g,v\na,1\nb,2\na,3\n";
    for read in 1..=8u64 {
        let fault = (3u8, b"".as_slice(), b": read fault\n".as_slice());
        assert!(rt;
            is_answered(&rt, alloc, input, read, NONE, fault)?,
            "read {read}"
        );
    }
    // The row is in the second window, which the third read fills.
    let input = "g,v\na,x\nb,2\na,3\n";
    for read in 4..=9u64 {
        let line = b": row 1 (line 2): column \"v\" is not an integer: \"x\"; see --null\n";
        let refused = (1u8, b"".as_slice(), line.as_slice());
        assert!(rt;
            is_answered(&rt, alloc, input, read, NONE, refused)?,
            "row, and read {read}"
        );
    }
    Ok(())
}

#[test]
fn writes_that_fail(rt: HostRuntime) -> Result<(), Fail> {
    let alloc = rt.alloc();
    let input = "g,v\na,1\nb,2\na,3\n";
    let table = b"g,count,sum(v)\na,2,4\nb,1,2\n";
    for write in 1..=6usize {
        let part = &table[..5 * (write - 1)];
        let fault = (4u8, part, b": write fault\n".as_slice());
        assert!(rt;
            is_answered(&rt, alloc, input, NONE, write as u64, fault)?,
            "write {write}"
        );
    }
    let whole = (0u8, table.as_slice(), b"".as_slice());
    assert!(rt; is_answered(&rt, alloc, input, 9, 7, whole)?);
    Ok(())
}
