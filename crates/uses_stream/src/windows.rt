//! Windows of a few bytes, so that each end of a line falls on a seam, and so do quotes, breaks and marks.

use group_query::aggregate_alone;
use par_io::{MemSink, MemSource};
use par_stream::{Separated, Untold, stream_table};
use std::alloc::{AllocError, Global};
use std::sync::Wait;
use std::test::Fail;
use std::thread::Threads;

/// The status, and what the two sinks were given.
#[derive(Debug, PartialEq, Eq, Drop)]
pub(crate) struct Answer {
    pub(crate) status: u8,
    pub(crate) out: Vec<u8>,
    pub(crate) err: Vec<u8>,
}

/// The words of a text, which are separated by spaces.
pub(crate) fn words_of(alloc: Global, text: &str) -> Result<Vec<String>, AllocError> {
    let mut words = Vec::new(alloc);
    for word in text.split(' ') {
        words.push(String::from_str(alloc, word)?)?;
    }
    Ok(words)
}

/// A source that gives 3 bytes a call.
pub(crate) fn source_of(alloc: Global, input: &[u8]) -> Result<MemSource, AllocError> {
    Ok(MemSource::new(Vec::from_slice(alloc, input)?, 3, Vec::new(alloc)))
}

/// A sink that takes 5 bytes a call.
pub(crate) fn sink(alloc: Global) -> Result<MemSink, AllocError> {
    MemSink::new(alloc, 5, 10_000, Vec::new(alloc))
}

/// What windows answered, but for the program's name in the line.
pub(crate) fn answer_of(
    alloc: Global,
    status: u8,
    out: &MemSink,
    err: &MemSink,
) -> Result<Answer, AllocError> {
    Ok(Answer {
        status,
        out: Vec::from_slice(alloc, out.written())?,
        err: after_name(alloc, err.written())?,
    })
}

/// Whether the query over all records at once has this status and this table.
fn is_wanted(
    alloc: Global,
    words: &str,
    input: &[u8],
    answer: &Answer,
) -> Result<bool, AllocError> {
    let words = words_of(alloc, words)?;
    let mut source = source_of(alloc, input)?;
    let mut out = sink(alloc)?;
    let mut err = sink(alloc)?;
    let status = aggregate_alone(alloc, words.as_slice(), &mut source, &mut out, &mut err);
    Ok(answer.status == status && answer.out.as_slice() == out.written())
}

/// What the windows of a source answer.
pub(crate) fn answered<R: Threads + Wait + Sync>(
    rt: &R,
    alloc: Global,
    words: &str,
    source: MemSource,
    mut out: MemSink,
    size: usize,
) -> Result<Answer, AllocError> {
    let words = words_of(alloc, words)?;
    let mut err = sink(alloc)?;
    let mut source = Separated::new(source);
    let status = stream_table(
        rt,
        alloc,
        words.as_slice(),
        &mut source,
        &mut out,
        &mut err,
        size,
        &mut Untold,
    );
    answer_of(alloc, status, &out, &err)
}

/// What windows of this size answer over some bytes.
pub(crate) fn answered_over<R: Threads + Wait + Sync>(
    rt: &R,
    alloc: Global,
    words: &str,
    input: &[u8],
    size: usize,
) -> Result<Answer, AllocError> {
    let source = source_of(alloc, input)?;
    let out = sink(alloc)?;
    answered(rt, alloc, words, source, out, size)
}

/// Whether this many workers answer so, by windows of several sizes.
fn is_same<R: Threads + Wait + Sync>(
    rt: &R,
    alloc: Global,
    plan: &str,
    input: &[u8],
    workers: u32,
    whole: &Answer,
) -> Result<bool, AllocError> {
    let words = format!(in alloc; "{plan} --workers {workers}")?;
    for size in [1usize, 2, 3, 5, 8, 100] {
        if answered_over(rt, alloc, words.as_str(), input, size)? != *whole {
            return Ok(false);
        }
    }
    Ok(true)
}

/// A line after the name of its program, which has nine letters.
pub(crate) fn after_name(alloc: Global, line: &[u8]) -> Result<Vec<u8>, AllocError> {
    Vec::from_slice(alloc, &line[line.len().min(9)..])
}

const PLANS: &[&str] = &[
    "--group g --agg count,sum:v,avg:v",
    "--agg count,max:v",
    "--group g --agg count --where v>1",
    "--group h --agg count",
    "--group v,g --agg count:g",
];

const INPUTS: &[&str] = &[
    "g,v\na,1\nb,2\na,3\n",
    "g,v\na,1\nb,2\na,3",
    "g,v\r\n\"b\nc\",1\r\nb,2\r\n\"\",3\r\nB,3\r\n\"b\nc\",4\r\n",
    "\u{FEFF}g,v\na,1\n\u{FEFF}a,2\n",
    "\n\n\r\ng,v\n\n\na,1\n\r\n\n",
    "\n\n\n\n\n\n\n",
    "g,v",
    "g,v\n",
    "\"g\",\"v\"\r\n\"x\"\"y\",1\r\n\"x\"\"y\",\"2\"\n",
    "g,v\ra,1\rb,2\r\ra,3\r",
    "g,v\n\"a,1\nb,2\n",
    "g,v\na,1\nb\nc,2\n",
    "g,v\na,1\nb,x\nc,2\n",
    "\"g\nh\",v\n1,2\n",
];

#[test]
fn each_seam(rt: HostRuntime) -> Result<(), Fail> {
    let alloc = rt.alloc();
    for input in INPUTS {
        for plan in PLANS {
            let bytes = input.as_bytes();
            let whole = answered_over(&rt, alloc, plan, bytes, 1_000)?;
            assert!(rt; is_wanted(alloc, plan, bytes, &whole)?, "{plan} of {input}");
            for workers in [0, 1, 3u32] {
                assert!(rt;
                    is_same(&rt, alloc, plan, bytes, workers, &whole)?,
                    "{plan} of {input} by {workers} workers"
                );
            }
        }
    }
    Ok(())
}
