//! Worked words, and what they answer.

use gen_query::{GenAnswer, answer_generated};
use par_io::MemSink;
use std::alloc::{AllocError, Global};
use std::sync::Wait;
use std::test::Fail;
use std::thread::Threads;
use worker_run::OpenGate;

/// Words that are separated by spaces.
fn owned(alloc: Global, words: &str) -> Result<Vec<String>, AllocError> {
    let mut list = Vec::new(alloc);
    for word in words.split(' ') {
        list.push(String::from_str(alloc, word)?)?;
    }
    Ok(list)
}

/// A sink that takes 5 bytes a call, of which these fail.
fn sink(alloc: Global, failing: &[u64]) -> Result<MemSink, AllocError> {
    MemSink::new(alloc, 5, 200, Vec::from_slice(alloc, failing)?)
}

/// How many workers words ask for and how many groups they come to, or why there are none.
fn ask<R: Threads + Wait + Sync>(
    rt: &R,
    alloc: Global,
    words: &str,
    out: &mut MemSink,
) -> Result<Result<(usize, usize), GenAnswer>, AllocError> {
    let list = owned(alloc, words)?;
    match answer_generated(rt, alloc, list.as_slice(), out, &OpenGate) {
        Ok(got) => Ok(Ok((got.finished.workers.len(), got.groups.len()))),
        Err(why) => Ok(Err(why)),
    }
}

/// Whether words say this line, or are none if it is empty.
fn says<R: Threads + Wait + Sync>(
    rt: &R,
    alloc: Global,
    words: &str,
    line: &str,
) -> Result<bool, AllocError> {
    let mut out = sink(alloc, &[])?;
    let answer = ask(rt, alloc, words, &mut out)?;
    let is_well = if line.is_empty() {
        answer == Err(GenAnswer::Usage)
    } else {
        answer.is_ok()
    };
    Ok(is_well && out.written() == line.as_bytes())
}

/// Words, and the line that they say. An empty line stands for words that are none.
const ROWS: [(&str, &str); 13] = [
    ("gen 1 0", "rows 0 groups 0 sum 0\n"),
    ("gen 1 1", "rows 1 groups 1 sum -1000\n"),
    ("gen 1 2", "rows 2 groups 2 sum -56\n"),
    (
        "gen 00000000000000000001 0000002",
        "rows 2 groups 2 sum -56\n",
    ),
    ("gen 0 5", ""),
    ("gen 1 4194305", ""),
    ("gen 1", ""),
    ("gen 1 2 3", ""),
    ("gen 18446744073709551616 1", ""),
    ("gen 000000000000000000001 1", ""),
    ("gen 1 00000002", ""),
    ("gen +1 2", ""),
    ("generate 1 2", ""),
];

#[test]
fn answers_worked_words(rt: HostRuntime) -> Result<(), Fail> {
    for (words, line) in ROWS {
        assert!(rt; says(&rt, rt.alloc(), words, line)?, "{words}");
    }
    Ok(())
}
