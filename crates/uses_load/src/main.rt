//! `uses_load KIND THREADS CALLS [SIZE]` makes one shared object and has threads call it at once; without words it does
//! so for each line of its standard input, which has such words.
//!
//! It is what `bench/objects.py` times: it takes no time itself, and prints one line that no schedule changes, with
//! what it was asked and how many of the calls went as they have to. Its stored run makes a small load of each kind.
//!
//! `words` reads what is asked; `lock`, `chunks`, `queue` and `keys` are the loads. What a thread does with chunks is in
//! `area` and `spares`, and with keys in `table` (new ones) and `present` (those that are there). `counter` is what is
//! behind the lock, and `counts` adds up what the threads counted.

#![tactic(auto)]

mod area;
mod chunks;
mod counter;
mod counts;
mod keys;
mod lock;
mod present;
mod queue;
mod spares;
mod table;
mod words;

use crate::chunks::chunks_load;
use crate::keys::keys_load;
use crate::lock::lock_load;
use crate::queue::queue_load;
use crate::words::{Kind, Load, load_of};
use std::alloc::{AllocError, Global};
use std::env;
use std::io::{self, ErrorKind};
use std::process::ExitCode;
use std::sync::Wait;
use std::thread::Threads;

/// The status of a run that was asked for nothing that there is.
const WRONG_WORDS: u8 = 2;

/// How the program is called.
const USAGE: &str =
    "usage: uses_load lock|area|spares|window|queue|flushed|puts|gets|sets THREADS CALLS [SIZE]
without words it reads such words from each line of its standard input; each of 1 to 64 THREADS makes CALLS calls, up to 2^32; SIZE is 8 to 1000000: the bytes of a chunk (area, spares, window) or of a
message (queue, flushed, which take 2 threads), or the keys of the table (puts, gets, sets)";

/// The words after the program's name, or none if one is not UTF-8.
fn given_words(rt: &HostRuntime) -> io::Result<Option<Vec<String>>> {
    let mut words = Vec::new(rt.alloc());
    match env::args(rt) {
        Ok(args) => {
            for word in args.skip(1) {
                words.push(word)?;
            }
        }
        Err(e) if e.kind() == ErrorKind::InvalidData => return Ok(None),
        Err(e) => return Err(e),
    }
    Ok(Some(words))
}

/// Makes the object, has it called, and says what came of it.
fn line<R: Threads + Wait + Sync>(rt: &R, alloc: Global, load: Load) -> Result<String, AllocError> {
    let Load {
        kind,
        threads,
        calls,
        size,
    } = load;
    let all = u64::from(threads).saturating_mul(calls);
    match kind {
        Kind::Lock => {
            let value = lock_load(rt, alloc, threads, calls)?;
            format!(in alloc; "lock: {threads} threads, {all} calls, value {value}")
        }
        Kind::Chunks(way) => {
            let good = chunks_load(rt, alloc, way, threads, calls, size)?;
            let name = way.name();
            format!(in alloc; "{name}: {threads} threads, {all} pairs of {size} bytes, {good} good")
        }
        Kind::Queue { flush } => {
            let came = queue_load(rt, alloc, calls, size, flush)?;
            let name = if flush { "flushed" } else { "queue" };
            format!(in alloc;
                "{name}: {threads} threads, {calls} messages of {size} bytes, {came} came"
            )
        }
        Kind::Keys(work) => {
            let done = keys_load(rt, alloc, work, threads, calls, size)?;
            let (name, what) = work.names();
            format!(in alloc;
                "{name}: {threads} threads, {all} {name} on {size} keys, {done} {what}"
            )
        }
    }
}

/// The words of a line, separated by spaces.
fn words_of(alloc: Global, text: &str) -> Result<Vec<String>, AllocError> {
    let mut words = Vec::new(alloc);
    for word in text.split(' ') {
        words.push(String::from_str(alloc, word)?)?;
    }
    Ok(words)
}

/// Makes the load that a line of words asks for, and says what came of it.
fn answer<R: Threads + Wait + Sync>(
    rt: &R,
    alloc: Global,
    text: &str,
) -> Result<String, AllocError> {
    let words = words_of(alloc, text)?;
    match load_of(words.as_slice()) {
        Some(load) => line(rt, alloc, load),
        None => format!(in alloc; "no load: {text}"),
    }
}

fn main(rt: HostRuntime) -> anyhow::Result<ExitCode> {
    let words = given_words(&rt)?;
    if words.as_ref().is_some_and(|words| words.is_empty()) {
        for text in rt.lines(rt.alloc()) {
            let answer = answer(&rt, rt.alloc(), text?.as_str())?;
            println!(rt; "{answer}")?;
        }
        return Ok(ExitCode::SUCCESS);
    }
    let Some(load) = words.and_then(|words| load_of(words.as_slice())) else {
        eprintln!(rt; "{USAGE}")?;
        return Ok(ExitCode::from(WRONG_WORDS));
    };
    let line = line(&rt, rt.alloc(), load)?;
    println!(rt; "{line}")?;
    Ok(ExitCode::SUCCESS)
}
