//! The libraries `par_gather` and `par_stream` as the programs `pargather` and `parstream` call them, over sources and
//! sinks in memory: worked rows, and what no clause says. Rows are in tables, each gone through by one test.

mod forms;
mod plans;
mod tables;
mod workers;

use par_gather::{Gate, OpenGate, Ran, aggregate_alone, pargather};
use par_io::{MemSink, MemSource};
use par_stream::{Separated, Untold, WINDOW_BYTES, stream_table};
use std::alloc::Global;
use std::process::Abort;
use std::sync::Wait;
use std::thread::Threads;

/// Texts one after the other, each this many times.
type Pieces<'a> = &'a [(&'a str, u32)];

const USAGE: &str =
    "pargather: usage: pargather [--group COLUMNS] --agg ITEMS [--where FILTER] [--workers N] [--plan gather|hash] [--area-pages N]\n";

const STREAM_USAGE: &str =
    "parstream: usage: parstream [--group COLUMNS] --agg ITEMS [--where FILTER].. [--decimals PLACES] [--separator BYTE] [--null TEXTS] [--trim] [--workers N]\n";

const LETTERS: Pieces<'static> = &[("g,v\na,1\nb,2\na,3\n", 1)];

/// Rows of which the 300th and the 550th are refused.
const X_TWICE: Pieces<'static> = &[
    ("v\n", 1),
    ("1\n", 299),
    ("x\n", 1),
    ("1\n", 249),
    ("x\n", 1),
    ("1\n", 50),
];

/// The numbers of the calls of the source and of the two sinks that fail.
#[derive(Clone, Copy)]
struct Failing<'a> {
    reads: &'a [u64],
    writes: &'a [u64],
    lines: &'a [u64],
}

const NO_FAULTS: Failing<'static> = Failing {
    reads: &[],
    writes: &[],
    lines: &[],
};

/// The status, what the two sinks have to be given, and the line in two parts, after which there may be more.
#[derive(Clone, Copy)]
struct Wanted<'a> {
    status: u8,
    out: &'a [u8],
    line: (&'a [u8], &'a [u8]),
    is_whole: bool,
}

impl<'a> Wanted<'a> {
    fn of(status: u8, out: &'a [u8], line: &'a [u8]) -> Wanted<'a> {
        Wanted {
            status,
            out,
            line: (b"", line),
            is_whole: true,
        }
    }

    /// The answer of `parstream` that stands for one of `pargather`: its line begins with its own name, and shows its
    /// own usage. What it says of a row and of a header is only begun.
    fn of_stream(self) -> Wanted<'a> {
        let (_, line) = self.line;
        if line == USAGE.as_bytes() {
            let line = (b"".as_slice(), STREAM_USAGE.as_bytes());
            return Wanted { line, ..self };
        }
        let name = line.len().min(9);
        let front = &b"parstream"[..name];
        match same_front(&line[name..]) {
            Some(rest) => Wanted {
                line: (front, rest),
                is_whole: false,
                ..self
            },
            None => Wanted {
                line: (front, &line[name..]),
                ..self
            },
        }
    }
}

/// How a line begins, after the program's name, that goes on otherwise in `parstream`: by the number of a row, or `no column`.
fn same_front(line: &[u8]) -> Option<&[u8]> {
    for front in [b": no column ".as_slice(), b": row "] {
        if line.starts_with(front) {
            return Some(up_to_digits(line, front.len()));
        }
    }
    None
}

/// A line up to the digits that stand at a place, and these.
fn up_to_digits(line: &[u8], from: usize) -> &[u8] {
    for at in from..line.len() {
        if !line[at].is_ascii_digit() {
            return &line[..at];
        }
    }
    line
}

/// A source that gives 3 bytes a call and sinks that take 5.
#[derive(Drop)]
struct Streams {
    source: Separated<MemSource>,
    out: MemSink,
    err: MemSink,
}

impl Streams {
    /// Streams over these bytes, of which these calls fail.
    fn over<R: Abort>(rt: &R, alloc: Global, input: Vec<u8>, failing: Failing<'_>) -> Streams {
        let reads = copy_of(rt, alloc, failing.reads);
        Streams {
            source: Separated::new(MemSource::new(input, 3, reads)),
            out: sink(rt, alloc, 100_000, failing.writes),
            err: sink(rt, alloc, 1_000, failing.lines),
        }
    }
}

fn sink<R: Abort>(rt: &R, alloc: Global, room: usize, failing: &[u64]) -> MemSink {
    MemSink::new(alloc, 5, room, copy_of(rt, alloc, failing)).expect(rt, "memory")
}

/// A list of these numbers or bytes.
fn copy_of<T: Copy, R: Abort>(rt: &R, alloc: Global, all: &[T]) -> Vec<T> {
    Vec::from_slice(alloc, all).expect(rt, "memory")
}

/// What is said of a run, in numbers.
#[derive(Clone, Copy)]
enum Said {
    Nothing,
    Gathered { launched: u32, groups: usize },
    Merged { launched: u32, rows: usize },
    Joined { passes: usize, pairs: usize },
}

impl Said {
    fn of(ran: &Option<Ran>) -> Said {
        match ran {
            Some(Ran::Gather(gathered)) => Said::Gathered {
                launched: gathered.finished.launched,
                groups: gathered.groups.len(),
            },
            Some(Ran::Merge(merged)) => Said::Merged {
                launched: merged.finished.launched,
                rows: merged.order.len(),
            },
            Some(Ran::Join(joined)) => Said::Joined {
                passes: joined.areas.len(),
                pairs: joined.pairs.len(),
            },
            None => Said::Nothing,
        }
    }
}

/// The status, the streams after the call, and what is said of the run.
#[derive(Drop)]
struct Answered {
    status: u8,
    streams: Streams,
    said: Said,
}

impl Answered {
    fn out(&self) -> &[u8] {
        self.streams.out.written()
    }

    fn err(&self) -> &[u8] {
        self.streams.err.written()
    }

    fn is(&self, wanted: Wanted<'_>) -> bool {
        let (front, rest) = wanted.line;
        let err = self.err();
        self.status == wanted.status
            && self.out() == wanted.out
            && err.starts_with(front)
            && err[front.len().min(err.len())..].starts_with(rest)
            && (!wanted.is_whole || err.len() == front.len() + rest.len())
    }
}

/// The bytes of some pieces.
fn bytes_of<R: Abort>(rt: &R, alloc: Global, pieces: Pieces<'_>) -> Vec<u8> {
    let mut bytes = Vec::new(alloc);
    for (text, times) in pieces {
        repeat(rt, &mut bytes, text.as_bytes(), *times);
    }
    bytes
}

/// Adds a text this many times.
fn repeat<R: Abort>(rt: &R, bytes: &mut Vec<u8>, text: &[u8], times: u32) {
    for _ in 0..times {
        bytes.extend_from_slice(text).expect(rt, "memory");
    }
}

/// The words of a text, which are separated by spaces. No text is no words.
fn words_of<R: Abort>(rt: &R, alloc: Global, text: &str) -> Vec<String> {
    let mut words = Vec::new(alloc);
    if text.is_empty() {
        return words;
    }
    for word in text.split(' ') {
        let word = String::from_str(alloc, word).expect(rt, "memory");
        words.push(word).expect(rt, "memory");
    }
    words
}

/// What `pargather` answers. Only here is what the run brings home looked at.
fn ask<G: Gate + Sync, R: Abort + Threads + Wait + Sync>(
    rt: &R,
    alloc: Global,
    words: &str,
    input: Vec<u8>,
    failing: Failing<'_>,
    gate: &G,
) -> Answered {
    let mut streams = Streams::over(rt, alloc, input, failing);
    let words = words_of(rt, alloc, words);
    let mut ran = None;
    let status = pargather(
        rt,
        alloc,
        words.as_slice(),
        &mut streams.source,
        &mut streams.out,
        &mut streams.err,
        gate,
        &mut ran,
    );
    let said = Said::of(&ran);
    Answered {
        status,
        streams,
        said,
    }
}

/// What `aggregate_alone` answers.
fn ask_alone<R: Abort>(
    rt: &R,
    alloc: Global,
    words: &str,
    input: Vec<u8>,
    failing: Failing<'_>,
) -> Answered {
    let mut streams = Streams::over(rt, alloc, input, failing);
    let words = words_of(rt, alloc, words);
    let status = aggregate_alone(
        alloc,
        words.as_slice(),
        &mut streams.source,
        &mut streams.out,
        &mut streams.err,
    );
    Answered {
        status,
        streams,
        said: Said::Nothing,
    }
}

/// What `stream_table` answers.
fn ask_stream<R: Abort + Threads + Wait + Sync>(
    rt: &R,
    alloc: Global,
    words: &str,
    input: Vec<u8>,
    failing: Failing<'_>,
) -> Answered {
    let mut streams = Streams::over(rt, alloc, input, failing);
    let words = words_of(rt, alloc, words);
    let status = stream_table(
        rt,
        alloc,
        words.as_slice(),
        &mut streams.source,
        &mut streams.out,
        &mut streams.err,
        WINDOW_BYTES,
        &mut Untold,
    );
    Answered {
        status,
        streams,
        said: Said::Nothing,
    }
}

/// Stops the test unless an answer is this.
fn check<R: Abort>(rt: &R, words: &str, answer: &Answered, wanted: Wanted<'_>) {
    assert!(rt; answer.is(wanted), "{words}");
}

/// A call that answers the words of a plan.
#[derive(Clone, Copy)]
enum Call {
    WithWorkers,
    Alone,
    InWindows,
}

impl Call {
    /// Whether the call takes such words: of a shared table `stream_table` knows nothing.
    fn takes(self, words: &str) -> bool {
        match self {
            Call::WithWorkers | Call::Alone => true,
            Call::InWindows => !words.contains("--plan") && !words.contains("--area-pages"),
        }
    }

    fn ask<R: Abort + Threads + Wait + Sync>(
        self,
        rt: &R,
        alloc: Global,
        words: &str,
        input: &[u8],
        failing: Failing<'_>,
    ) -> Answered {
        let input = copy_of(rt, alloc, input);
        match self {
            Call::WithWorkers => ask(rt, alloc, words, input, failing, &OpenGate),
            Call::Alone => ask_alone(rt, alloc, words, input, failing),
            Call::InWindows => ask_stream(rt, alloc, words, input, failing),
        }
    }

    /// Stops the test unless the call has this answer.
    fn check<R: Abort + Threads + Wait + Sync>(
        self,
        rt: &R,
        alloc: Global,
        words: &str,
        input: &[u8],
        failing: Failing<'_>,
        wanted: Wanted<'_>,
    ) {
        let answer = self.ask(rt, alloc, words, input, failing);
        check(rt, words, &answer, wanted);
    }

    /// The answer of the call that stands for one of `pargather`.
    fn wanted<'a>(self, of_gather: Wanted<'a>) -> Wanted<'a> {
        match self {
            Call::WithWorkers | Call::Alone => of_gather,
            Call::InWindows => of_gather.of_stream(),
        }
    }
}

/// Stops the test unless each call that takes the words has this answer.
fn check_each<R: Abort + Threads + Wait + Sync>(
    rt: &R,
    alloc: Global,
    words: &str,
    input: &[u8],
    failing: Failing<'_>,
    wanted: Wanted<'_>,
) {
    for call in [Call::WithWorkers, Call::Alone, Call::InWindows] {
        if call.takes(words) {
            call.check(rt, alloc, words, input, failing, call.wanted(wanted));
        }
    }
}
