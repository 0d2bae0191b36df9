//! Worked rows: words, bytes and failing calls, and what the call answers.

use join_query::{MISUSED, TABLE, join_tables};
use par_io::{MemSink, MemSource};
use std::alloc::{AllocError, Global};
use std::sync::Wait;
use std::test::Fail;
use std::thread::Threads;

const USAGE: &str = "pargather: usage: pargather join COLUMN N\n";

const TWO: &str = "id,a\n1,x\n2,y\n1,z\n,q\n%\nid,b\n1,p\n3,r\n,s\n1,t\n";

const JOINED: &str = "id,a,id,b\n1,x,1,p\n1,x,1,t\n1,z,1,p\n1,z,1,t\n";

/// Words that are separated by spaces.
fn owned(alloc: Global, words: &str) -> Result<Vec<String>, AllocError> {
    let mut list = Vec::new(alloc);
    for word in words.split(' ') {
        list.push(String::from_str(alloc, word)?)?;
    }
    Ok(list)
}

/// A run over a source that gives 7 bytes a call and sinks that take 5, with the numbers of the calls that fail. The
/// words are separated by spaces.
#[derive(Clone, Copy)]
struct Run<'a> {
    words: &'a str,
    input: &'a [u8],
    failing_reads: &'a [u64],
    failing_writes: &'a [u64],
    failing_lines: &'a [u64],
}

/// The status, how many passes the table's area had, and the two sinks after the call.
#[derive(Drop)]
struct Answered {
    status: u8,
    passes: usize,
    out: MemSink,
    err: MemSink,
}

impl Answered {
    fn is(&self, status: u8, out: &[u8], err: &[u8]) -> bool {
        self.status == status && self.out.written() == out && self.err.written() == err
    }
}

/// A sink with this room.
fn sink(alloc: Global, room: usize, failing: &[u64]) -> Result<MemSink, AllocError> {
    MemSink::new(alloc, 5, room, Vec::from_slice(alloc, failing)?)
}

/// A source of these bytes.
fn source(alloc: Global, input: &[u8], failing: &[u64]) -> Result<MemSource, AllocError> {
    let failing = Vec::from_slice(alloc, failing)?;
    Ok(MemSource::new(Vec::from_slice(alloc, input)?, 7, failing))
}

impl<'a> Run<'a> {
    fn of(words: &'a str, input: &'a str) -> Run<'a> {
        Run::over(words, input.as_bytes())
    }

    fn over(words: &'a str, input: &'a [u8]) -> Run<'a> {
        Run {
            words,
            input,
            failing_reads: &[],
            failing_writes: &[],
            failing_lines: &[],
        }
    }

    /// What the call answers.
    fn answer<R: Threads + Wait + Sync>(
        &self,
        rt: &R,
        alloc: Global,
    ) -> Result<Answered, AllocError> {
        let mut out = sink(alloc, 900, self.failing_writes)?;
        let mut err = sink(alloc, 200, self.failing_lines)?;
        let (status, passes) = self.call(rt, alloc, &mut out, &mut err)?;
        Ok(Answered {
            status,
            passes,
            out,
            err,
        })
    }

    /// The status, and how many passes the table's area had.
    fn call<R: Threads + Wait + Sync>(
        &self,
        rt: &R,
        alloc: Global,
        out: &mut MemSink,
        err: &mut MemSink,
    ) -> Result<(u8, usize), AllocError> {
        let mut source = source(alloc, self.input, self.failing_reads)?;
        let words = owned(alloc, self.words)?;
        let result = join_tables(rt, alloc, words.as_slice(), &mut source, out, err);
        Ok(match result {
            Ok(joined) => (TABLE, joined.areas.len()),
            Err(status) => (status, 0),
        })
    }
}

/// Checks what the call answers to each run: the status, the records and the line.
fn check<R: Threads + Wait + Sync>(
    rt: &R,
    alloc: Global,
    runs: &[(Run<'_>, u8, &str, &str)],
) -> Result<(), Fail> {
    for (run, status, out, err) in runs {
        let answer = run.answer(rt, alloc)?;
        if !answer.is(*status, out.as_bytes(), err.as_bytes()) {
            return Err(Fail::new("another answer"));
        }
    }
    Ok(())
}

#[test]
fn any_number_of_workers_gives_the_same_bytes(rt: HostRuntime) -> Result<(), Fail> {
    for (words, passes) in [
        ("join id 0", 1),
        ("join id 1", 2),
        ("join id 3", 4),
        ("join id 64", 65),
    ] {
        let answer = Run::of(words, TWO).answer(&rt, rt.alloc())?;
        assert!(rt; answer.is(TABLE, JOINED.as_bytes(), b""), "{words}");
        assert_eq!(rt; answer.passes, passes);
    }
    Ok(())
}

#[test]
fn tables_that_join(rt: HostRuntime) -> Result<(), Fail> {
    let runs = [
        (
            Run::of(
                "join k 2",
                "k\n\"a,b\"\n\"x\"\"\"\n%\nv,k\n1,\"a,b\"\n2,\"x\"\"\"\n",
            ),
            0,
            "k,v,k\n\"a,b\",1,\"a,b\"\n\"x\"\"\",2,\"x\"\"\"\n",
            "",
        ),
        (Run::of("join id 1", "id\n%\nid\n"), 0, "id,id\n", ""),
        // A second such line is a record as any other.
        (
            Run::of("join id 1", "id\n1\n%\nid\n1\n%\n"),
            0,
            "id,id\n1,1\n",
            "",
        ),
        (
            Run::of("join id 0", "id\n%x\n %\n%\nid\n%x\n"),
            0,
            "id,id\n%x,%x\n",
            "",
        ),
        // The name stands for the first field with its bytes, and may have a comma.
        (
            Run::of("join a,b 0", "\"a,b\",\"a,b\"\n1,2\n%\n\"a,b\"\n2\n1\n"),
            0,
            "\"a,b\",\"a,b\",\"a,b\"\n1,2,1\n",
            "",
        ),
    ];
    check(&rt, rt.alloc(), &runs)
}

#[test]
fn words_that_are_none(rt: HostRuntime) -> Result<(), Fail> {
    for words in [
        "join",
        "join id",
        "join id 1 1",
        "join  1",
        "join id 65",
        "join id 000001",
        "join id -1",
        "join id ",
        "merge id 1",
    ] {
        let run = Run {
            failing_reads: &[1],
            ..Run::of(words, TWO)
        };
        let answer = run.answer(&rt, rt.alloc())?;
        assert!(rt; answer.is(MISUSED, b"", USAGE.as_bytes()), "{words}");
    }
    Ok(())
}

#[test]
fn tables_and_columns_that_lack(rt: HostRuntime) -> Result<(), Fail> {
    let runs = [
        (
            Run::of("join id 1", "id\n1\n"),
            2,
            "",
            "pargather: no second table\n",
        ),
        (
            Run::of("join id 1", "id\n1\n%"),
            2,
            "",
            "pargather: no second table\n",
        ),
        (
            Run::of("join id 1", "%\nid\n1\n"),
            2,
            "",
            "pargather: no left header\n",
        ),
        (
            Run::of("join id 1", "id\n1\n%\n"),
            2,
            "",
            "pargather: no right header\n",
        ),
        (
            Run::of("join id 1", "%\n"),
            2,
            "",
            "pargather: no left header\n",
        ),
        (
            Run::of("join a 1", TWO),
            2,
            "",
            "pargather: no right column a\n",
        ),
        (
            Run::of("join b 1", TWO),
            2,
            "",
            "pargather: no left column b\n",
        ),
        (
            Run::of("join c 1", "a\n1,2\n%\nb\n1,2\n"),
            2,
            "",
            "pargather: no left column c\n",
        ),
    ];
    check(&rt, rt.alloc(), &runs)
}

#[test]
fn refused_rows(rt: HostRuntime) -> Result<(), Fail> {
    let runs = [
        (
            Run::of("join id 3", "id,a\n1,x\n2\n%\nid\n1,2\n"),
            1,
            "",
            "pargather: left row 2: wrong number of fields\n",
        ),
        (
            Run::of("join id 3", "id,a\n1,x\n%\nid\n1\n1,2\n"),
            1,
            "",
            "pargather: right row 2: wrong number of fields\n",
        ),
        // The empty last line of the left table is no record.
        (
            Run::of("join id 0", "id\n1\n\n%\nid\n1,2\n"),
            1,
            "",
            "pargather: right row 1: wrong number of fields\n",
        ),
    ];
    check(&rt, rt.alloc(), &runs)
}

/// Two tables with a key of this many bytes in either.
fn with_keys(alloc: Global, left: u64, right: u64) -> Result<Vec<u8>, AllocError> {
    let mut text = Vec::from_slice(alloc, b"id\n")?;
    for _ in 0..left {
        text.push(b'k')?;
    }
    text.extend_from_slice(b"\n%\nid\n")?;
    for _ in 0..right {
        text.push(b'k')?;
    }
    text.push(b'\n')?;
    Ok(text)
}

#[test]
fn longer_keys(rt: HostRuntime) -> Result<(), Fail> {
    let left = with_keys(rt.alloc(), 249, 249)?;
    let right = with_keys(rt.alloc(), 248, 249)?;
    let runs = [
        (
            Run::over("join id 1", &left),
            1,
            "",
            "pargather: left row 1: join key is longer than 248 bytes\n",
        ),
        (
            Run::over("join id 1", &right),
            1,
            "",
            "pargather: right row 1: join key is longer than 248 bytes\n",
        ),
    ];
    check(&rt, rt.alloc(), &runs)
}

#[test]
fn faults(rt: HostRuntime) -> Result<(), Fail> {
    let runs = [
        // A read fault comes before what the bytes would say.
        (
            Run {
                failing_reads: &[2],
                ..Run::of("join id 1", "id\n1\n")
            },
            3,
            "",
            "pargather: read fault\n",
        ),
        (
            Run {
                failing_writes: &[3],
                ..Run::of("join id 1", TWO)
            },
            4,
            "id,a,id,b\n",
            "pargather: write fault\n",
        ),
        // A write that would fail is not reached.
        (
            Run {
                failing_writes: &[1],
                ..Run::of("join a 1", TWO)
            },
            2,
            "",
            "pargather: no right column a\n",
        ),
        // A line that cannot be written changes no status.
        (
            Run {
                failing_lines: &[4],
                ..Run::of("join a 1", TWO)
            },
            2,
            "",
            "pargather: ",
        ),
    ];
    check(&rt, rt.alloc(), &runs)
}
