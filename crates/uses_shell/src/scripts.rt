//! Worked rows: scripts, and what `parsh` answers to each line.

use par_io::{MemSink, MemSource};
use par_shell::{ANSWERED, MISUSED, READ_FAULT, WRITE_FAULT, parsh};
use std::alloc::{AllocError, Global};
use std::sync::Wait;
use std::test::Fail;

/// A line of a script, and its answer.
type Turn = (&'static str, &'static str);

/// What a run gave.
#[derive(Drop)]
struct Ran {
    status: u8,
    out: MemSink,
    err: MemSink,
    has_shell: bool,
}

impl Ran {
    fn gave(&self, status: u8, out: &[u8], err: &[u8], has_shell: bool) -> bool {
        self.status == status
            && self.out.written() == out
            && self.err.written() == err
            && self.has_shell == has_shell
    }
}

/// The words of a text.
fn owned(alloc: Global, words: &str) -> Result<Vec<String>, AllocError> {
    let mut list = Vec::new(alloc);
    for word in words.split_whitespace() {
        list.push(String::from_str(alloc, word)?)?;
    }
    Ok(list)
}

/// A source that gives 7 bytes a call, of which these fail.
fn source(alloc: Global, script: &[u8], failing: &[u64]) -> Result<MemSource, AllocError> {
    let failing = Vec::from_slice(alloc, failing)?;
    Ok(MemSource::new(Vec::from_slice(alloc, script)?, 7, failing))
}

/// A sink that takes 5 bytes a call, of which these fail.
fn sink(alloc: Global, room: usize, failing: &[u64]) -> Result<MemSink, AllocError> {
    MemSink::new(alloc, 5, room, Vec::from_slice(alloc, failing)?)
}

/// A run over such a source and such sinks, with the numbers of the calls that fail. The words are separated by spaces,
/// and there are none in an empty text.
fn run<R: Wait>(
    rt: &R,
    alloc: Global,
    words: &str,
    script: &[u8],
    failing_reads: &[u64],
    failing_writes: &[u64],
) -> Result<Ran, AllocError> {
    let mut out = sink(alloc, 4000, failing_writes)?;
    let mut err = sink(alloc, 200, &[])?;
    let mut source = source(alloc, script, failing_reads)?;
    let list = owned(alloc, words)?;
    let mut left = None;
    let status = parsh(
        rt,
        alloc,
        list.as_slice(),
        &mut source,
        &mut out,
        &mut err,
        &mut left,
    );
    Ok(Ran {
        status,
        out,
        err,
        has_shell: left.is_some(),
    })
}

/// The script of some turns, and its answers.
fn texts_of(alloc: Global, turns: &[Turn]) -> Result<(Vec<u8>, Vec<u8>), AllocError> {
    let mut script = Vec::new(alloc);
    let mut wanted = Vec::new(alloc);
    for (line, answer) in turns {
        script.extend_from_slice(line.as_bytes())?;
        script.push(b'\n')?;
        wanted.extend_from_slice(answer.as_bytes())?;
        wanted.push(b'\n')?;
    }
    Ok((script, wanted))
}

/// Whether each line of a script has its answer.
fn answers<R: Wait>(
    rt: &R,
    alloc: Global,
    words: &str,
    turns: &[Turn],
) -> Result<bool, AllocError> {
    let (script, wanted) = texts_of(alloc, turns)?;
    let ran = run(rt, alloc, words, script.as_slice(), &[], &[])?;
    Ok(ran.gave(ANSWERED, wanted.as_slice(), b"", true))
}

/// The wholly free superblock stays, so no other class finds 16 pages.
const SMALL: [Turn; 4] = [
    ("alloc a 24", "ok 24"),
    ("alloc b 16", "nospace 16 0"),
    ("free a", "ok"),
    ("alloc b 16", "nospace 16 0"),
];

/// An area of 64 pages or more.
const USUAL: [Turn; 12] = [
    ("alloc a 8192", "ok 8192"),
    ("alloc b 8193", "ok 12288"),
    ("alloc a 8", "named"),
    ("alloc c 0", "?"),
    ("store a 1023 9", "ok"),
    ("load a 1023", "9"),
    ("store a 1024 9", "range"),
    ("free z", "noname"),
    ("load z 0", "noname"),
    ("free b", "ok"),
    ("alloc b 1073741824", "nospace 262144 48"),
    ("alloc b 1073741825", "?"),
];

#[test]
fn chunks_are_granted_and_taken_back(rt: HostRuntime) -> Result<(), Fail> {
    assert!(rt; answers(&rt, rt.alloc(), "--pages 16", &SMALL)?);
    assert!(rt; answers(&rt, rt.alloc(), "--pages 64", &USUAL)?);
    assert!(rt; answers(&rt, rt.alloc(), "", &USUAL)?);
    assert!(rt;
        answers(
            &rt,
            rt.alloc(),
            "--pages 0",
            &[("alloc a 1", "nospace 16 0")]
        )?
    );
    Ok(())
}

/// A frame that waits for room.
const PARTIAL: [Turn; 12] = [
    ("ring q 4 0 64", "ok"),
    ("ring q 4 0 64", "named"),
    ("send q abcdefgh12", "sent"),
    ("send q xyz", "again 1"),
    ("send q abc", "pending"),
    ("recv q", "got 10 abcdefgh12"),
    ("send q xyz", "sent"),
    ("detach q sender", "ok"),
    ("recv q", "got 3 xyz"),
    ("recv q", "detached"),
    ("send q a", "closed"),
    ("recv z", "noname"),
];

/// The frame of 6 words is larger than the ring and crosses the wrap of the counts.
const LARGE: [Turn; 8] = [
    ("ring q 4 18446744073709551614 40", "ok"),
    ("send q 0123456789012345678901234567890123456789", "again 4"),
    ("recv q", "again"),
    ("send q 0123456789012345678901234567890123456789", "sent"),
    ("recv q", "got 40 0123456789012345678901234567890123456789"),
    (
        "send q xxxxxxxxxxxxxxxxxxxxxxxxxxxxxxxxxxxxxxxxx",
        "toolong 41",
    ),
    ("send q", "sent"),
    ("recv q", "got 0"),
];

/// A receiver that leaves.
const GONE: [Turn; 5] = [
    ("ring q 4 0 64", "ok"),
    ("recv q", "again"),
    ("detach q receiver", "ok"),
    ("send q a", "detached"),
    ("recv q", "closed"),
];

/// A ring of one word.
const SMALLEST: [Turn; 5] = [
    ("ring p 1 0 8", "ok"),
    ("send p a", "again 1"),
    ("recv p", "again"),
    ("send p a", "sent"),
    ("recv p", "got 1 a"),
];

#[test]
fn rings_carry_texts(rt: HostRuntime) -> Result<(), Fail> {
    assert!(rt; answers(&rt, rt.alloc(), "", &PARTIAL)?);
    assert!(rt; answers(&rt, rt.alloc(), "", &LARGE)?);
    assert!(rt; answers(&rt, rt.alloc(), "", &GONE)?);
    assert!(rt; answers(&rt, rt.alloc(), "", &SMALLEST)?);
    Ok(())
}

/// Frames that are shown by quarters of the ring.
const POSTS: [Turn; 7] = [
    ("ring q 16 0 64", "ok"),
    ("post q ab", "sent"),
    ("recv q", "again"),
    ("post q ab", "sent"),
    ("recv q", "again"),
    ("post q ab", "sent"),
    ("recv q", "got 2 ab"),
];

#[test]
fn posts_are_seen_by_quarters(rt: HostRuntime) -> Result<(), Fail> {
    assert!(rt; answers(&rt, rt.alloc(), "", &POSTS)?);
    Ok(())
}

/// A table of contents that is filled, frozen and read.
const FREEZES: [Turn; 17] = [
    ("toc alloc t 10", "ok 32"),
    ("toc insert 5 t", "ok"),
    ("toc insert 5 t", "keythere"),
    ("toc alloc u 944", "tocfull 960 944"),
    ("toc alloc u 928", "ok 928"),
    ("toc insert 6 u", "ok"),
    ("toc insert 7 u", "tocfull 16 0"),
    ("toc find 5", "notfrozen"),
    ("toc freeze", "ok"),
    ("toc attach 8", "wrongmagic 7"),
    ("toc attach 7", "ok"),
    ("toc find 5", "found t"),
    ("toc find 9", "none"),
    ("toc insert 7 u", "frozen"),
    ("free t", "stranger"),
    ("store t 3 77", "ok"),
    ("load t 3", "77"),
];

/// What is found when it is no longer named.
const PLACE: [Turn; 9] = [
    ("alloc a 5000", "ok 5456"),
    ("toc insert 1 a", "ok"),
    ("toc freeze", "ok"),
    ("toc freeze", "frozen"),
    ("toc find 1", "found a"),
    ("free a", "ok"),
    ("toc find 1", "found"),
    ("alloc b 5000", "ok 5456"),
    ("toc find 1", "found b"),
];

#[test]
fn the_table_of_contents_freezes(rt: HostRuntime) -> Result<(), Fail> {
    assert!(rt; answers(&rt, rt.alloc(), "", &FREEZES)?);
    assert!(rt; answers(&rt, rt.alloc(), "", &PLACE)?);
    Ok(())
}

/// Two that attach.
const TWO: [Turn; 14] = [
    ("bar new b 2", "ok"),
    ("bar attach b 0", "phase 0"),
    ("bar attach b 1", "phase 0"),
    ("bar attach b 1", "there"),
    ("bar arrive b 0", "wait"),
    ("bar arrive b 0", "twice"),
    ("bar look b 0", "wait"),
    ("bar arrive b 1", "elected 1"),
    ("bar look b 0", "released 1"),
    ("bar arrive b 0", "wait"),
    ("bar detach b 1", "left 2"),
    ("bar look b 0", "elected 2"),
    ("bar detach b 0", "last 2"),
    ("bar arrive b 0", "absent"),
];

/// What is not there.
const ONE: [Turn; 3] = [
    ("bar attach z 0", "noname"),
    ("bar new c 1", "ok"),
    ("bar attach c 1", "range"),
];

#[test]
fn barriers_have_phases(rt: HostRuntime) -> Result<(), Fail> {
    assert!(rt; answers(&rt, rt.alloc(), "", &TWO)?);
    assert!(rt; answers(&rt, rt.alloc(), "", &ONE)?);
    Ok(())
}

/// Lines that are no command, and such as are at the limits of one.
const NO_COMMANDS: [Turn; 23] = [
    ("hello", "?"),
    ("", "?"),
    (" alloc a 1", "?"),
    ("alloc  a 1", "?"),
    ("alloc a 1 ", "?"),
    ("alloc a 24\r", "?"),
    ("alloc a 99999999999999999999", "?"),
    ("alloc a 00000000000000000024", "ok 24"),
    ("alloc b 000000000000000000024", "?"),
    ("load a 18446744073709551616", "?"),
    ("load a 18446744073709551615", "range"),
    (
        "free 0123456789012345678901234567890123456789012345678901234567890123",
        "noname",
    ),
    (
        "free 01234567890123456789012345678901234567890123456789012345678901234",
        "?",
    ),
    ("ring q 3 0 8", "?"),
    ("ring q 2097152 0 8", "?"),
    ("ring q 4 0 1048577", "?"),
    ("send", "?"),
    ("send ", "?"),
    ("send q a b", "noname"),
    ("detach q both", "?"),
    ("bar new b 0", "?"),
    ("bar new b 65", "?"),
    ("bar leave b 1", "?"),
];

#[test]
fn lines_that_are_no_command(rt: HostRuntime) -> Result<(), Fail> {
    assert!(rt; answers(&rt, rt.alloc(), "", &NO_COMMANDS)?);
    Ok(())
}

/// Words, a script, the reads and the writes that fail, and what is given: the status, the answers, the line on the
/// error stream, and whether there is a shell left.
type End = (
    &'static str,
    &'static str,
    &'static [u64],
    &'static [u64],
    u8,
    &'static str,
    &'static str,
    bool,
);

const TWO_LINES: &str = "alloc a 24\nhello";

const ENDS: [End; 6] = [
    ("", "", &[], &[], ANSWERED, "", "", true),
    ("", TWO_LINES, &[], &[], ANSWERED, "ok 24\n?\n", "", true),
    (
        "--pages 4097",
        TWO_LINES,
        &[1],
        &[],
        MISUSED,
        "",
        "parsh: usage: parsh [--pages N]\n",
        false,
    ),
    (
        "",
        TWO_LINES,
        &[2],
        &[],
        READ_FAULT,
        "",
        "parsh: read fault\n",
        false,
    ),
    (
        "",
        TWO_LINES,
        &[],
        &[1],
        WRITE_FAULT,
        "",
        "parsh: write fault\n",
        false,
    ),
    (
        "",
        TWO_LINES,
        &[],
        &[2],
        WRITE_FAULT,
        "ok 24",
        "parsh: write fault\n",
        false,
    ),
];

#[test]
fn ends_with_a_status(rt: HostRuntime) -> Result<(), Fail> {
    for (words, script, reads, writes, status, out, err, has_shell) in ENDS {
        let ran = run(&rt, rt.alloc(), words, script.as_bytes(), reads, writes)?;
        assert!(rt;
            ran.gave(status, out.as_bytes(), err.as_bytes(), has_shell),
            "{words}: {status}"
        );
    }
    Ok(())
}

/// A table of numbers: each line and its answer.
const NUMBERS: [Turn; 12] = [
    ("get k", "notable"),
    ("table", "ok"),
    ("put k 5", "new"),
    ("put k 6", "old 5"),
    ("get k", "6"),
    ("del k", "6"),
    ("get k", "none"),
    ("fill 1000", "new 1000"),
    ("fill 1000", "new 0"),
    ("total", "total 1000 500500"),
    ("put m 18446744073709551615", "new"),
    ("total", "total 1001 18446744073710052115"),
];

/// An area without pages.
const NO_ROOM: [Turn; 3] = [
    ("table", "nospace 16 0"),
    ("put k 5", "notable"),
    ("total", "notable"),
];

/// The slices of the table take a superblock; there is none for items.
const FULL: [Turn; 8] = [
    ("total", "notable"),
    ("table", "ok"),
    ("table", "ok"),
    ("put k 5", "nospace 16 0"),
    ("get k", "none"),
    ("del k", "none"),
    ("fill 3", "nospace 16 0"),
    ("total", "total 0 0"),
];

/// Lines that are no command.
const NO_NUMBERS: [Turn; 6] = [
    ("fill 0", "?"),
    ("fill 100001", "?"),
    ("put k 18446744073709551616", "?"),
    ("put k", "?"),
    ("total 1", "?"),
    ("del k k", "?"),
];

#[test]
fn the_table_keeps_numbers(rt: HostRuntime) -> Result<(), Fail> {
    assert!(rt; answers(&rt, rt.alloc(), "--pages 1024", &NUMBERS)?);
    assert!(rt; answers(&rt, rt.alloc(), "--pages 0", &NO_ROOM)?);
    assert!(rt; answers(&rt, rt.alloc(), "--pages 16", &FULL)?);
    assert!(rt; answers(&rt, rt.alloc(), "", &NO_NUMBERS)?);
    Ok(())
}

/// What the table of numbers gives if these calls fail.
fn run_numbers<R: Wait>(
    rt: &R,
    alloc: Global,
    script: &[u8],
    reads: &[u64],
    writes: &[u64],
) -> Result<Ran, AllocError> {
    run(rt, alloc, "--pages 1024", script, reads, writes)
}

#[test]
fn each_read_fails_in_turn(rt: HostRuntime) -> Result<(), Fail> {
    let (script, wanted) = texts_of(rt.alloc(), &NUMBERS)?;
    // Pieces of 7 bytes, and one more read that finds the end.
    let reads = script.len().div_ceil(7) as u64 + 1;
    for call in 1..=reads {
        let ran = run_numbers(&rt, rt.alloc(), script.as_slice(), &[call], &[])?;
        assert!(rt;
            ran.gave(READ_FAULT, b"", b"parsh: read fault\n", false),
            "{call}"
        );
    }
    let ran = run_numbers(&rt, rt.alloc(), script.as_slice(), &[reads + 1], &[])?;
    assert!(rt; ran.gave(ANSWERED, wanted.as_slice(), b"", true));
    Ok(())
}

#[test]
fn each_write_fails_in_turn(rt: HostRuntime) -> Result<(), Fail> {
    let (script, wanted) = texts_of(rt.alloc(), &NUMBERS)?;
    let writes = wanted.len().div_ceil(5);
    for call in 1..=writes {
        let ran = run_numbers(&rt, rt.alloc(), script.as_slice(), &[], &[call as u64])?;
        let front = &wanted.as_slice()[..5 * (call - 1)];
        assert!(rt;
            ran.gave(WRITE_FAULT, front, b"parsh: write fault\n", false),
            "{call}"
        );
    }
    let ran = run_numbers(
        &rt,
        rt.alloc(),
        script.as_slice(),
        &[],
        &[writes as u64 + 1],
    )?;
    assert!(rt; ran.gave(ANSWERED, wanted.as_slice(), b"", true));
    Ok(())
}
