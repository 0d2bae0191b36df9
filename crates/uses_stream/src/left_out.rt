//! Rows that are left out: worked rows, whose tables and lines were made by hand.

use crate::decimals::USAGE;
use crate::windows::{Answer, answer_of, sink, source_of, words_of};
use good_stream::good_table;
use par_stream::{Separated, Untold};
use std::alloc::{AllocError, Global};
use std::sync::Wait;
use std::test::Fail;
use std::thread::Threads;

/// Words, how many rows may be left out, the input, and the status with the table and the line after the program's name.
type Row = (
    &'static str,
    u64,
    &'static str,
    u8,
    &'static str,
    &'static str,
);

const BAD: &str = "g,v\na,1\nb,1x\n\na,2\nc\n";

const ROWS: [Row; 14] = [
    // as many as there are, or fewer
    (
        "--group g --agg count,sum:v",
        2,
        BAD,
        0,
        "g,count,sum(v)\na,2,3\n",
        ": rows left out: 2; the first: row 2 (line 3): column \"v\" is not an integer: \"1x\"\n",
    ),
    (
        "--group g --agg count,sum:v",
        1,
        BAD,
        1,
        "",
        ": row 2 (line 3): column \"v\" is not an integer: \"1x\"\n",
    ),
    (
        "--agg sum:v",
        0,
        BAD,
        1,
        "",
        ": row 2 (line 3): column \"v\" is not an integer: \"1x\"\n",
    ),
    // none, and a row that a filter leaves out is none of them
    ("--agg sum:v", 5, "g,v\na,1\n", 0, "sum(v)\n1\n", ""),
    ("--agg sum:v", 0, "g,v\na,1\n", 0, "sum(v)\n1\n", ""),
    (
        "--agg sum:v --where g=a",
        5,
        "g,v\na,1\nb,x\n",
        0,
        "sum(v)\n1\n",
        "",
    ),
    // every row, and the last one with a quote that is not closed
    (
        "--group v --agg count",
        9,
        "v\n1,2\n,\n",
        0,
        "v,count\n",
        ": rows left out: 2; the first: row 1 (line 2): wrong number of fields: 2, the header has 1\n",
    ),
    (
        "--agg count",
        3,
        "g,v\na,\"1\n1\"\n\"b\n",
        0,
        "count\n1\n",
        ": rows left out: 1; the first: row 2 (line 4): wrong number of fields: 1, the header has 2; the quote in line 4 is not closed\n",
    ),
    // another separator, and texts that are read as nothing
    (
        "--agg sum:v --separator ;",
        1,
        "g;v\na;1,5\nb;2\n",
        0,
        "sum(v)\n2\n",
        ": rows left out: 1; the first: row 1 (line 2): column \"v\" is not an integer: \"1,5\"\n",
    ),
    (
        "--agg sum:v --null NA --trim",
        1,
        "v\r\n NA\r\n 1x\r\n 3 \r\n",
        0,
        "sum(v)\n3\n",
        ": rows left out: 1; the first: row 2 (line 3): column \"v\" is not an integer: \"1x\"\n",
    ),
    // other reasons
    ("--agg sum:v", 3, "", 2, "", ": no header\n"),
    (
        "--agg sum:w",
        3,
        "v\nx\n",
        2,
        "",
        ": no column \"w\"; the header has 1: \"v\"\n",
    ),
    (
        "--agg sum:v",
        3,
        "v,v\n1,2\n",
        2,
        "",
        ": the header has column \"v\" twice: fields 1 and 2\n",
    ),
    ("--agg", 3, "v\n1\n", 2, "", USAGE),
];

/// What a query answers that leaves out this many rows at most, but for the program's name in the line.
fn answered<R: Threads + Wait + Sync>(
    rt: &R,
    alloc: Global,
    words: &str,
    most: u64,
    input: &str,
    size: usize,
) -> Result<Answer, AllocError> {
    let words = words_of(alloc, words)?;
    let mut out = sink(alloc)?;
    let mut err = sink(alloc)?;
    let mut source = Separated::new(source_of(alloc, input.as_bytes())?);
    let status = good_table(
        rt,
        alloc,
        words.as_slice(),
        most,
        &mut source,
        &mut out,
        &mut err,
        size,
        &mut Untold,
    );
    answer_of(alloc, status, &out, &err)
}

/// Whether the answer to a row is the one that it has, for each of several numbers of workers.
fn is_answered<R: Threads + Wait + Sync>(
    rt: &R,
    alloc: Global,
    row: Row,
) -> Result<bool, AllocError> {
    let (words, most, input, status, table, line) = row;
    for workers in ["0", "2"] {
        let words = format!(in alloc; "{words} --workers {workers}")?;
        let given = answered(rt, alloc, words.as_str(), most, input, 16)?;
        if given.status != status
            || given.out.as_slice() != table.as_bytes()
            || given.err.as_slice() != line.as_bytes()
        {
            return Ok(false);
        }
    }
    Ok(true)
}

#[test]
fn left_out(rt: HostRuntime) -> Result<(), Fail> {
    for row in ROWS {
        assert!(rt;
            is_answered(&rt, rt.alloc(), row)?,
            "{} over {}",
            row.0,
            row.2
        );
    }
    Ok(())
}
