//! What the words that begin with `merge`, `join` and `gen` answer, and that to the call in the caller's thread they are
//! no plan. More rows of joins stand in `joins`, and of generated rows in `generated`.

use super::{
    Answered, Call, Failing, LETTERS, NO_FAULTS, Pieces, Said, USAGE, Wanted, ask, bytes_of, check,
};
use par_gather::OpenGate;
use std::alloc::Global;
use std::process::Abort;
use std::sync::Wait;
use std::thread::Threads;

/// Words, the input, the calls that fail, and what is answered: the status, and what the two sinks were given.
type Row = (
    &'static str,
    Pieces<'static>,
    Failing<'static>,
    u8,
    &'static str,
    &'static str,
);

const PAIRS: Pieces<'static> = &[("g,v\nb,1\na,2\nb,0\na,1\n", 1)];

const TWO: Pieces<'static> = &[("id,a\n1,x\n2,y\n1,z\n%\nid,b\n1,p\n1,t\n", 1)];

/// Quotes, a comma and an end of line in fields; bytes are compared, and a front comes before what is longer.
const QUOTED: Pieces<'static> = &[(
    "g,v\r\n\"b\nc\",1\r\nb,\"2,0\"\r\n\"\",\"a\"\"b\"\r\nB,3\r\n",
    1,
)];

const MERGE_USAGE: &str = "pargather: usage: pargather merge COLUMNS N\n";

const JOINED: &str = "id,a,id,b\n1,x,1,p\n1,x,1,t\n1,z,1,p\n1,z,1,t\n";

const ROWS: &[Row] = &[
    (
        "merge g 2",
        PAIRS,
        NO_FAULTS,
        0,
        "g,v\na,2\na,1\nb,1\nb,0\n",
        "",
    ),
    (
        "merge v,g 0",
        PAIRS,
        NO_FAULTS,
        0,
        "g,v\nb,0\na,1\nb,1\na,2\n",
        "",
    ),
    (
        "merge g 1",
        QUOTED,
        NO_FAULTS,
        0,
        "g,v\n,\"a\"\"b\"\nB,3\nb,\"2,0\"\n\"b\nc\",1\n",
        "",
    ),
    ("merge g 3", &[("g,v\n", 1)], NO_FAULTS, 0, "g,v\n", ""),
    (
        "merge w 1",
        PAIRS,
        NO_FAULTS,
        2,
        "",
        "pargather: no column w\n",
    ),
    ("merge g 1", &[], NO_FAULTS, 2, "", "pargather: no header\n"),
    ("merge g", PAIRS, NO_FAULTS, 2, "", MERGE_USAGE),
    ("merge", PAIRS, NO_FAULTS, 2, "", MERGE_USAGE),
    ("merge g 1 2", PAIRS, NO_FAULTS, 2, "", MERGE_USAGE),
    ("merge g, 1", PAIRS, NO_FAULTS, 2, "", MERGE_USAGE),
    ("merge g 65", PAIRS, NO_FAULTS, 2, "", MERGE_USAGE),
    ("merge g +1", PAIRS, NO_FAULTS, 2, "", MERGE_USAGE),
    (
        "merge g 1",
        &[("g,v\nb\n", 1)],
        NO_FAULTS,
        1,
        "",
        "pargather: row 1: wrong number of fields\n",
    ),
    (
        "merge g 2",
        PAIRS,
        Failing {
            reads: &[2],
            writes: &[],
            lines: &[],
        },
        3,
        "",
        "pargather: read fault\n",
    ),
    (
        "merge g 2",
        PAIRS,
        Failing {
            reads: &[],
            writes: &[3],
            lines: &[],
        },
        4,
        "g,v\na,2\na,",
        "pargather: write fault\n",
    ),
    ("join id 0", TWO, NO_FAULTS, 0, JOINED, ""),
    ("join id 3", TWO, NO_FAULTS, 0, JOINED, ""),
    (
        "join b 1",
        TWO,
        NO_FAULTS,
        2,
        "",
        "pargather: no left column b\n",
    ),
    (
        "join id",
        TWO,
        NO_FAULTS,
        2,
        "",
        "pargather: usage: pargather join COLUMN N\n",
    ),
    // the source is not read: its first read would fail
    (
        "gen 1 1",
        LETTERS,
        Failing {
            reads: &[1],
            writes: &[],
            lines: &[],
        },
        0,
        "rows 1 groups 1 sum -1000\n",
        "",
    ),
    ("gen 1 0", &[], NO_FAULTS, 0, "rows 0 groups 0 sum 0\n", ""),
    (
        "gen 1 2",
        &[],
        NO_FAULTS,
        0,
        "rows 2 groups 2 sum -56\n",
        "",
    ),
    ("gen 0 5", &[], NO_FAULTS, 2, "", USAGE),
    (
        "gen 1 4194305",
        LETTERS,
        Failing {
            reads: &[1],
            writes: &[],
            lines: &[],
        },
        2,
        "",
        USAGE,
    ),
    ("gen 1", &[], NO_FAULTS, 2, "", USAGE),
    ("gen", &[], NO_FAULTS, 2, "", USAGE),
    (
        "gen 1 2",
        &[],
        Failing {
            reads: &[],
            writes: &[2],
            lines: &[2],
        },
        4,
        "rows ",
        "parga",
    ),
    ("generate 1 2", LETTERS, NO_FAULTS, 2, "", USAGE),
];

#[test]
fn answers_worked_rows(rt: HostRuntime) {
    for (words, input, failing, status, out, line) in ROWS {
        let input = bytes_of(&rt, rt.alloc(), input);
        let wanted = Wanted::of(*status, out.as_bytes(), line.as_bytes());
        Call::WithWorkers.check(&rt, rt.alloc(), words, input.as_slice(), *failing, wanted);
    }
}

/// To the call in the caller's thread these words are no plan.
#[test]
fn no_plan_alone(rt: HostRuntime) {
    let input = bytes_of(&rt, rt.alloc(), TWO);
    for words in ["merge g 2", "join id 2", "gen 1 2"] {
        let wanted = Wanted::of(2, b"", USAGE.as_bytes());
        Call::Alone.check(&rt, rt.alloc(), words, input.as_slice(), NO_FAULTS, wanted);
    }
}

/// 2,000 rows, of which row i has i modulo 7.
const SEVENS: Pieces<'static> = &[
    ("n\n", 1),
    ("1\n2\n3\n4\n5\n6\n0\n", 285),
    ("1\n2\n3\n4\n5\n", 1),
];

/// The same in order.
const SEVENS_IN_ORDER: Pieces<'static> = &[
    ("n\n", 1),
    ("0\n", 285),
    ("1\n", 286),
    ("2\n", 286),
    ("3\n", 286),
    ("4\n", 286),
    ("5\n", 286),
    ("6\n", 285),
];

/// What the words answer over these pieces.
fn ask_over<R: Abort + Threads + Wait + Sync>(
    rt: &R,
    alloc: Global,
    words: &str,
    pieces: Pieces<'_>,
) -> Answered {
    let input = bytes_of(rt, alloc, pieces);
    ask(rt, alloc, words, input, NO_FAULTS, &OpenGate)
}

/// Stops the test unless the words put the 2,000 rows in this order, and say so.
fn check_merged<R: Abort + Threads + Wait + Sync>(
    rt: &R,
    alloc: Global,
    words: &str,
    sorted: &[u8],
) {
    let answer = ask_over(rt, alloc, words, SEVENS);
    check(rt, words, &answer, Wanted::of(0, sorted, b""));
    assert!(rt;
        matches!(answer.said, Said::Merged { rows: 2_000, .. }),
        "{words}"
    );
}

#[test]
fn two_thousand_rows(rt: HostRuntime) {
    let sorted = bytes_of(&rt, rt.alloc(), SEVENS_IN_ORDER);
    for words in ["merge n 0", "merge n 1", "merge n 3"] {
        check_merged(&rt, rt.alloc(), words, sorted.as_slice());
    }
}

/// What is said of a run over two small tables.
fn said_over<R: Abort + Threads + Wait + Sync>(rt: &R, alloc: Global, words: &str) -> Said {
    ask_over(rt, alloc, words, TWO).said
}

/// Of joined records the join is said: a pass of the table's area for each worker and one for the caller.
#[test]
fn said_of_a_join(rt: HostRuntime) {
    let alone = said_over(&rt, rt.alloc(), "join id 0");
    assert!(rt;
        matches!(
            alone,
            Said::Joined {
                passes: 1,
                pairs: 4
            }
        )
    );
    let with_three = said_over(&rt, rt.alloc(), "join id 3");
    assert!(rt;
        matches!(
            with_three,
            Said::Joined {
                passes: 4,
                pairs: 4
            }
        )
    );
}

/// Of generated rows their groups are said, which two workers were asked for.
#[test]
fn said_of_generated_rows(rt: HostRuntime) {
    let said = said_over(&rt, rt.alloc(), "gen 7 5000");
    assert!(rt; matches!(said, Said::Gathered { launched: 2, groups } if groups > 900));
}
