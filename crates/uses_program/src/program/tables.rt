//! Worked rows of plans: words and bytes, and what each call answers. The values were computed apart from the program.

use super::{Failing, LETTERS, NO_FAULTS, Pieces, USAGE, Wanted, X_TWICE, bytes_of, check_each};

/// Words, the input, and the table that is written.
type Table = (&'static str, Pieces<'static>, Pieces<'static>);

/// Words, the input, and why there is no table: the status and the line.
type Refusal = (&'static str, Pieces<'static>, u8, &'static str);

/// Words, the input, the calls that fail, and what is answered: the status, and what the two sinks were given.
type Fault = (
    &'static str,
    Pieces<'static>,
    Failing<'static>,
    u8,
    &'static str,
    &'static str,
);

const EMPTY: Pieces<'static> = &[("g,v\n", 1)];

const FILTERED: Pieces<'static> = &[("g,v,w\na,1,5\nb,2,x\na,,7\nb,9,1\n", 1)];

const TABLES: &[Table] = &[
    // groups, aggregates, nulls, sums past 64 bits, averages of both signs
    (
        "--group g --agg count",
        LETTERS,
        &[("g,count\na,2\nb,1\n", 1)],
    ),
    (
        "--group g --agg sum:v,avg:v --workers 4",
        LETTERS,
        &[("g,sum(v),avg(v)\na,4,2.0000\nb,2,2.0000\n", 1)],
    ),
    ("--agg count,sum:v", EMPTY, &[("count,sum(v)\n0,\n", 1)]),
    ("--agg sum:v", EMPTY, &[("sum(v)\n\"\"\n", 1)]),
    ("--group g --agg count", EMPTY, &[("g,count\n", 1)]),
    (
        "--group g --agg count,count:v,avg:v",
        &[("g,v\na,\na,-1\na,0\na,0\n", 1)],
        &[("g,count,count(v),avg(v)\na,4,3,-0.3333\n", 1)],
    ),
    (
        "--agg sum:v",
        &[("v\n", 1), ("9223372036854775807\n", 2)],
        &[("sum(v)\n18446744073709551614\n", 1)],
    ),
    (
        "--agg count:v",
        &[("v\n9223372036854775808\n", 1)],
        &[("count(v)\n1\n", 1)],
    ),
    (
        "--group a,b --agg sum:v",
        &[("a,b,v\nx,yz,1\nxy,z,2\n", 1)],
        &[("a,b,sum(v)\nx,yz,1\nxy,z,2\n", 1)],
    ),
    (
        "--group k --agg count",
        &[("k\n", 1), ("x", 244), ("\n", 1)],
        &[("k,count\n", 1), ("x", 244), (",1\n", 1)],
    ),
    (
        "--agg avg:v",
        &[("v\n-1\n", 1), ("0\n", 31)],
        &[("avg(v)\n-0.0313\n", 1)],
    ),
    (
        "--agg avg:v",
        &[("v\n-1\n", 1), ("0\n", 19_999)],
        &[("avg(v)\n-0.0001\n", 1)],
    ),
    (
        "--agg avg:v",
        &[("v\n-1\n", 1), ("0\n", 20_000)],
        &[("avg(v)\n0.0000\n", 1)],
    ),
    (
        "--agg min:v,max:v",
        &[("v\n 7 \n-3\n+5\n", 1)],
        &[("min(v),max(v)\n-3,7\n", 1)],
    ),
    // a filter, and the refusals that it makes and spares
    (
        "--group g --agg count,sum:w --where v<2",
        FILTERED,
        &[("g,count,sum(w)\na,1,5\n", 1)],
    ),
    ("--agg count --where v!=1", FILTERED, &[("count\n2\n", 1)]),
    ("--agg count --where v>=-3", FILTERED, &[("count\n3\n", 1)]),
    ("--agg count --where v=9", FILTERED, &[("count\n1\n", 1)]),
    ("--agg count --where v<=2", FILTERED, &[("count\n2\n", 1)]),
    ("--agg count --where v>9", FILTERED, &[("count\n0\n", 1)]),
    (
        "--group k --agg count --where v=1",
        &[("k,v\n", 1), ("x", 245), (",0\n", 1)],
        &[("k,count\n", 1)],
    ),
    // text that is written oddly
    // quotes inside a field, after it, and never closed
    (
        "--group a --agg count",
        &[("a\nx\"y\n", 1)],
        &[("a,count\n\"x\"\"y\",1\n", 1)],
    ),
    (
        "--group a --agg count",
        &[("a\n\"x\"y\n", 1)],
        &[("a,count\nxy,1\n", 1)],
    ),
    (
        "--group a --agg count",
        &[("a\n\"x,\ny", 1)],
        &[("a,count\n\"x,\ny\",1\n", 1)],
    ),
    // lines that end in CR LF, and empty lines, which are no records
    (
        "--group g --agg sum:v",
        &[("g,v\r\na,1\r\n\r\na,2\r\n", 1)],
        &[("g,sum(v)\na,3\n", 1)],
    ),
    // a byte-order mark before the header
    (
        "--group g --agg count",
        &[("\u{FEFF}g\na\n", 1)],
        &[("g,count\na,1\n", 1)],
    ),
    // an empty field is null, quoted or not, and nulls form one group
    (
        "--group g --agg count,count:v",
        &[("g,v\n,1\n\"\",\"\"\n", 1)],
        &[("g,count,count(v)\n,2,1\n", 1)],
    ),
    // integers at the limits of 64 bits
    (
        "--agg min:v,max:v,sum:v",
        &[("v\n-9223372036854775808\n9223372036854775807\n", 1)],
        &[(
            "min(v),max(v),sum(v)\n-9223372036854775808,9223372036854775807,-1\n",
            1,
        )],
    ),
    // spaces and signs
    (
        "--agg sum:v",
        &[("v\n  +07  \n-0\n", 1)],
        &[("sum(v)\n7\n", 1)],
    ),
    // keys of 247, 248 and 249 bytes with the length of the one column
    (
        "--group k --agg count",
        &[("k\n", 1), ("x", 243), ("\n", 1)],
        &[("k,count\n", 1), ("x", 243), (",1\n", 1)],
    ),
    (
        "--group k --agg count",
        &[("k\n", 1), ("x", 244), ("\n", 1)],
        &[("k,count\n", 1), ("x", 244), (",1\n", 1)],
    ),
    // a name twice in the header is the first of the two, but not in `parstream`, which does not know `--plan`; columns and
    // items may be named twice
    (
        "--group g,g --agg count,count --plan gather",
        &[("g,v,g\na,1,b\n", 1)],
        &[("g,g,count,count\na,a,1,1\n", 1)],
    ),
    (
        "--agg count,sum:v --where v>=2 --plan hash --area-pages 0",
        LETTERS,
        &[("count,sum(v)\n2,5\n", 1)],
    ),
];

const REFUSALS: &[Refusal] = &[
    // a filter, and the refusals that it makes and spares
    (
        "--group g --agg count,sum:w --where v>=2",
        FILTERED,
        1,
        "pargather: row 2: column w is not an integer\n",
    ),
    (
        "--agg count --where w>0",
        FILTERED,
        1,
        "pargather: row 2: filter column w is not an integer\n",
    ),
    (
        "--agg count --where u=1",
        FILTERED,
        2,
        "pargather: no column u\n",
    ),
    ("--agg count --where v<", FILTERED, 2, USAGE),
    ("--agg count --where v==1", FILTERED, 2, USAGE),
    (
        "--group k --agg count --where v=0",
        &[("k,v\n", 1), ("x", 245), (",0\n", 1)],
        1,
        "pargather: row 1: group key is longer than 248 bytes\n",
    ),
    // what is no plan, no table's input, or has a refused row
    ("--agg count", &[], 2, "pargather: no header\n"),
    (
        "--agg sum:v",
        &[("v\n9223372036854775808\n", 1)],
        1,
        "pargather: row 1: column v is not an integer\n",
    ),
    (
        "--agg sum:v --workers 0",
        X_TWICE,
        1,
        "pargather: row 300: column v is not an integer\n",
    ),
    (
        "--group k --agg count",
        &[("k\n", 1), ("x", 245), ("\n", 1)],
        1,
        "pargather: row 1: group key is longer than 248 bytes\n",
    ),
    ("--agg sum:w", EMPTY, 2, "pargather: no column w\n"),
    ("--agg avg", EMPTY, 2, USAGE),
    ("--agg count --workers 65", EMPTY, 2, USAGE),
    ("", EMPTY, 2, USAGE),
    ("--help", EMPTY, 2, USAGE),
    ("--agg count --agg count", EMPTY, 2, USAGE),
    ("--agg count --sort g", EMPTY, 2, USAGE),
    (
        "--agg count",
        &[("a,b\n1\n", 1)],
        1,
        "pargather: row 1: wrong number of fields\n",
    ),
    // The names are looked up from the left: groups, aggregates, filter.
    (
        "--group x --agg sum:y --where z=1",
        EMPTY,
        2,
        "pargather: no column x\n",
    ),
    (
        "--group g --agg sum:y --where z=1",
        EMPTY,
        2,
        "pargather: no column y\n",
    ),
    // The leftmost aggregate of a field that is no integer is named.
    (
        "--agg count:g,max:v,sum:g",
        &[("g,v\na,1\nb,\na,x\n", 1)],
        1,
        "pargather: row 1: column g is not an integer\n",
    ),
    // text that is written oddly
    // a row too short, and one too long
    (
        "--agg count",
        &[("a,b\n1,2\n1\n", 1)],
        1,
        "pargather: row 2: wrong number of fields\n",
    ),
    (
        "--agg count",
        &[("a,b\n1,2,3\n", 1)],
        1,
        "pargather: row 1: wrong number of fields\n",
    ),
    (
        "--agg sum:v",
        &[("v\n-9223372036854775809\n", 1)],
        1,
        "pargather: row 1: column v is not an integer\n",
    ),
    (
        "--agg sum:v",
        &[("v\n1 2\n", 1)],
        1,
        "pargather: row 1: column v is not an integer\n",
    ),
    (
        "--agg sum:v",
        &[("v\n+-1\n", 1)],
        1,
        "pargather: row 1: column v is not an integer\n",
    ),
    (
        "--agg sum:v",
        &[("v\n \n", 1)],
        1,
        "pargather: row 1: column v is not an integer\n",
    ),
    (
        "--agg sum:v",
        &[("v\n1.5\n", 1)],
        1,
        "pargather: row 1: column v is not an integer\n",
    ),
    (
        "--agg sum:v",
        &[("v\n\t1\n", 1)],
        1,
        "pargather: row 1: column v is not an integer\n",
    ),
    (
        "--group k --agg count",
        &[("k\n", 1), ("x", 245), ("\n", 1)],
        1,
        "pargather: row 1: group key is longer than 248 bytes\n",
    ),
    // of two refused rows of one block the first is named
    (
        "--agg count:g,sum:v",
        &[("g,v\na,1\nb,x\nc,y\n", 1)],
        1,
        "pargather: row 2: column v is not an integer\n",
    ),
    (
        "--agg count,sum:v --where g=1",
        &[("g,v\n1,1\nb,x\n", 1)],
        1,
        "pargather: row 2: filter column g is not an integer\n",
    ),
    (
        "--group g --agg sum:w",
        LETTERS,
        2,
        "pargather: no column w\n",
    ),
];

const FAULTS: &[Fault] = &[
    // words are answered before anything is read
    (
        "--agg count --workers 65",
        LETTERS,
        Failing {
            reads: &[1],
            writes: &[],
            lines: &[],
        },
        2,
        "",
        USAGE,
    ),
    (
        "--group g --agg count",
        LETTERS,
        Failing {
            reads: &[2],
            writes: &[],
            lines: &[],
        },
        3,
        "",
        "pargather: read fault\n",
    ),
    (
        "--group g --agg count",
        LETTERS,
        Failing {
            reads: &[],
            writes: &[2],
            lines: &[],
        },
        4,
        "g,cou",
        "pargather: write fault\n",
    ),
    // a line that cannot be written changes no status
    (
        "--agg count",
        &[("a,b\n1\n", 1)],
        Failing {
            reads: &[],
            writes: &[],
            lines: &[5],
        },
        1,
        "",
        "pargather: row ",
    ),
];

#[test]
fn tables(rt: HostRuntime) {
    for (words, input, out) in TABLES {
        let input = bytes_of(&rt, rt.alloc(), input);
        let out = bytes_of(&rt, rt.alloc(), out);
        let wanted = Wanted::of(0, out.as_slice(), b"");
        check_each(&rt, rt.alloc(), words, input.as_slice(), NO_FAULTS, wanted);
    }
}

#[test]
fn refusals(rt: HostRuntime) {
    for (words, input, status, line) in REFUSALS {
        let input = bytes_of(&rt, rt.alloc(), input);
        let wanted = Wanted::of(*status, b"", line.as_bytes());
        check_each(&rt, rt.alloc(), words, input.as_slice(), NO_FAULTS, wanted);
    }
}

#[test]
fn faults(rt: HostRuntime) {
    for (words, input, failing, status, out, line) in FAULTS {
        let input = bytes_of(&rt, rt.alloc(), input);
        let wanted = Wanted::of(*status, out.as_bytes(), line.as_bytes());
        check_each(&rt, rt.alloc(), words, input.as_slice(), *failing, wanted);
    }
}

/// Bytes that are no text, in keys and in a column of integers.
#[test]
fn bytes_that_are_no_text(rt: HostRuntime) {
    let words = "--group g --agg sum:v";
    let keys = b"g,v\n\xFF,1\n\xC3,2\n\xFF,3\n\xC3\xA9,4\n".as_slice();
    let table = b"g,sum(v)\n\xC3,2\n\xC3\xA9,4\n\xFF,4\n".as_slice();
    let wanted = Wanted::of(0, table, b"");
    check_each(&rt, rt.alloc(), words, keys, NO_FAULTS, wanted);
    let integers = b"g,v\n\xFF,1\na,1\xFF\n".as_slice();
    let line = b"pargather: row 2: column v is not an integer\n".as_slice();
    let wanted = Wanted::of(1, b"", line);
    check_each(&rt, rt.alloc(), words, integers, NO_FAULTS, wanted);
}
