//! Other separators, nulls and white space: worked rows, whose tables were made apart from the program.

use crate::decimals::{Row, USAGE, is_answered};
use std::test::Fail;

const ROWS: [Row; 15] = [
    // a field has a comma, or the separator between quotes; the table has commas
    (
        "--group g --agg count,sum:v --separator ;",
        "g;v\na,b;1\n\"c;d\";2\na,b;3\n",
        0,
        "g,count,sum(v)\n\"a,b\",2,4\nc;d,1,2\n",
    ),
    (
        "--group g --agg sum:v --separator tab",
        "\u{feff}g\tv\n\"a\tb\"\t1\n\t2\n",
        0,
        "g,sum(v)\n,2\na\tb,1\n",
    ),
    // a quote begins a field in quotes only after the separator
    (
        "--group g --agg sum:v --separator |",
        "g|v\nx,\"y|1\n\"x,\"\"y\"|2\n",
        0,
        "g,sum(v)\n\"x,\"\"y\",3\n",
    ),
    // it may be a byte of numbers
    (
        "--group g --agg sum:v --separator 0",
        "g0v\na05\nb07\n",
        0,
        "g,sum(v)\na,5\nb,7\n",
    ),
    (
        "--agg sum:v --separator ,",
        "g,v\na,1\nb;c,2\n",
        0,
        "sum(v)\n3\n",
    ),
    // nulls are whole fields, between quotes too, and of keys and filters as well
    (
        "--group g --agg count:v,sum:v --null NA,-",
        "g,v\na,NA\na,-5\n-,1\na,\"NA\"\nNAN,-\n",
        0,
        "g,count(v),sum(v)\n,1,1\nNAN,0,\na,1,-5\n",
    ),
    (
        "--agg count --where g!=a --null NA",
        "g,v\na,1\nNA,2\nb,3\n",
        0,
        "count\n1\n",
    ),
    // white space goes first, also between quotes
    (
        "--group g --agg count:v,sum:v --trim --null NA",
        " g ,\tv\na, NA \n\"a \",4\n a,x\u{20}\n",
        1,
        ": row 3 (line 4): column \"v\" is not an integer: \"x\"; see --null\n",
    ),
    (
        "--group g --agg count:v,sum:v --trim --null NA",
        " g ,\tv\na, NA \n\"a \",4\n\"b\" ,\n",
        0,
        "g,count(v),sum(v)\na,1,4\nb,0,\n",
    ),
    // messages have fields as they are in the input
    (
        "--agg sum:v --separator ;",
        "g;v\na;1,5\n",
        1,
        ": row 1 (line 2): column \"v\" is not an integer: \"1,5\"\n",
    ),
    (
        "--agg sum:v --separator ;",
        "g,v\na,1\n",
        2,
        ": no column \"v\"; the header has 1: \"g,v\"\n",
    ),
    (
        "--agg sum:v --separator ;",
        "v;a,b;v\n1;2;3\n",
        2,
        ": the header has column \"v\" twice: fields 1 and 3\n",
    ),
    // a line, and a quote that is not closed
    (
        "--agg sum:v --separator ;",
        "g;v\n\"a\nb\";1\n\nc,\"d;2\n\"e;3\n",
        1,
        ": row 3 (line 6): wrong number of fields: 1, the header has 2; the quote in line 6 is not closed\n",
    ),
    // words that are no query
    ("--agg count --separator ab", "v\n1\n", 2, USAGE),
    ("--agg count --null 1,2,3,4,5,6,7,8,9", "v\n1\n", 2, USAGE),
];

#[test]
fn separators(rt: HostRuntime) -> Result<(), Fail> {
    for row in ROWS {
        assert!(rt;
            is_answered(&rt, rt.alloc(), row)?,
            "{} over {}",
            row.0,
            row.1
        );
    }
    Ok(())
}
