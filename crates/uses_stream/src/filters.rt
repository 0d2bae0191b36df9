//! Filters: worked rows of texts, nulls and several filters, whose values were computed apart from the program.

use crate::decimals::{Row, USAGE, is_answered};
use std::test::Fail;

const ROWS_OF_G: &str = "g,v,w\na,1,5\nb,2,x\na,,7\nb,9,1\n";

const ZIPS: &str = "zip\n01234\n1234\nN/A\n";

const ROWS: [Row; 19] = [
    // a text, and any other; a null is neither
    ("--agg count --where g=a", ROWS_OF_G, 0, "count\n2\n"),
    ("--agg count --where g!=a", ROWS_OF_G, 0, "count\n2\n"),
    ("--agg count --where v!=none", ROWS_OF_G, 0, "count\n3\n"),
    ("--agg count --where v!=1", ROWS_OF_G, 0, "count\n2\n"),
    // nulls
    ("--agg count --where v=", ROWS_OF_G, 0, "count\n1\n"),
    ("--agg count --where v!=", ROWS_OF_G, 0, "count\n3\n"),
    // all must hold, and what one leaves out no other reads
    (
        "--group g --agg count,sum:w --where g=a --where w<7",
        ROWS_OF_G,
        0,
        "g,count,sum(w)\na,1,5\n",
    ),
    (
        "--agg count --where v= --where w=x",
        ROWS_OF_G,
        0,
        "count\n0\n",
    ),
    (
        "--agg count --where v>0 --where v>0 --where v>0 --where v>0 --where v>0 --where v>0 --where v>0 --where v<9",
        ROWS_OF_G,
        0,
        "count\n2\n",
    ),
    (
        "--agg count --where w<7 --where g=a",
        ROWS_OF_G,
        1,
        ": row 2 (line 3): filter column \"w\" is not an integer: \"x\"; see --null\n",
    ),
    (
        "--agg count --where v>0 --where w<7",
        ROWS_OF_G,
        1,
        ": row 2 (line 3): filter column \"w\" is not an integer: \"x\"; see --null\n",
    ),
    (
        "--agg count --where g=a --where u=1",
        ROWS_OF_G,
        2,
        ": no column \"u\"; the header has 3: \"g\" \"v\" \"w\"\n",
    ),
    // a number is compared as one, unless it is between quotes
    (
        "--agg count --where zip=1234",
        ZIPS,
        1,
        ": row 3 (line 4): filter column \"zip\" is not an integer: \"N/A\"; see --null\n",
    ),
    ("--agg count --where zip=\"01234\"", ZIPS, 0, "count\n1\n"),
    ("--agg count --where zip!=\"01234\"", ZIPS, 0, "count\n2\n"),
    // words that are no query
    ("--agg count --where v==1", ROWS_OF_G, 2, USAGE),
    ("--agg count --where v<x", ROWS_OF_G, 2, USAGE),
    ("--agg count --where =a", ROWS_OF_G, 2, USAGE),
    (
        "--agg count --where v>0 --where v>0 --where v>0 --where v>0 --where v>0 --where v>0 --where v>0 --where v>0 --where v>0",
        ROWS_OF_G,
        2,
        USAGE,
    ),
];

#[test]
fn filters(rt: HostRuntime) -> Result<(), Fail> {
    for row in ROWS {
        assert!(rt;
            is_answered(&rt, rt.alloc(), row)?,
            "{} over {}",
            row.0,
            row.1
        );
    }
    Ok(())
}
