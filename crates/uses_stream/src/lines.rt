//! Lines of refused rows, quotes that are not closed, and columns that a header has twice: worked rows, whose lines were
//! counted by hand.

use crate::decimals::{Row, is_answered};
use std::test::Fail;

const ROWS: [Row; 10] = [
    // empty lines, and line feeds between quotes
    (
        "--agg sum:v",
        "\n\ng,v\r\n\"a\r\nb\",1\r\n\r\n\nc,x\r\n",
        1,
        ": row 2 (line 8): column \"v\" is not an integer: \"x\"; see --null\n",
    ),
    // a carriage return by itself ends a record and no line
    (
        "--agg sum:v",
        "g,v\ra,1\rb,x\r",
        1,
        ": row 2 (line 1): column \"v\" is not an integer: \"x\"; see --null\n",
    ),
    // a mark, and a header over two lines
    (
        "--agg sum:v",
        "\u{feff}\n\"g\n\",v\na,x\n",
        1,
        ": row 1 (line 4): column \"v\" is not an integer: \"x\"; see --null\n",
    ),
    // a record over lines is named by its first
    (
        "--agg count",
        "g,v\n\"a\n\n\nb\"\nc,1\n",
        1,
        ": row 1 (line 2): wrong number of fields: 1, the header has 2\n",
    ),
    // a quote that is not closed, in a later line of its record than the first
    (
        "--agg count",
        "g,v\na,1\n\"b\nc\",2,\"3\nd,4\n",
        1,
        ": row 2 (line 3): wrong number of fields: 3, the header has 2; the quote in line 4 is not closed\n",
    ),
    // two quotes side by side close none
    (
        "--agg count",
        "g,v\n\"b\"\"\nc,2\n\n",
        1,
        ": row 1 (line 2): wrong number of fields: 1, the header has 2; the quote in line 2 is not closed\n",
    ),
    // the quote is another row's
    (
        "--agg count",
        "g,v\na\n\"b\nc,2\n",
        1,
        ": row 1 (line 2): wrong number of fields: 1, the header has 2\n",
    ),
    // columns that are asked for, and others
    (
        "--group g --agg sum:v",
        "v,g,w,g,v,g\n1,a,2,b,3,c\n",
        2,
        ": the header has column \"g\" twice: fields 2 and 4\n",
    ),
    (
        "--agg count --where v>1 --where g=a",
        "g,v,\"v\"\na,x,2\n",
        2,
        ": the header has column \"v\" twice: fields 2 and 3\n",
    ),
    (
        "--group g --agg count",
        "g,v,v\na,1,2\n",
        0,
        "g,count\na,1\n",
    ),
];

#[test]
fn lines(rt: HostRuntime) -> Result<(), Fail> {
    for row in ROWS {
        assert!(rt;
            is_answered(&rt, rt.alloc(), row)?,
            "{} over {}",
            row.0,
            row.1
        );
    }
    Ok(())
}
