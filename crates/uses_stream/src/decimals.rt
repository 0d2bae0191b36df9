//! Decimals: worked rows of numbers with places, whose values were computed apart from the program.

use crate::windows::answered_over;
use std::alloc::{AllocError, Global};
use std::sync::Wait;
use std::test::Fail;
use std::thread::Threads;

/// Words, the input, and the status with what was written: the table, or the line after the program's name.
pub(crate) type Row = (&'static str, &'static str, u8, &'static str);

/// A table of prices in every form that a number with two places may have.
const PRICES: &str = "g,price,w\na,1.50,0.125\nb,-2,1\na, +0.05 ,-.5\na,.5,\nb,,2.5\n";

const ROWS: [Row; 18] = [
    // sums, least and greatest have the places of their column, averages four more
    (
        "--group g --agg count,sum:price,min:price,max:price,avg:price --decimals 2",
        "g,price\na,1.50\nb,-2\na, +0.05 \na,.5\nb,\n",
        0,
        "g,count,sum(price),min(price),max(price),avg(price)\na,3,2.05,0.05,1.50,0.683333\nb,2,-2.00,-2.00,-2.00,-2.000000\n",
    ),
    (
        "--agg sum:price,sum:w,avg:w,count:w --decimals price=2,w=3",
        PRICES,
        0,
        "sum(price),sum(w),avg(w),count(w)\n0.05,3.125,0.7812500,4\n",
    ),
    // the first entry for a column counts, and one without a name is for every column
    (
        "--agg sum:price,max:w --decimals price=2,3",
        PRICES,
        0,
        "sum(price),max(w)\n0.05,2.500\n",
    ),
    (
        "--agg sum:price,sum:w --decimals 3,price=2",
        PRICES,
        0,
        "sum(price),sum(w)\n0.050,3.125\n",
    ),
    // a zero has no sign
    (
        "--agg sum:v,min:v,avg:v --decimals 1",
        "v\n-0.1\n0.1\n-0.0\n",
        0,
        "sum(v),min(v),avg(v)\n0.0,-0.1,0.00000\n",
    ),
    // the greatest numbers, and a sum past 64 bits
    (
        "--agg sum:v,max:v,min:v --decimals 18",
        "v\n9.223372036854775807\n9.223372036854775807\n-9.223372036854775808\n",
        0,
        "sum(v),max(v),min(v)\n9.223372036854775806,9.223372036854775807,-9.223372036854775808\n",
    ),
    // filters compare decimals, and a null is left out
    (
        "--group g --agg count --where price>=0.5 --decimals price=2",
        PRICES,
        0,
        "g,count\na,2\n",
    ),
    (
        "--agg count --where price=-2.00 --decimals 2",
        PRICES,
        0,
        "count\n1\n",
    ),
    // without places a column has integers
    (
        "--agg sum:w --decimals price=2",
        PRICES,
        1,
        ": row 1 (line 2): column \"w\" is not an integer: \"0.125\"; see --decimals\n",
    ),
    (
        "--agg sum:price --decimals 0",
        PRICES,
        1,
        ": row 1 (line 2): column \"price\" is not an integer: \"1.50\"; see --decimals\n",
    ),
    // what doesn't fit
    (
        "--agg sum:w --decimals 2",
        PRICES,
        1,
        ": row 1 (line 2): column \"w\" is not a decimal with at most 2 places: \"0.125\"\n",
    ),
    (
        "--agg sum:price --decimals 1",
        PRICES,
        1,
        ": row 1 (line 2): column \"price\" is not a decimal with at most 1 place: \"1.50\"\n",
    ),
    (
        "--agg count --where w>0 --decimals w=2",
        PRICES,
        1,
        ": row 1 (line 2): filter column \"w\" is not a decimal with at most 2 places: \"0.125\"\n",
    ),
    (
        "--agg sum:v --decimals 2",
        "v\n92233720368547758.08\n",
        1,
        ": row 1 (line 2): column \"v\" is not a decimal with at most 2 places: \"92233720368547758.08\"\n",
    ),
    // words that are no query
    (
        "--agg count --where price>0.125 --decimals 2",
        PRICES,
        2,
        USAGE,
    ),
    ("--agg count --decimals 19", PRICES, 2, USAGE),
    ("--agg count --decimals price=", PRICES, 2, USAGE),
    ("--agg count --decimals 2,", PRICES, 2, USAGE),
];

pub(crate) const USAGE: &str =
    ": usage: parstream [--group COLUMNS] --agg ITEMS [--where FILTER].. [--decimals PLACES] [--separator BYTE] [--null TEXTS] [--trim] [--workers N]\n";

/// Whether the answer to a row is the one that it has, for each of several numbers of workers.
pub(crate) fn is_answered<R: Threads + Wait + Sync>(
    rt: &R,
    alloc: Global,
    row: Row,
) -> Result<bool, AllocError> {
    let (words, input, status, text) = row;
    for workers in ["0", "2"] {
        let words = format!(in alloc; "{words} --workers {workers}")?;
        let given = answered_over(rt, alloc, words.as_str(), input.as_bytes(), 16)?;
        let is_written = if status == 0 {
            given.out.as_slice() == text.as_bytes()
        } else {
            given.err.as_slice() == text.as_bytes()
        };
        if given.status != status || !is_written {
            return Ok(false);
        }
    }
    Ok(true)
}

#[test]
fn decimals(rt: HostRuntime) -> Result<(), Fail> {
    for row in ROWS {
        assert!(rt;
            is_answered(&rt, rt.alloc(), row)?,
            "{} over {}",
            row.0,
            row.1
        );
    }
    Ok(())
}
