//! What no clause says: that the calls succeed, and how their texts read.

use std::test::Fail;
use table_order::{By, Order, Shown, places_in, shown_rows};

/// A table: keys that are integers or not, a field with quotes and a line end in it, and sums, of which one is null.
const TABLE: &str =
    "g,h,s\n,a,1.50\n010,b,-12.00\n10,\"x\n\"\"y,\",\n9,a,1.50\nx,b,100000000000000000000.00\n";

/// The number of a column, what its fields are compared as, whether the greatest come first, the limit, and the text.
const ROWS: [(usize, By, bool, usize, &str); 6] = [
    (
        0,
        By::Bytes,
        true,
        3,
        "g,h,s\nx,b,100000000000000000000.00\n9,a,1.50\n10,\"x\n\"\"y,\",\n",
    ),
    (
        0,
        By::Numbers(0),
        false,
        9,
        "g,h,s\n9,a,1.50\n010,b,-12.00\n10,\"x\n\"\"y,\",\nx,b,100000000000000000000.00\n,a,1.50\n",
    ),
    (
        0,
        By::Numbers(0),
        true,
        2,
        "g,h,s\n010,b,-12.00\n10,\"x\n\"\"y,\",\n",
    ),
    (
        1,
        By::Bytes,
        false,
        9,
        "g,h,s\n,a,1.50\n9,a,1.50\n010,b,-12.00\nx,b,100000000000000000000.00\n10,\"x\n\"\"y,\",\n",
    ),
    (
        2,
        By::Numbers(2),
        true,
        9,
        "g,h,s\nx,b,100000000000000000000.00\n,a,1.50\n9,a,1.50\n010,b,-12.00\n10,\"x\n\"\"y,\",\n",
    ),
    (2, By::Numbers(2), false, 0, "g,h,s\n"),
];

#[test]
fn shows(rt: HostRuntime) -> Result<(), Fail> {
    assert_eq!(rt; places_in(TABLE.as_bytes(), 2), 2);
    for (column, by, down, limit, wanted) in ROWS {
        let shown = Shown {
            order: Some(Order { column, by, down }),
            limit: Some(limit),
        };
        let text = shown_rows(rt.alloc(), TABLE.as_bytes(), shown)?;
        assert_eq!(rt; text.as_slice(), wanted.as_bytes());
    }
    Ok(())
}

/// Without an order the rows stay as they are.
#[test]
fn limits(rt: HostRuntime) -> Result<(), Fail> {
    let shown = Shown {
        order: None,
        limit: Some(1),
    };
    let text = shown_rows(rt.alloc(), TABLE.as_bytes(), shown)?;
    assert_eq!(rt; text.as_slice(), "g,h,s\n,a,1.50\n".as_bytes());
    Ok(())
}
