//! That values of each type can be made, and what the calls give on worked rows.

ghost use Rattle.std.specs.Prelude.{◌≡◌, ◌∷◌, [], false, All, IfOk, None, length};
ghost use Rattle.par_model.specs.Columns.{HasColumns};
ghost use Rattle.par_model.specs.declared.plan.ItemKind.TheVariants as kind;

use par_model::{
    AggState, BoundPlan, Field, Filter, FilterOp, FilterTest, Item, ItemKind, NO_FILTER, Refusal,
    Row, SlotState, read_integer, read_number,
};
use slow_model::{slow_refusal, slow_state};
use std::alloc::{AllocError, Global};
use std::test::Fail;

/// An item that is not used.
const UNUSED: Item = Item {
    kind: ItemKind::Rows,
    column: 0,
    places: 0,
};

/// Counts the rows of each group of a column: the caller of CALLING.md.
fn count_by(column: u32) -> BoundPlan
    ensures { result ≡ record { groups = column ∷ []; items = record { kind = kind.Rows; column = 0; places = 0 } ∷ []; hash = false; filters = [] } }
{
    BoundPlan {
        groups: [column, 0, 0, 0, 0, 0, 0, 0],
        group_count: 1,
        items: [UNUSED; 8],
        item_count: 1,
        hash: false,
        filters: [NO_FILTER; 8],
        filter_count: 0,
    }
}

#[test]
fn makes_plans_and_rows(rt: HostRuntime) -> Result<(), Fail> {
    let plan = count_by(3);
    assert_eq!(rt; plan.group_columns(), [3].as_slice());
    assert_eq!(rt; plan.items(), [UNUSED].as_slice());
    assert!(rt; FilterOp::LessEqual.stands(-1, 3));
    let mut fields = Vec::new(rt.alloc());
    fields.push(Field::new(Vec::from_slice(rt.alloc(), b"a")?))?;
    let row = Row::new(fields);
    let text = format!(in rt.alloc(); "{row:?}")?;
    assert!(rt; text.as_str().contains("97"), "{text}");
    Ok(())
}

/// Fields with spaces and signs, at the limits of 64 bits and past them, and what is no integer.
const INTEGERS: [(&[u8], Option<i64>); 20] = [
    (b"0", Some(0)),
    (b" 7 ", Some(7)),
    (b"-3", Some(-3)),
    (b"  +5", Some(5)),
    (b"0000000000000000000000012", Some(12)),
    (b"9223372036854775807", Some(i64::MAX)),
    (b"9223372036854775808", None),
    (b"-9223372036854775808", Some(i64::MIN)),
    (b"-9223372036854775809", None),
    (b"", None),
    (b" - ", None),
    (b"1 2", None),
    (b"\t1", None),
    (b"1.0", None),
    (b"999999999999999999", Some(999999999999999999)),
    (b"1000000000000000000", Some(1000000000000000000)),
    (b"10000000000000000000", None),
    (b"123 ", Some(123)),
    (b" -123", Some(-123)),
    (b"--1", None),
];

#[test]
fn integers(rt: HostRuntime) {
    for (field, want) in INTEGERS {
        assert!(rt; read_integer(field) == want, "{field:?}");
    }
}

/// Fields and places, with the number in units of the last place.
const NUMBERS: [(&[u8], u32, Option<i64>); 19] = [
    (b"1.50", 2, Some(150)),
    (b"1.5", 2, Some(150)),
    (b"1", 2, Some(100)),
    (b"-1.50", 2, Some(-150)),
    (b".5", 2, Some(50)),
    (b"-.5", 2, Some(-50)),
    (b"5.", 2, None),
    (b".", 2, None),
    (b"", 2, None),
    (b"1.505", 2, None),
    (b"1.5.0", 2, None),
    (b"1. 5", 2, None),
    (b"1,50", 2, None),
    (b"1.5", 0, None),
    (b"15", 0, Some(15)),
    (b"92233720368547758.07", 2, Some(i64::MAX)),
    (b"92233720368547758.08", 2, None),
    (b"-92233720368547758.08", 2, Some(i64::MIN)),
    (b"-0.00", 2, Some(0)),
];

#[test]
fn numbers(rt: HostRuntime) {
    for (field, places, want) in NUMBERS {
        assert!(rt; read_number(field, places) == want, "{field:?}");
    }
}

/// A row of these fields.
fn row_of(alloc: Global, texts: &[&str]) -> Result<Row, AllocError>
    ensures { IfOk result (λ row. length row ≡ length texts.now) }
{
    let mut fields = Vec::new(alloc);
    'texts: for text in texts {
        fields.push(Field::new(Vec::from_slice(alloc, text.as_bytes())?))?;
    }
    Ok(Row::new(fields))
}

/// Sums column 2 of the rows whose column 1 is below 5, for each group of column 0.
fn sum_below_five() -> BoundPlan
    ensures { HasColumns result 3 }
{
    BoundPlan {
        groups: [0, 0, 0, 0, 0, 0, 0, 0],
        group_count: 1,
        items: [
            Item {
                kind: ItemKind::Sum,
                column: 2,
                places: 0,
            },
            UNUSED,
            UNUSED,
            UNUSED,
            UNUSED,
            UNUSED,
            UNUSED,
            UNUSED,
        ],
        item_count: 1,
        hash: false,
        filters: [
            Filter {
                column: 1,
                test: FilterTest::Number(FilterOp::Less, 5),
                places: 0,
            },
            NO_FILTER,
            NO_FILTER,
            NO_FILTER,
            NO_FILTER,
            NO_FILTER,
            NO_FILTER,
            NO_FILTER,
        ],
        filter_count: 1,
    }
}

#[test]
fn refuses_rows(rt: HostRuntime) -> Result<(), Fail> {
    let table: [(&[&str], Option<(u8, u32)>); 6] = [
        (&["a", "1", "7"], None),
        (&["a", "1"], Some((1, 0))),
        (&["a", "x", "7"], Some((4, 0))),
        (&["a", "", "x"], None),
        (&["a", "9", "x"], None),
        (&["a", "1", "x"], Some((3, 0))),
    ];
    let plan = sum_below_five();
    for (texts, want) in table {
        let row = row_of(rt.alloc(), texts)?;
        let got = slow_refusal(&row, 3, &plan);
        assert_eq!(rt;
            got,
            want.map(|w| Refusal {
                cause: w.0,
                item: w.1
            })
        );
    }
    Ok(())
}

/// An aggregate of column 1.
fn of_values(kind: ItemKind) -> Item
    ensures { result ≡ record { kind = kind; column = 1; places = 0 } }
{
    Item {
        kind,
        column: 1,
        places: 0,
    }
}

/// Each aggregate of column 1, for each group of column 0, over the rows whose column 2 is not 9.
fn all_aggregates() -> BoundPlan
    ensures { HasColumns result 3 }
{
    BoundPlan {
        groups: [0, 0, 0, 0, 0, 0, 0, 0],
        group_count: 1,
        items: [
            of_values(ItemKind::Sum),
            of_values(ItemKind::Min),
            UNUSED,
            of_values(ItemKind::Max),
            of_values(ItemKind::Avg),
            of_values(ItemKind::Count),
            UNUSED,
            UNUSED,
        ],
        item_count: 6,
        hash: false,
        filters: [
            Filter {
                column: 2,
                test: FilterTest::Number(FilterOp::NotEqual, 9),
                places: 0,
            },
            NO_FILTER,
            NO_FILTER,
            NO_FILTER,
            NO_FILTER,
            NO_FILTER,
            NO_FILTER,
            NO_FILTER,
        ],
        filter_count: 1,
    }
}

/// Rows of a key, a value and a number for the filter.
fn table_of(alloc: Global, texts: &[[&str; 3]]) -> Result<Vec<Row>, AllocError>
    ensures { IfOk result (λ rows. All (λ row. length row ≡ 3) rows.items) }
{
    let mut rows = Vec::new(alloc);
    'texts: for row in texts {
        rows.push(row_of(alloc, row)?)?;
    }
    Ok(rows)
}

#[test]
fn aggregates_of_groups(rt: HostRuntime) -> Result<(), Fail> {
    let texts = [
        ["a", " 7 ", "1"],
        ["b", "100", "1"],
        ["a", "-3", "2"],
        ["a", "", "3"],
        ["ab", "50", "1"],
        ["a", "-1000", "9"],
        ["a", "1000", ""],
        ["a", "+5", "-9"],
        ["", "1", "1"],
    ];
    let rows = table_of(rt.alloc(), &texts)?;
    let none = SlotState {
        count: 0,
        sum: 0,
        least: 0,
        greatest: 0,
    };
    let numbers = SlotState {
        count: 3,
        sum: 9,
        least: -3,
        greatest: 7,
    };
    let values = SlotState {
        count: 3,
        sum: 0,
        least: 0,
        greatest: 0,
    };
    let state = slow_state(&rows, b"\x01\x00\x00\x00a", &all_aggregates());
    assert_eq!(rt; state.rows, 4);
    assert_eq!(rt;
        state.slots,
        [numbers, numbers, none, numbers, numbers, values, none, none]
    );
    let absent = slow_state(&rows, b"\x01\x00\x00\x00c", &all_aggregates());
    assert_eq!(rt;
        absent,
        AggState {
            rows: 0,
            slots: [none; 8]
        }
    );
    Ok(())
}
