//! A plan over the columns of a table: what to group by, what to compute, which rows to keep.
//!
//! A plan lies in arrays of a fixed size, so that it can be copied into shared memory word by word. The places past a
//! count hold column 0 and kind `Rows`, which `BoundPlan` keeps as its invariant; a contract sees only the lists.

ghost use Rattle.std.specs.Prelude.{◌≡◌, ◌≤◌, All, length};
ghost use Rattle.par_model.specs.Keep.{stands};

use crate::text::Text;
use std::marker::Model;

/// What an aggregate computes: the number of rows, the number of fields that are not empty, or the sum, the least, the
/// greatest and the average of a column of numbers.
#[derive(Clone, Copy, Debug, PartialEq, Eq)]
pub enum ItemKind {
    Rows,
    Count,
    Sum,
    Min,
    Max,
    Avg,
}

/// The most digits that a number may have after the point.
pub const MOST_PLACES: u32 = 18;

/// An aggregate, with the column that it reads, and how many digits the column's numbers may have after the point,
/// [`MOST_PLACES`] at most. An item of kind `Rows` reads none, and has column 0 and no places.
#[derive(Clone, Copy, Debug, PartialEq, Eq)]
pub struct Item {
    pub kind: ItemKind,
    pub column: u32,
    pub places: u32,
}

/// The relation that a row's number must have to a filter's value.
#[derive(Clone, Copy, Debug, PartialEq, Eq)]
pub enum FilterOp {
    Equal,
    NotEqual,
    Less,
    LessEqual,
    Greater,
    GreaterEqual,
}

impl FilterOp {
    /// Whether the first number has the relation to the second.
    pub fn stands(self, a: i64, b: i64) -> bool
        ensures { result ≡ stands self a b }
    {
        match self {
            FilterOp::Equal => a == b,
            FilterOp::NotEqual => a != b,
            FilterOp::Less => a < b,
            FilterOp::LessEqual => a <= b,
            FilterOp::Greater => a > b,
            FilterOp::GreaterEqual => a >= b,
        }
    }
}

/// What a filter asks of a field: a number that has a relation to a value, a text, or any other text but the empty one.
/// An empty text is null, so `Is` with one asks for a null, and `IsNot` for anything else.
#[derive(Clone, Copy, Debug)]
pub enum FilterTest {
    Number(FilterOp, i64),
    Is(Text),
    IsNot(Text),
}

/// Which rows are kept: those whose field of a column passes the test. Its numbers are in units of 10^-places.
#[derive(Clone, Copy, Debug)]
pub struct Filter {
    pub column: u32,
    pub test: FilterTest,
    pub places: u32,
}

/// What an unused place of a plan's filters holds.
pub const NO_FILTER: Filter = Filter {
    column: 0,
    test: FilterTest::Number(FilterOp::Equal, 0),
    places: 0,
};

/// A plan over column numbers.
#[derive(Debug, Drop)]
pub struct BoundPlan {
    /// The columns to group by; places past the count hold 0.
    pub groups: [u32; 8],
    pub group_count: u32,
    /// The aggregates; unused ones have the kind `Rows` and column 0.
    pub items: [Item; 8],
    pub item_count: u32,
    /// Asks for the plan over the shared hash table, which changes no answer.
    pub hash: bool,
    /// Which rows are kept: those that all filters keep. Unused places hold [`NO_FILTER`].
    pub filters: [Filter; 8],
    pub filter_count: u32,
}

impl Model for BoundPlan {
    ghost use Rattle.par_model.specs.Plan.{Plan};

    ghost Value = { Plan };

    ghost use Rattle.par_model.specs.PlanLayout.{plan_of, IsPadded};

    ghost view = { plan_of };

    ghost invariant = { IsPadded };
}

impl BoundPlan {
    /// The columns to group by, without the unused places.
    pub fn group_columns(&self) -> &[u32]
        ensures columns { result.now ≡ self.now.groups }
        ensures few { length result.now ≤ 8 }
    {
        &self.groups[..self.group_count as usize]
    }

    /// The aggregates, without the unused places.
    pub fn items(&self) -> &[Item]
        ensures items { result.now ≡ self.now.items }
        ensures few { length result.now ≤ 8 }
        ensures places { All (λ item. item.places ≤ MOST_PLACES) result.now }
    {
        &self.items[..self.item_count as usize]
    }

    /// The filters, without the unused places.
    pub fn filters(&self) -> &[Filter]
        ensures filters { result.now ≡ self.now.filters }
        ensures few { length result.now ≤ 8 }
        ensures places { All (λ filter. filter.places ≤ MOST_PLACES) result.now }
    {
        &self.filters[..self.filter_count as usize]
    }
}
