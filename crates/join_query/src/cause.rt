//! Why two tables have no join, apart from faults and a lack of memory.

ghost use Rattle.std.specs.Prelude.{◌≡◌, ◌++◌};
ghost use Rattle.join_query.specs.Lines.{cause_status, cause_text, refusal_text, side_text};

use answer_text::{MISUSED, REFUSED, TOO_LARGE};
use par_model::WIDTH_CAUSE;

/// Why there is no table. If a cause concerns one of the two tables, it says whether that is the right one.
#[derive(Debug, Clone, Copy, PartialEq, Eq)]
pub enum Cause {
    /// The words are not `join COLUMN N`.
    Usage,
    /// The input is too long.
    TooManyBytes,
    /// No line parts the input.
    NoSecondTable,
    /// A table has no record.
    NoHeader { right: bool },
    /// A table has too many rows.
    TooManyRows,
    /// A header has no field with the name.
    NoColumn { right: bool },
    /// This row of a table cannot be joined, for this cause: [`par_model::WIDTH_CAUSE`] or [`par_model::KEY_CAUSE`].
    Refused { right: bool, row: u64, cause: u8 },
    /// There are too many pairs.
    TooManyPairs,
}

impl Cause {
    /// The exit status.
    pub(crate) fn status(&self) -> u8
        ensures { result ≡ cause_status self.now }
    {
        match self {
            Cause::Refused { .. } => REFUSED,
            Cause::TooManyBytes | Cause::TooManyRows | Cause::TooManyPairs => TOO_LARGE,
            Cause::Usage | Cause::NoSecondTable => MISUSED,
            Cause::NoHeader { .. } | Cause::NoColumn { .. } => MISUSED,
        }
    }

    /// What the line says, in pieces, if the column has this name.
    pub(crate) fn pieces<'a>(
        &self,
        name: &'a str,
        digits: &'a mut itoa::Buffer,
    ) -> (&'a str, &'a str, &'a str, &'a str, &'a str)
        ensures { result.0.now ++ (result.1.now ++ (result.2.now ++ (result.3.now ++ result.4.now))) ≡ cause_text name.now self.now }
    {
        match self {
            Cause::Usage => ("usage: pargather join COLUMN N", "", "", "", ""),
            Cause::TooManyBytes => ("more than 67108864 bytes", "", "", "", ""),
            Cause::NoSecondTable => ("no second table", "", "", "", ""),
            Cause::NoHeader { right } => ("no ", side(*right), " header", "", ""),
            Cause::TooManyRows => ("more than 4194304 rows", "", "", "", ""),
            Cause::NoColumn { right } => ("no ", side(*right), " column ", name, ""),
            Cause::Refused { right, row, cause } => {
                let number = digits.format(*row);
                (side(*right), " row ", number, ": ", refusal(*cause))
            }
            Cause::TooManyPairs => ("more than 1048576 pairs", "", "", "", ""),
        }
    }
}

/// Which table it is.
fn side(right: bool) -> &'static str
    ensures { result.now ≡ side_text right }
{
    if right { "right" } else { "left" }
}

/// Why a row is refused.
fn refusal(cause: u8) -> &'static str
    ensures { result.now ≡ refusal_text cause }
{
    if cause == WIDTH_CAUSE {
        "wrong number of fields"
    } else {
        "join key is longer than 248 bytes"
    }
}
