//! Rows that are read field by field, however they are kept: a record of a store, or one that was just found in a text.

ghost use Rattle.std.specs.Prelude.{◌≡◌, ◌≤◌, ◌<◌, ◌∷◌, ℕ, List, [], IfErr, Ok, false, get_or, length, true};
ghost use Rattle.par_model.specs.Plan.{Plan};
ghost use Rattle.partial_agg.specs.Cursor.{SomeRefused};

use crate::map::BlockAnswer;
use csv_rows::Record;

/// What is read as a row: a list of fields.
pub trait RowFields {
    ghost use Rattle.std.specs.Prelude.{ℕ, List};

    /// The row's fields.
    ghost fields: { Self → List (List ℕ) };

    /// How many fields it has. In constant time.
    fn width(&self) -> u32
        ensures { result ≡ length (fields self.now) };

    /// A field of it. In constant time.
    fn field(&self, at: u32) -> &[u8]
        requires { at < length (fields self.now) }
        ensures { result.now ≡ get_or (fields self.now) at [] };
}

impl<'a> RowFields for Record<'a> {
    ghost fields = { λ r. r };

    #[inline(always)]
    fn width(&self) -> u32 {
        Record::width(self)
    }

    #[inline(always)]
    fn field(&self, at: u32) -> &[u8] {
        Record::field(self, at)
    }
}

/// Rows that are given one after another. Its fields are those of the row that it gave last.
pub trait RowCursor: RowFields {
    ghost use Rattle.std.specs.Prelude.{ℕ, List};

    /// The rows that are left.
    ghost left: { Self → List (List (List ℕ)) };

    /// The most columns of a table whose rows it gives.
    ghost widest: { ℕ };

    /// Gives the next row of a table of the given width; `false` if none is left. An answer that names a row names row 1,
    /// since a cursor does not count. Which rows are left after an `Err` is not promised.
    fn next_row(&mut self, width: u32) -> Result<bool, BlockAnswer>
        requires { width ≤ widest }
        ensures row { result ≡ Ok true → left self.old ≡ Self.fields self.new ∷ left self.new }
        ensures end { result ≡ Ok false → left self.old ≡ [] }
        ensures refused { IfErr result (λ why. (plan : Plan) → SomeRefused plan width (left self.old) why) };
}
