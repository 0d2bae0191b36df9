//! A scan as the rows of a table, for a reader of rows of any kind.

ghost use Rattle.found_rows.specs.declared.spans.TheConstants.{MOST_FIELDS};

use crate::found::FoundRows;
use partial_agg::{BlockAnswer, RowCursor, RowFields};

impl<'a> RowFields for FoundRows<'a> {
    ghost fields = { λ rows. rows.row };

    #[inline(always)]
    fn width(&self) -> u32 {
        FoundRows::width(self) as u32
    }

    #[inline(always)]
    fn field(&self, at: u32) -> &[u8] {
        FoundRows::field(self, at)
    }
}

impl<'a> RowCursor for FoundRows<'a> {
    ghost left = { λ rows. rows.left };

    ghost widest = { MOST_FIELDS };

    #[inline(always)]
    fn next_row(&mut self, width: u32) -> Result<bool, BlockAnswer> {
        FoundRows::next_row(self, width as usize)
    }
}
