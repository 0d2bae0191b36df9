//! What a head has room for.

ghost use Rattle.std.specs.Prelude.{◌≡◌, ◌≤◌, ◌^◌, ◌↔◌, IsTrue, false, length};
ghost use Rattle.std.specs.Bool.{OnTrue};
ghost use Rattle.state_head.specs.Cover.{AreRows};
ghost use Rattle.state_head.specs.Words.{AreWords, words_of};
ghost use Rattle.state_partial.specs.TooLong.{HasNoRoom};

use state_head::{PlanWords, Rows, Whole};

/// The most bytes of a text of the plan.
const MOST_WORD: usize = 1 << 20;

/// The most bytes of a header.
const MOST_HEADER: usize = 1 << 28;

/// The most rows: 2^50.
const MOST_ROWS: u64 = 1_125_899_906_842_624;

/// Whether a head has room for these words and this header, and for this number of rows or this refused row.
pub(crate) fn fits_head(whole: Whole<'_>, rows: Rows) -> bool
    ensures words { OnTrue result (AreWords (words_of whole.entry.words)) }
    ensures header { OnTrue result (length whole.entry.header.now ≤ 2 ^ 28) }
    ensures rows { OnTrue result (AreRows rows) }
    ensures no_room { result ≡ false → HasNoRoom (words_of whole.entry.words) whole.entry.header.now rows }
{
    if !are_short(whole.words) {
        return false;
    }
    if whole.header.len() > MOST_HEADER {
        return false;
    }
    are_rows(rows)
}

/// Whether no word is too long.
fn are_short(words: PlanWords<'_>) -> bool
    ensures { IsTrue result ↔ AreWords (words_of words.entry) }
{
    words.group.len() <= MOST_WORD
        && words.agg.len() <= MOST_WORD
        && words.filter.len() <= MOST_WORD
        && words.decimals.len() <= MOST_WORD
}

/// Whether rows are not too many, or a refused one has a number, a cause and a place.
fn are_rows(rows: Rows) -> bool
    ensures { IsTrue result ↔ AreRows rows }
{
    match rows {
        Rows::Counted(many) => many <= MOST_ROWS,
        Rows::Refused(why) => {
            why.row >= 1 && why.row <= MOST_ROWS && why.cause >= 1 && why.cause <= 4 && why.item < 8
        }
    }
}
