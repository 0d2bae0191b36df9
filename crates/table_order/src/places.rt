//! How many digits the values of a column have after the point.

ghost use Rattle.std.specs.Prelude.{◌≡◌, ◌∷◌, ℕ, List};
ghost use Rattle.par_model.specs.Table.{table_text};
ghost use Rattle.table_order.specs.Numbers.{places_of};
ghost use Rattle.table_order.specs.Places.{column_places};

use crate::line::{field, split_line};

/// How many digits the first field of a column has after its point that is not empty, in the text of a table. All values of an
/// item have as many. It takes no memory; the time is that of the text up to this field.
pub fn places_in(text: &[u8], column: usize) -> usize
    ensures { (header : List (List ℕ)) (rows : List (List (List ℕ))) → text.now ≡ table_text (header ∷ rows) → result ≡ column_places column rows }
{
    let (_, mut left) = split_line(text);
    while !left.is_empty() {
        let (line, more) = split_line(left);
        let field = field(line, column);
        if !field.is_empty() {
            return places_of(field);
        }
        left = more;
    }
    0
}

/// How many digits a text has after its point.
fn places_of(text: &[u8]) -> usize
    ensures { result ≡ places_of text.now }
{
    for (at, byte) in text.iter().enumerate() {
        if *byte == b'.' {
            return text.len() - at - 1;
        }
    }
    0
}
