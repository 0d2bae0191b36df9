//! Rows of a table in another order, and not more of them than a limit, by the text of the table.
//!
//! The text is the one that the crate `csv` writes: a line for each record, of which the first is the header. Its lines
//! are found by one scan that counts quotes, so a line end in a field is none of a line. For each row the field that it is
//! ordered by is looked at once, and becomes a number of 64 bits in the entry that is sorted; the field itself is compared
//! again only if that number can't tell, because the field is no number or a very long one. The text that is given back has
//! the lines of the table, byte for byte.

#![tactic(auto)]

ghost use Rattle.std.specs.Prelude.{◌≡◌, ◌∷◌, ◌++◌, ℕ, List, IfOk, OnOk, map};
ghost use Rattle.std.specs.List.{concat};
ghost use Rattle.csv.specs.Writing.{default_writer, row_text};
ghost use Rattle.par_model.specs.Table.{table_text};
ghost use Rattle.table_order.specs.Shown.{IsShownText, PutsShown, first_of};

mod entry;
mod line;
mod number;
mod order;
mod places;

use crate::entry::ordered;
use crate::line::lines;
pub use line::size_to;
pub use order::{By, Order, Shown};
pub use places::places_in;
use std::alloc::{AllocError, Global};

/// The text of a table with those of its rows that are shown, in their order. An error means that memory ran out. The time
/// is that of the text, and of n log n comparisons for n rows; memory is 64 bytes a row, and the text that is given back.
pub fn shown_rows(alloc: Global, text: &[u8], shown: Shown) -> Result<Vec<u8>, AllocError>
    ensures { IfOk result (λ out. (header : List (List ℕ)) (rows : List (List (List ℕ))) → text.now ≡ table_text (header ∷ rows) → IsShownText shown header rows out.items) }
{
    let lines = lines(alloc, text)?;
    let Some((header, rows)) = lines.as_slice().split_first() else {
        return Ok(Vec::new(alloc));
    };
    let mut out = Vec::from_slice(alloc, header)?;
    put_rows(&mut out, alloc, rows, shown)?;
    Ok(out)
}

/// Puts the lines of those rows that are shown at the end of a text.
fn put_rows(
    out: &mut Vec<u8>,
    alloc: Global,
    lines: &[&[u8]],
    shown: Shown,
) -> Result<(), AllocError>
    ensures { OnOk result ((rows : List (List (List ℕ))) → map (λ line. line.now) lines.now ≡ map (row_text default_writer) rows → PutsShown shown rows out.old.items out.new.items) }
{
    match shown.order {
        None => put_lines(out, first(lines, shown.limit)),
        Some(order) => {
            let rows = ordered(alloc, lines, order)?;
            put_lines(out, first(rows.as_slice(), shown.limit))
        }
    }
}

/// The first lines, as many as the limit allows.
fn first<'a, 'b>(lines: &'b [&'a [u8]], limit: Option<usize>) -> &'b [&'a [u8]]
    ensures { result.now ≡ first_of limit lines.entry.now }
{
    match limit {
        None => lines,
        Some(limit) => &lines[..limit.min(lines.len())],
    }
}

/// Puts lines at the end of a text.
fn put_lines(out: &mut Vec<u8>, lines: &[&[u8]]) -> Result<(), AllocError>
    ensures { OnOk result (out.new.items ≡ out.old.items ++ concat (map (λ line. line.now) lines.now)) }
{
    for line in lines {
        out.extend_from_slice(line)?;
    }
    Ok(())
}
