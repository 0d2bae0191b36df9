//! Where a record is in the input, as an editor finds it: the line in which it begins, and a quote that it does not close.

ghost use Rattle.std.specs.Prelude.{◌≡◌, ◌<◌, ◌≤◌, ◌+◌, ◌++◌, ◌^◌, [], IfOk, Some, decimal, false, length, string_bytes, true};
ghost use Rattle.csv_rows.specs.Records.{records_of};
ghost use Rattle.row_windows.specs.Seams.{BeginsLine};
ghost use Rattle.stream_groups.specs.Begins.{IsPlaceIn, IsPlaceOfLong, SaysQuote, quote_text};

use csv_rows::without_mark;
use std::alloc::{AllocError, Global};
use text_lines::{line_feeds, open_quote, past_ends, record_begin};

/// The line in which a record begins, and what is said of a quote in it that is not closed: nothing if there is none.
#[derive(Drop)]
pub struct Place {
    pub line: u64,
    pub quote: String,
}

/// The place of the record of some lines before which there are this many others. This many line feeds come before these lines.
pub fn place_in_lines(
    alloc: Global,
    lines: &[u8],
    before: u64,
    is_last: bool,
    feeds: u64,
) -> Result<Place, AllocError>
    requires line { BeginsLine lines.now }
    requires some { before < length (records_of lines.now) }
    requires few { feeds ≤ 2 ^ 60 }
    ensures { IfOk result (IsPlaceIn lines.now before is_last feeds) }
{
    let begin = record_begin(lines, before);
    let more = line_feeds(&lines[..begin]);
    let line = feeds + more + 1;
    let quote = last_says(alloc, &lines[begin..], line, is_last)?;
    Ok(Place { line, quote })
}

/// The place of a record that is too long: the text begins with it, after ends of lines. This many line feeds come before the
/// text.
pub(crate) fn place_of_long(alloc: Global, text: &[u8], feeds: u64) -> Result<Place, AllocError>
    requires few { feeds ≤ 2 ^ 60 }
    ensures { IfOk result (IsPlaceOfLong text.now feeds) }
{
    let text = without_mark(text);
    let begin = past_ends(text, 0);
    let more = line_feeds(&text[..begin]);
    let line = feeds + more + 1;
    let quote = quote_says(alloc, &text[begin..], line)?;
    Ok(Place { line, quote })
}

/// What is said of a quote that is not closed at the end of the last record, which begins in this line, and of no other one.
fn last_says(alloc: Global, text: &[u8], line: u64, is_last: bool) -> Result<String, AllocError>
    requires { line + length text.now < 2 ^ 64 }
    ensures last { IfOk result (λ said. is_last ≡ true → SaysQuote text.now line (string_bytes said)) }
    ensures others { IfOk result (λ said. is_last ≡ false → string_bytes said ≡ []) }
{
    if is_last {
        return quote_says(alloc, text, line);
    }
    Ok(String::new(alloc))
}

/// What is said of a quote that is not closed at the end of a text, which begins in this line.
fn quote_says(alloc: Global, text: &[u8], line: u64) -> Result<String, AllocError>
    requires { line + length text.now < 2 ^ 64 }
    ensures { IfOk result (λ said. SaysQuote text.now line (string_bytes said)) }
{
    match open_quote(text) {
        Some(at) => {
            let more = line_feeds(&text[..at]);
            open_says(alloc, line + more)
        }
        None => Ok(String::new(alloc)),
    }
}

/// What is said of a quote in this line that is not closed.
fn open_says(alloc: Global, line: u64) -> Result<String, AllocError>
    ensures { IfOk result (λ said. string_bytes said ≡ quote_text (Some line)) }
{
    let mut said = String::from_str(alloc, "; the quote in line ")?;
    put_number(&mut said, line)?;
    said.push_str(" is not closed")?;
    Ok(said)
}

/// Puts a number.
fn put_number(said: &mut String, number: u64) -> Result<(), AllocError>
    ensures { IfOk result (λ _. string_bytes said.new ≡ string_bytes said.old ++ decimal number) }
{
    said.push_str(itoa::Buffer::new().format(number))
}
