//! The records of a text, one after the other.

ghost use Rattle.std.specs.Prelude.{◌≡◌, ◌≢◌, ◌↔◌, ◌≤◌, ◌<◌, ◌+◌, ◌++◌, ◌∷◌, [], ℕ, List, IfErr, IfNone, IfOk, IfSome, Ok, OnOk, false, get_or, length, slice_index, true};
ghost use Rattle.par_model.specs.Plan.{Plan};
ghost use Rattle.partial_agg.specs.Cursor.{SomeRefused};
ghost use Rattle.csv_rows.specs.Plain.{NoReturn};
ghost use Rattle.csv_rows.specs.Records.{records_of};
ghost use Rattle.found_rows.specs.Found.{BeginsWide, records_from};
ghost use Rattle.found_rows.specs.Masks.{IsBlock, IsFirst, is_quote};
ghost use Rattle.found_rows.specs.Spans.{AreSpans, fields_in};
ghost use Rattle.found_rows.specs.Written.{IsWritten, between, read_as};
ghost use Rattle.found_rows.specs.Closing.{IsClosed, LeavesOpen};
ghost use Rattle.found_rows.specs.declared.found.Found.TheVariants as found;

use crate::block::{Block, block_at, end_from, quote_from};
use crate::spans::{MOST_FIELDS, Spans, no_spans};
use csv_rows::without_mark;
use memchr::memchr;
use par_model::WIDTH_CAUSE;
use partial_agg::BlockAnswer;
use std::alloc::{AllocError, Global};
use std::marker::Model;

/// What a scan finds next.
#[derive(Clone, Copy, PartialEq, Eq, Debug, Drop)]
pub enum Found {
    /// No record is left.
    End,
    /// A record.
    Row,
    /// A record of more than [`MOST_FIELDS`] fields, of which none is given.
    Wide,
}

/// The record that was found last, and those that are left.
#[derive(Drop)]
pub struct FoundRows<'a> {
    text: &'a [u8],
    /// Where what is left begins.
    from: usize,
    block: Block,
    spans: Spans,
}

impl<'a> Model for FoundRows<'a> {
    ghost use Rattle.found_rows.specs.Found.{IsScan, Seen, seen};

    ghost Value = { Seen };

    ghost view = { λ f. seen f.text.now f.from f.spans };

    ghost invariant = { λ f. IsScan f.text.now f.from f.block f.spans };
}

impl<'a> FoundRows<'a> {
    /// A scan before the first record of some bytes. `None` if there is a carriage return among them, since no mask shows
    /// these. Takes no memory; the time is that of a search for a byte.
    pub fn of(alloc: Global, bytes: &'a [u8]) -> Option<FoundRows<'a>>
        ensures left { IfSome result (λ rows. rows.left ≡ records_of bytes.entry.now) }
        ensures few { IfSome result (λ rows. length rows.left ≤ length bytes.entry.now) }
        ensures none { IfNone result (NoReturn bytes.entry.now → ⊥) }
    {
        let text = without_mark(bytes);
        if has_return(text) {
            return None;
        }
        let block = block_at(text, 0);
        let spans = no_spans(alloc);
        Some(FoundRows {
            text,
            from: 0,
            block,
            spans,
        })
    }

    /// Finds the next record. The time is linear in its bytes; memory is taken only for fields that are copied. After an
    /// `Err` no record is left.
    #[inline(always)]
    pub fn next(&mut self) -> Result<Found, AllocError>
        ensures row { result ≡ Ok found.Row → self.old.left ≡ self.new.row ∷ self.new.left }
        ensures wide { result ≡ Ok found.Wide → BeginsWide self.old.left }
        ensures end { result ≡ Ok found.End → self.old.left ≡ [] }
    {
        let start = past_lines(self.text, self.from);
        match find_fields(self.text, start, &mut self.block, &mut self.spans) {
            Ok((found, from)) => {
                self.from = from;
                Ok(found)
            }
            Err(AllocError) => {
                self.from = self.text.len();
                self.spans.clear();
                Err(AllocError)
            }
        }
    }

    /// Finds the next record of a table of the given width, if there is one. A record of more than [`MOST_FIELDS`] fields is
    /// refused for its width: the answer names it as row 1, since a scan does not count. After an `Err` for memory no record
    /// is left.
    #[inline(always)]
    pub fn next_row(&mut self, width: usize) -> Result<bool, BlockAnswer>
        requires { width ≤ MOST_FIELDS }
        ensures row { result ≡ Ok true → self.old.left ≡ self.new.row ∷ self.new.left }
        ensures end { result ≡ Ok false → self.old.left ≡ [] }
        ensures refused { IfErr result (λ why. (plan : Plan) → SomeRefused plan width self.old.left why) }
    {
        let _width = width;
        match self.next() {
            Ok(Found::Row) => Ok(true),
            Ok(Found::End) => Ok(false),
            Ok(Found::Wide) => Err(BlockAnswer::Row {
                row: 1,
                cause: WIDTH_CAUSE,
                item: 0,
            }),
            Err(AllocError) => Err(BlockAnswer::Memory),
        }
    }

    /// The number of fields of the record that was found last: none before the first.
    #[inline(always)]
    pub fn width(&self) -> usize
        ensures width { result ≡ length self.now.row }
        ensures few { result ≤ MOST_FIELDS }
    {
        self.spans.count()
    }

    /// A field of the record that was found last, without its quotes. In constant time.
    #[inline(always)]
    pub fn field(&self, at: u32) -> &[u8]
        requires { at < length self.now.row }
        ensures { result.now ≡ get_or self.now.row at [] }
    {
        self.spans.field(self.text, at)
    }
}

/// Whether there is a carriage return in a text.
fn has_return(text: &[u8]) -> bool
    ensures { (result ≡ false) ↔ NoReturn text.now }
{
    memchr(b'\r', text).is_some()
}

/// The place after the line feeds that lie at a place.
#[inline(always)]
fn past_lines(text: &[u8], from: usize) -> usize
    requires { from ≤ length text.now }
    ensures low { from ≤ result }
    ensures high { result ≤ length text.now }
    ensures other { result < length text.now → slice_index text.now result ≢ 10 }
    ensures records { records_from text.now result ≡ records_from text.now from }
{
    let mut at = from;
    'lines: while at < text.len() && text[at] == b'\n' {
        at += 1;
    }
    at
}

/// Finds the fields of the record that begins at a place, and the place from which to look for the next one.
#[inline(always)]
fn find_fields(
    text: &[u8],
    start: usize,
    block: &mut Block,
    spans: &mut Spans,
) -> Result<(Found, usize), AllocError>
    requires lines { NoReturn text.now }
    requires within { start ≤ length text.now }
    requires begins { start < length text.now → slice_index text.now start ≢ 10 }
    requires block { IsBlock text.now block.old }
    requires reached { block.old.base ≤ start }
    ensures block { IsBlock text.now block.new }
    ensures reached { IfOk result (λ r. block.new.base ≤ r.1) }
    ensures within { IfOk result (λ r. r.1 ≤ length text.now) }
    ensures spans { IfOk result (λ r. AreSpans text.now spans.new) }
    ensures row { IfOk result (λ r. r.0 ≡ found.Row → records_from text.now start ≡ fields_in text.now spans.new ∷ records_from text.now r.1) }
    ensures wide { IfOk result (λ r. r.0 ≡ found.Wide → BeginsWide (records_from text.now start)) }
    ensures end { IfOk result (λ r. r.0 ≡ found.End → records_from text.now start ≡ []) }
{
    spans.clear();
    if start == text.len() {
        return Ok((Found::End, start));
    }
    let mut from = start;
    'fields: while spans.count() < MOST_FIELDS {
        let end = next_field(text, from, block, spans)?;
        if end == text.len() {
            return Ok((Found::Row, end));
        }
        from = end + 1;
        if text[end] == b'\n' {
            return Ok((Found::Row, from));
        }
    }
    Ok((Found::Wide, from))
}

/// Puts the field that begins at a place after the others, and gives the place of its end.
#[inline(always)]
fn next_field(
    text: &[u8],
    from: usize,
    block: &mut Block,
    spans: &mut Spans,
) -> Result<usize, AllocError>
    requires lines { NoReturn text.now }
    requires within { from ≤ length text.now }
    requires block { IsBlock text.now block.old }
    requires reached { block.old.base ≤ from }
    requires spans { AreSpans text.now spans.old }
    requires room { length (fields_in text.now spans.old) < 64 }
    ensures block { IsBlock text.now block.new }
    ensures reached { IfOk result (λ end. block.new.base ≤ end) }
    ensures spans { IfOk result (λ end. AreSpans text.now spans.new) }
    ensures written { IfOk result (λ end. IsWritten text.now from end) }
    ensures field { IfOk result (λ end. fields_in text.now spans.new ≡ fields_in text.now spans.old ++ read_as (between from end text.now) ∷ []) }
{
    if is_quote_at(text, from) {
        return quoted_field(text, from, block, spans);
    }
    let end = end_from(text, block, from);
    spans.push(text, from, end);
    Ok(end)
}

/// Puts the field that begins with the quote at a place after the others, and gives the place of its end.
#[inline(always)]
fn quoted_field(
    text: &[u8],
    from: usize,
    block: &mut Block,
    spans: &mut Spans,
) -> Result<usize, AllocError>
    requires lines { NoReturn text.now }
    requires within { from < length text.now }
    requires quote { slice_index text.now from ≡ 34 }
    requires block { IsBlock text.now block.old }
    requires reached { block.old.base ≤ from }
    requires spans { AreSpans text.now spans.old }
    requires room { length (fields_in text.now spans.old) < 64 }
    ensures block { IsBlock text.now block.new }
    ensures reached { IfOk result (λ end. block.new.base ≤ end) }
    ensures spans { IfOk result (λ end. AreSpans text.now spans.new) }
    ensures written { IfOk result (λ end. IsWritten text.now from end) }
    ensures field { IfOk result (λ end. fields_in text.now spans.new ≡ fields_in text.now spans.old ++ read_as (between from end text.now) ∷ []) }
{
    let quote = quote_from(text, block, from + 1);
    let close = past_pairs(text, block, quote);
    let end = end_from(text, block, close);
    push_quoted(text, from, quote, end, spans)?;
    Ok(end)
}

/// Puts the field that is written between two places, a quote first, after the others. The place of the next quote in it is
/// given.
#[inline(always)]
fn push_quoted(
    text: &[u8],
    from: usize,
    quote: usize,
    end: usize,
    spans: &mut Spans,
) -> Result<(), AllocError>
    requires written { IsWritten text.now from end }
    requires quote { slice_index text.now from ≡ 34 }
    requires next { IsFirst is_quote text.now (from + 1) quote }
    requires spans { AreSpans text.now spans.old }
    requires room { length (fields_in text.now spans.old) < 64 }
    ensures spans { OnOk result (AreSpans text.now spans.new) }
    ensures field { OnOk result (fields_in text.now spans.new ≡ fields_in text.now spans.old ++ read_as (between from end text.now) ∷ []) }
{
    if end == quote + 1 {
        spans.push(text, from + 1, quote);
        return Ok(());
    }
    spans.push_written(text, &text[from..end])
}

/// Whether there is a quote at a place.
#[inline(always)]
fn is_quote_at(text: &[u8], at: usize) -> bool
    ensures quote { result ≡ true → (at < length text.now) × (slice_index text.now at ≡ 34) }
    ensures other { result ≡ false → at < length text.now → slice_index text.now at ≢ 34 }
{
    at < text.len() && text[at] == b'"'
}

/// The place after the quote that closes a field, or the end of the text. The first quote after the one that opens the field
/// is given.
#[inline(always)]
fn past_pairs(text: &[u8], block: &mut Block, first: usize) -> usize
    requires within { first ≤ length text.now }
    requires quote { first < length text.now → slice_index text.now first ≡ 34 }
    requires block { IsBlock text.now block.old }
    requires reached { block.old.base ≤ first }
    ensures low { first ≤ result }
    ensures within { result ≤ length text.now }
    ensures block { IsBlock text.now block.new }
    ensures reached { block.new.base ≤ result }
    ensures closed { (start : ℕ) → start ≤ first → LeavesOpen text.now start first → IsClosed text.now start result }
{
    let mut quote = first;
    'pairs: while is_quote_at(text, quote + 1) {
        quote = quote_from(text, block, quote + 2);
    }
    if quote == text.len() {
        return quote;
    }
    quote + 1
}
