//! Places at which a text can be cut: in front of a byte that ends a line and does not stand between quotes. Mostly the last
//! one is looked for.
//!
//! Which bytes stand between quotes depends on all bytes before, so a scan goes from quote to quote; among the last bytes
//! it looks between them for the last end of a line. A byte order mark at the front is no byte of the text.

ghost use Rattle.std.specs.Prelude.{◌≡◌, ◌≤◌, ◌-◌, IfSome, None, drop, length, take};
ghost use Rattle.csv.specs.Reading.{strip_bom};
ghost use Rattle.csv_rows.specs.Places.{NoQuote, place_after};
ghost use Rattle.csv_rows.specs.declared.place.Place.TheVariants as place;
ghost use Rattle.row_windows.specs.Ends.{IsLastBelow, IsOpenEnd};
ghost use Rattle.row_windows.specs.Seams.{IsCutAt, NoCut};

use crate::header::ends_line;
use crate::quotes::place_behind;
use csv_rows::{Place, past_others, past_quote, scanned, without_mark};
use memchr::{memchr, memrchr2};

/// How many bytes at the end of a text are looked at first: lines are mostly shorter.
const LAST_BYTES: usize = 4096;

/// The last place behind its first byte at which a text can be cut. In linear time.
fn last_cut(bytes: &[u8]) -> Option<usize>
    ensures cut { IfSome result (λ at. IsCutAt bytes.now at) }
    ensures none { result ≡ None → NoCut (strip_bom bytes.now) }
{
    let text = without_mark(bytes);
    let mark = bytes.len() - text.len();
    match last_end(text) {
        Some(at) => Some(mark + at),
        None => None,
    }
}

/// A place behind its first byte, and among this many bytes, at which a text can be cut: the last one, or for a text that
/// begins with a long record the first, so that the window of that record has no more rows than others. In linear time.
pub(crate) fn cut_in(bytes: &[u8], goal: usize, begins_long: bool) -> Option<usize>
    ensures cut { IfSome result (IsCutAt bytes.now) }
    ensures none { result ≡ None → length bytes.now ≤ goal → NoCut (strip_bom bytes.now) }
{
    let near = &bytes[..goal.min(bytes.len())];
    match last_cut(near) {
        Some(last) => Some(first_cut(near, last, begins_long)),
        None => None,
    }
}

/// The first place behind its first byte at which a text can be cut, for a text that begins with a long record, and else
/// this one, at which it can.
fn first_cut(bytes: &[u8], other: usize, begins_long: bool) -> usize
    requires { IsCutAt bytes.now other }
    ensures { IsCutAt bytes.now result }
{
    if !begins_long {
        return other;
    }
    let text = without_mark(bytes);
    let mark = bytes.len() - text.len();
    match first_end(text) {
        Some(at) => mark + at,
        None => other,
    }
}

/// The first end of a line of a text that stands outside quotes, behind its first byte.
fn first_end(text: &[u8]) -> Option<usize>
    ensures { IfSome result (IsOpenEnd text.now) }
{
    let mut place = Place::Opens;
    'bytes: for at in 0..text.len() {
        if at > 0 && place != Place::Quoted && ends_line(text[at]) {
            return Some(at);
        }
        place = scanned(&text[at..at + 1], place);
    }
    None
}

/// The last end of a line of a text that stands outside quotes, behind its first byte. It is looked for in the last bytes
/// first, for which the others are only scanned for quotes, and only then among all.
fn last_end(text: &[u8]) -> Option<usize>
    ensures { IsLastBelow text.now (length text.now) result }
{
    let from = text.len().saturating_sub(LAST_BYTES);
    match last_from(text, from, place_behind(&text[..from])) {
        Some(at) => Some(at),
        None => last_from(text, 0, Place::Opens),
    }
}

/// The last end of a line of a text from a place on that stands outside quotes, behind the text's first byte.
fn last_from(text: &[u8], from: usize, here: Place) -> Option<usize>
    requires within { from ≤ length text.now }
    requires here { here ≡ place_after place.Opens (take from text.now) }
    ensures some { IfSome result (IsOpenEnd text.now) }
    ensures last { from ≡ 0 → IsLastBelow text.now (length text.now) result }
{
    let mut place = here;
    let mut last = None;
    let mut at = from;
    'quotes: while let Some(count) = memchr(b'"', &text[at..]) {
        last = later_end(text, at, at + count, place, last);
        place = past_quote(past_others(&text[at..at + count], place));
        at += count + 1;
    }
    later_end(text, at, text.len(), place, last)
}

/// The last end of a line below a place, by the last one below an earlier place. Between the two there is no quote.
fn later_end(text: &[u8], from: usize, to: usize, here: Place, last: Option<usize>) -> Option<usize>
    requires order { from ≤ to }
    requires within { to ≤ length text.now }
    requires others { NoQuote (take (to - from) (drop from text.now)) }
    requires here { here ≡ place_after place.Opens (take from text.now) }
    requires some { IfSome last (IsOpenEnd text.now) }
    ensures some { IfSome result (IsOpenEnd text.now) }
    ensures last { IsLastBelow text.now from last → IsLastBelow text.now to result }
{
    if here == Place::Quoted {
        return last;
    }
    match memrchr2(b'\n', b'\r', &text[from..to]) {
        Some(count) if from + count > 0 => Some(from + count),
        _ => last,
    }
}
