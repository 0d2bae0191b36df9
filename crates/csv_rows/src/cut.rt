//! Where a table can be cut: before a line feed that is not between quotes.
//!
//! Which bytes are between quotes depends on all bytes before them, so a scan goes through those first.

ghost use Rattle.std.specs.Prelude.{◌≡◌, ◌≢◌, ◌<◌, ◌≤◌, IfSome, length, slice_index, take};
ghost use Rattle.csv.specs.Reading.{strip_bom};
ghost use Rattle.csv_rows.specs.Cuts.{IsCut};
ghost use Rattle.csv_rows.specs.Places.{has_mark, place_after};
ghost use Rattle.csv_rows.specs.declared.place.Place.TheVariants as place;

use crate::place::{Place, scanned};
use crate::scan::scan_in_threads;
use memchr::memchr;
use std::thread::Threads;

/// A place from this one on at which the table can be cut. The time is linear in the bytes before it; at most this many
/// threads go through those up to the place given.
pub(crate) fn find_cut<R: Threads + Sync>(
    rt: &R,
    bytes: &[u8],
    from: usize,
    threads: usize,
) -> Option<usize>
    ensures bound { IfSome result (λ at. at < length bytes.now) }
    ensures line { IfSome result (λ at. slice_index bytes.now at ≡ 10) }
    ensures cut { IfSome result (λ at. IsCut (take at bytes.now)) }
{
    let text = without_mark(bytes);
    let mark = bytes.len() - text.len();
    match cut_after(rt, text, from.min(text.len()), threads) {
        Some(at) => Some(mark + at),
        None => None,
    }
}

/// The text after its byte order mark, if it begins with one. In constant time.
pub fn without_mark(bytes: &[u8]) -> &[u8]
    ensures text { result.now ≡ strip_bom bytes.now }
    ensures length { length result.now ≤ length bytes.now }
{
    if has_mark(bytes) {
        return &bytes[3..];
    }
    bytes
}

/// Whether a text begins with a byte order mark.
fn has_mark(bytes: &[u8]) -> bool
    ensures { result ≡ has_mark bytes.now }
{
    bytes.len() >= 3 && bytes[0] == 0xEF && bytes[1] == 0xBB && bytes[2] == 0xBF
}

/// A place from this one on at which a text with no byte order mark can be cut.
fn cut_after<R: Threads + Sync>(rt: &R, text: &[u8], from: usize, threads: usize) -> Option<usize>
    requires { from ≤ length text.now }
    ensures bound { IfSome result (λ at. at < length text.now) }
    ensures line { IfSome result (λ at. slice_index text.now at ≡ 10) }
    ensures cut { IfSome result (λ at. place_after place.Opens (take at text.now) ≢ place.Quoted) }
{
    let (front, back) = text.split_at(from);
    match first_line_end(back, scan_in_threads(rt, front, threads).opens) {
        Some(at) => Some(from + at),
        None => None,
    }
}

/// The first line feed that is not between quotes.
fn first_line_end(bytes: &[u8], start: Place) -> Option<usize>
    ensures bound { IfSome result (λ at. at < length bytes.now) }
    ensures line { IfSome result (λ at. slice_index bytes.now at ≡ 10) }
    ensures cut { IfSome result (λ at. place_after start (take at bytes.now) ≢ place.Quoted) }
{
    let mut place = start;
    let mut at = 0;
    'lines: while let Some(count) = memchr(b'\n', &bytes[at..]) {
        let line = &bytes[at..at + count];
        place = scanned(line, place);
        if place != Place::Quoted {
            return Some(at + count);
        }
        // No line feed is one of these up to the next quote.
        at += count;
        match memchr(b'"', &bytes[at..]) {
            Some(more) => at += more,
            None => return None,
        }
    }
    None
}
