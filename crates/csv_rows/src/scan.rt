//! A scan for quotes in several threads.
//!
//! Each part but the first begins at a line feed, after which a scan that is not between quotes can be at one place
//! only. So two scans of each part, one from between quotes and one from outside them, give the place of a scan of the
//! whole.

ghost use Rattle.std.specs.Prelude.{if◌then◌else◌, ◌≡◌};
ghost use Rattle.std.specs.Thread.{IsSync};
ghost use Rattle.csv_rows.specs.Places.{is_quoted_place, place_after};
ghost use Rattle.csv_rows.specs.declared.place.Place.TheVariants as place;

use crate::place::{Place, past_others, past_quote};
use memchr::memchr;
use std::thread::{Threads, join};

/// The places at which scans of a text end: one from between quotes, and one from where a quote would open a quoted
/// text.
#[derive(Clone, Copy, Drop)]
pub(crate) struct Ends {
    pub(crate) quoted: Place,
    pub(crate) opens: Place,
}

/// Where a scan of these bytes ends, by at most this many threads.
pub(crate) fn scan_in_threads<R: Threads + Sync>(rt: &R, bytes: &[u8], threads: usize) -> Ends
    ensures quoted { result.quoted ≡ place_after place.Quoted bytes.now }
    ensures opens { result.opens ≡ place_after place.Opens bytes.now }
{
    let low = threads / 2;
    if low == 0 {
        return scan(bytes);
    }
    let half = bytes.len() / threads * low;
    let Some(count) = memchr(b'\n', &bytes[half..]) else {
        return scan(bytes);
    };
    let (front, back) = bytes.split_at(half + count);
    let high = threads - low;
    let (first, second) = join(
        rt,
        || -> Ends
            requires { IsSync R.row }
            ensures { (result.quoted ≡ place_after place.Quoted front.entry.now) × (result.opens ≡ place_after place.Opens front.entry.now) }
        { scan_in_threads(rt, front, low) },
        || -> Ends
            requires { IsSync R.row }
            ensures { (result.quoted ≡ place_after place.Quoted back.entry.now) × (result.opens ≡ place_after place.Opens back.entry.now) }
        { scan_in_threads(rt, back, high) },
    );
    Ends {
        quoted: end_from(second, first.quoted),
        opens: end_from(second, first.opens),
    }
}

/// Where a scan of a text that begins with a line feed ends, from a place before it.
fn end_from(ends: Ends, start: Place) -> Place
    ensures { result ≡ (if is_quoted_place start then ends.quoted else ends.opens) }
{
    match start {
        Place::Quoted => ends.quoted,
        Place::Opens | Place::Inside => ends.opens,
    }
}

/// Where a scan of these bytes ends, in the caller's thread.
fn scan(bytes: &[u8]) -> Ends
    ensures quoted { result.quoted ≡ place_after place.Quoted bytes.now }
    ensures opens { result.opens ≡ place_after place.Opens bytes.now }
{
    let mut quoted = Place::Quoted;
    let mut opens = Place::Opens;
    let mut at = 0;
    'quotes: while let Some(count) = memchr(b'"', &bytes[at..]) {
        let others = &bytes[at..at + count];
        quoted = past_quote(past_others(others, quoted));
        opens = past_quote(past_others(others, opens));
        at += count + 1;
    }
    let others = &bytes[at..];
    Ends {
        quoted: past_others(others, quoted),
        opens: past_others(others, opens),
    }
}
