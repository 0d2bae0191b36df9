//! The place of a scan after many bytes.

ghost use Rattle.std.specs.Prelude.{◌≡◌, ◌<◌, ◌≤◌, ◌+◌, ◌-◌, drop, length, slice_index, take};
ghost use Rattle.csv_rows.specs.Places.{place_after};
ghost use Rattle.tile_source.specs.Quotes.{HasScanned, NoQuoteIn};

use crate::mask::{BLOCK, lowest, quotes, without};
use csv_rows::{Place, past_others, past_quote};

/// Up to where a scan has gone through a text, and what a quote would mean there.
#[derive(Clone, Copy, Drop)]
struct Cursor {
    from: usize,
    place: Place,
}

/// The place after these bytes, from a place before them. In linear time, with few steps for a byte that is no quote.
pub(crate) fn place_behind(text: &[u8], start: Place) -> Place
    ensures { result ≡ place_after start text.now }
{
    let mut cursor = Cursor {
        from: 0,
        place: start,
    };
    let mut at = 0;
    'steps: while at < text.len() {
        cursor = scan_block(text, start, at, cursor);
        at += BLOCK;
    }
    past_others(&text[cursor.from..], cursor.place)
}

/// Goes past the quotes among the next 64 bytes from a place on.
fn scan_block(text: &[u8], start: Place, at: usize, before: Cursor) -> Cursor
    requires within { at < length text.now }
    requires scanned { HasScanned start text.now before.from before.place }
    requires clear { NoQuoteIn text.now before.from at }
    requires low { before.from ≤ at }
    ensures scanned { HasScanned start text.now result.from result.place }
    ensures clear { NoQuoteIn text.now result.from (at + 64) }
    ensures low { result.from ≤ at + 64 }
{
    // Tells where the scan began. It does nothing.
    let _start = start;
    let mut cursor = before;
    let mut mask = quotes(text, at);
    'marks: while mask != 0 {
        let bit = lowest(mask);
        cursor = past(text, start, cursor, at + bit);
        mask = without(mask, bit);
    }
    cursor
}

/// Goes past the next quote, which is at this place.
#[inline(always)]
fn past(text: &[u8], start: Place, before: Cursor, quote: usize) -> Cursor
    requires low { before.from ≤ quote }
    requires within { quote < length text.now }
    requires quote { slice_index text.now quote ≡ 34 }
    requires scanned { HasScanned start text.now before.from before.place }
    requires clear { NoQuoteIn text.now before.from quote }
    ensures scanned { HasScanned start text.now result.from result.place }
    ensures from { result.from ≡ quote + 1 }
{
    let _start = start;
    Cursor {
        from: quote + 1,
        place: past_quote(past_others(&text[before.from..quote], before.place)),
    }
}
