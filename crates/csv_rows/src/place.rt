//! The place of a scan for quotes: what a quote would mean next.
//!
//! A quote means one thing between quotes, another where a quoted text may begin, and a third in the middle of a field.
//! Between two quotes only the last byte decides which of these the next one meets, so a scan looks at quotes and at
//! the byte before each.

ghost use Rattle.std.specs.Prelude.{◌≡◌};
ghost use Rattle.csv_rows.specs.Places.{NoQuote, after_other, after_quote, place_after};

use memchr::memchr;

/// Between quotes, where a quote would begin such a text, or where it would be a byte like any other.
#[derive(Clone, Copy, Drop, PartialEq, Eq)]
pub enum Place {
    Quoted,
    Opens,
    Inside,
}

/// The place after these bytes, from a place before them. In linear time.
pub fn scanned(bytes: &[u8], start: Place) -> Place
    ensures { result ≡ place_after start bytes.now }
{
    let mut place = start;
    let mut at = 0;
    'quotes: while let Some(count) = memchr(b'"', &bytes[at..]) {
        place = past_quote(past_others(&bytes[at..at + count], place));
        at += count + 1;
    }
    past_others(&bytes[at..], place)
}

/// The place after a quote.
pub fn past_quote(place: Place) -> Place
    ensures { result ≡ after_quote place }
{
    match place {
        Place::Quoted => Place::Opens,
        Place::Opens => Place::Quoted,
        Place::Inside => Place::Inside,
    }
}

/// The place after bytes of which none is a quote. In constant time.
pub fn past_others(bytes: &[u8], start: Place) -> Place
    requires { NoQuote bytes.now }
    ensures { result ≡ place_after start bytes.now }
{
    if bytes.is_empty() {
        return start;
    }
    past_other(start, bytes[bytes.len() - 1])
}

/// The place after a byte that is no quote.
fn past_other(start: Place, byte: u8) -> Place
    ensures { result ≡ after_other start byte }
{
    match start {
        Place::Quoted => Place::Quoted,
        Place::Opens | Place::Inside => {
            if byte == b',' || byte == b'\r' || byte == b'\n' {
                Place::Opens
            } else {
                Place::Inside
            }
        }
    }
}
