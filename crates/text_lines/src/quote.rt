//! A quote that is not closed.

ghost use Rattle.std.specs.Prelude.{◌≡◌, ◌≢◌, ◌<◌, ◌+◌, IfSome, None, length, slice_index, take};
ghost use Rattle.csv_rows.specs.Places.{place_after};
ghost use Rattle.csv_rows.specs.declared.place.Place.TheVariants as place;
ghost use Rattle.text_lines.specs.Quotes.{IsLastOpening, IsOpenQuote};

use csv_rows::{Place, past_others, past_quote};
use memchr::memchr;

/// The quote of a text that is not closed by its end, if there is one: the text begins with the first byte of a record. In
/// linear time.
pub fn open_quote(text: &[u8]) -> Option<usize>
    ensures some { IfSome result (IsOpenQuote text.now) }
    ensures none { result ≡ None → place_after place.Opens text.now ≢ place.Quoted }
{
    let mut place = Place::Opens;
    let mut last = None;
    let mut at = 0;
    'quotes: while let Some(count) = memchr(b'"', &text[at..]) {
        place = past_others(&text[at..at + count], place);
        last = later_opening(text, at + count, place, last);
        place = past_quote(place);
        at += count + 1;
    }
    let end = past_others(&text[at..], place);
    if end != Place::Quoted {
        return None;
    }
    last
}

/// The last place up to a quote at which the text of a field in quotes begins, by the last one before that quote, which a
/// scan has reached so. It begins here if no other quote is right before it.
fn later_opening(text: &[u8], quote: usize, here: Place, last: Option<usize>) -> Option<usize>
    requires within { quote < length text.now }
    requires quote { slice_index text.now quote ≡ 34 }
    requires here { here ≡ place_after place.Opens (take quote text.now) }
    requires last { IsLastOpening text.now quote last }
    ensures { IsLastOpening text.now (quote + 1) result }
{
    if here != Place::Opens {
        return last;
    }
    if quote == 0 {
        return Some(quote);
    }
    let before = text[quote - 1];
    if before == b'"' {
        return last;
    }
    Some(quote)
}
