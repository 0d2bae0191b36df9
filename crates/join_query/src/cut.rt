//! The line that parts an input into two tables: the one byte `%`, ended by a line feed.

ghost use Rattle.std.specs.Prelude.{◌≡◌, ◌+◌, ◌<◌, ◌↔◌, IfSome, IsTrue, length, slice_index};
ghost use Rattle.join_query.specs.Outcome.{IsCut, IsSeparator};

use memchr::memchr;

/// Where the first such line begins, if there is one: at the start, or after a line feed. Time is linear in the bytes up
/// to its end.
pub fn find_separator(bytes: &[u8]) -> Option<usize>
    ensures first { IsCut bytes.now result }
    ensures within { IfSome result (λ place. place + 1 < length bytes.now) }
{
    let mut at = 0;
    'marks: while let Some(count) = memchr(b'%', &bytes[at..]) {
        let place = at + count;
        if is_separator(bytes, place) {
            return Some(place);
        }
        at = place + 1;
    }
    None
}

/// Whether such a line begins with the mark at this place.
fn is_separator(bytes: &[u8], place: usize) -> bool
    requires within { place < length bytes.now }
    requires mark { slice_index bytes.now place ≡ 37 }
    ensures { IsTrue result ↔ IsSeparator bytes.now place }
{
    if place > 0 && bytes[place - 1] != b'\n' {
        return false;
    }
    place + 1 < bytes.len() && bytes[place + 1] == b'\n'
}
