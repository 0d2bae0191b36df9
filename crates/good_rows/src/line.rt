//! Where a line ends.

ghost use Rattle.std.specs.Prelude.{◌≡◌, ◌<◌, ◌≤◌, IfSome, length, not, slice_index, take, true};
ghost use Rattle.csv_rows.specs.Places.{is_quoted_place, place_after};
ghost use Rattle.row_windows.specs.Seams.{is_line_end};
ghost use Rattle.good_rows.specs.Judging.{GoesOn};
ghost use Rattle.good_rows.specs.Lines.{ends_here};

use csv_rows::{Place, scanned};

/// How many of some bytes go on with a line, and at which place a scan is behind them.
#[derive(Clone, Copy, Drop)]
pub struct LineEnd {
    pub at: usize,
    pub place: Place,
}

/// The end of a line among some bytes, which a scan reaches at this place; all of them go on with it if there is none. In
/// linear time.
pub fn line_end(bytes: &[u8], start: Place) -> LineEnd
    ensures within { result.at ≤ length bytes.now }
    ensures ends { result.at < length bytes.now → ends_here result.place (slice_index bytes.now result.at) ≡ true }
    ensures goes { GoesOn start bytes.now result.at result.place }
{
    let mut place = start;
    'bytes: for at in 0..bytes.len() {
        if ends_here(place, bytes[at]) {
            return LineEnd { at, place };
        }
        place = scanned(&bytes[at..at + 1], place);
    }
    LineEnd {
        at: bytes.len(),
        place,
    }
}

/// The last end of a line among some bytes, which a scan reaches at this place, unless the last byte that ends lines is between
/// quotes. In linear time.
pub fn last_end(bytes: &[u8], start: Place) -> Option<LineEnd>
    ensures within { IfSome result (λ end. end.at < length bytes.now) }
    ensures ends { IfSome result (λ end. ends_here end.place (slice_index bytes.now end.at) ≡ true) }
    ensures place { IfSome result (λ end. end.place ≡ place_after start (take end.at bytes.now)) }
{
    let at = last_line_end(bytes)?;
    let place = scanned(&bytes[..at], start);
    if !ends_here(place, bytes[at]) {
        return None;
    }
    Some(LineEnd { at, place })
}

/// The last byte that ends lines.
fn last_line_end(bytes: &[u8]) -> Option<usize>
    ensures { IfSome result (λ at. at < length bytes.now) }
{
    let mut at = bytes.len();
    'bytes: while at > 0 {
        at -= 1;
        if ends_line(bytes[at]) {
            return Some(at);
        }
    }
    None
}

/// Whether a line ends in front of a byte.
fn ends_here(place: Place, byte: u8) -> bool
    ensures { result ≡ ends_here place byte }
{
    ends_line(byte) && is_outside(place)
}

/// Whether a byte ends a line.
fn ends_line(byte: u8) -> bool
    ensures { result ≡ is_line_end byte }
{
    byte == b'\n' || byte == b'\r'
}

/// Whether a scan is outside quotes.
fn is_outside(place: Place) -> bool
    ensures { result ≡ not (is_quoted_place place) }
{
    match place {
        Place::Quoted => false,
        Place::Opens | Place::Inside => true,
    }
}
