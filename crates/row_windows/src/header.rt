//! Where the line of the header ends.

ghost use Rattle.std.specs.Prelude.{◌≡◌, ◌≤◌, IfSome, None, length, take};
ghost use Rattle.csv_rows.specs.Records.{records_of};
ghost use Rattle.row_windows.specs.Ends.{IsFirstEnd, NoneBehind};
ghost use Rattle.row_windows.specs.Seams.{IsCutAt, is_line_end};

use csv_rows::{Place, scanned, without_mark};

/// The first place behind some byte that ends no line at which a text can be cut: in front of it stands the first record,
/// and that alone. In time linear in the bytes up to it.
pub fn header_end(bytes: &[u8]) -> Option<usize>
    ensures cut { IfSome result (λ at. IsCutAt bytes.now at) }
    ensures one { IfSome result (λ at. length (records_of (take at bytes.now)) ≡ 1) }
    ensures none { result ≡ None → length (records_of bytes.now) ≤ 1 }
{
    let text = without_mark(bytes);
    let mark = bytes.len() - text.len();
    match first_end(text) {
        Some(at) => Some(mark + at),
        None => None,
    }
}

/// The first end of a line of a text that stands outside quotes, behind a byte that ends none.
fn first_end(text: &[u8]) -> Option<usize>
    ensures some { IfSome result (IsFirstEnd text.now) }
    ensures none { result ≡ None → NoneBehind text.now (length text.now) }
{
    let mut place = Place::Opens;
    let mut begun = false;
    'bytes: for at in 0..text.len() {
        if !ends_line(text[at]) {
            begun = true;
        } else if begun && place != Place::Quoted {
            return Some(at);
        }
        place = scanned(&text[at..at + 1], place);
    }
    None
}

/// Whether a byte ends a line.
pub(crate) fn ends_line(byte: u8) -> bool
    ensures { result ≡ is_line_end byte }
{
    byte == b'\n' || byte == b'\r'
}
