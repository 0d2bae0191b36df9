//! Where a record begins.

ghost use Rattle.std.specs.Prelude.{◌≡◌, ◌<◌, ◌≤◌, false, length, slice_index};
ghost use Rattle.csv_rows.specs.Records.{records_of};
ghost use Rattle.row_windows.specs.Seams.{BeginsLine, is_line_end};
ghost use Rattle.text_lines.specs.Begins.{AllEndFrom, BeginsAt, EndsBefore};

use row_windows::header_end;

/// The first byte of a record of lines, before which there are this many others; the lines begin with the end of a line. In
/// time linear in the bytes up to it.
pub fn record_begin(lines: &[u8], before: u64) -> usize
    requires line { BeginsLine lines.now }
    requires some { before < length (records_of lines.now) }
    ensures { BeginsAt lines.now before result }
{
    past_ends(lines, records_end(lines, before))
}

/// Where the first records of lines end: behind the last byte of the last of them.
fn records_end(lines: &[u8], before: u64) -> usize
    requires line { BeginsLine lines.now }
    requires some { before < length (records_of lines.now) }
    ensures { EndsBefore lines.now before result }
{
    let mut end = 0;
    'records: for _at in 0..before {
        match header_end(&lines[end..]) {
            Some(more) => end += more,
            None => unreachable!(),
        }
    }
    end
}

/// The first place from this one on at which no line ends, or the end of the bytes.
pub fn past_ends(bytes: &[u8], from: usize) -> usize
    requires { from ≤ length bytes.now }
    ensures low { from ≤ result }
    ensures high { result ≤ length bytes.now }
    ensures ends { AllEndFrom bytes.now from result }
    ensures other { is_line_end (slice_index bytes.now result) ≡ false }
{
    'ends: for at in from..bytes.len() {
        if !ends_line(bytes[at]) {
            return at;
        }
    }
    bytes.len()
}

/// Whether a byte ends a line.
fn ends_line(byte: u8) -> bool
    ensures { result ≡ is_line_end byte }
{
    byte == b'\n' || byte == b'\r'
}
