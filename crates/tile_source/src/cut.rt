//! Where a tile ends: a scan for quotes that goes on from one stretch of its bytes to the next.

ghost use Rattle.std.specs.Prelude.{◌≡◌, ◌<◌, ◌≤◌, ◌+◌, ◌-◌, ◌^◌, false, length, min, slice_index, take, true};
ghost use Rattle.csv_rows.specs.Places.{place_after};
ghost use Rattle.csv_rows.specs.declared.place.Place.TheVariants as place;
ghost use Rattle.row_windows.specs.Seams.{is_line_end};
ghost use Rattle.tile_source.specs.Scan.{IsFirst};

use crate::scan::place_behind;
use csv_rows::{Place, scanned};

/// A scan of some bytes of a file, which ends at the first seam at or after a place.
#[derive(Clone, Copy, Drop)]
pub(crate) struct Cut {
    /// The place in the file of the next byte.
    pub(crate) at: u64,
    /// What a quote would mean there.
    pub(crate) place: Place,
    /// From which place on the scan ends at a seam.
    pub(crate) goal: u64,
    /// How many bytes the file has.
    pub(crate) size: u64,
    /// Whether it has ended.
    pub(crate) is_done: bool,
}

impl Cut {
    ghost use Rattle.tile_source.specs.Passing.{IsPassed};

    /// A scan from this place on, which is taken to be outside quotes, up to the first seam at or after another.
    pub(crate) fn new(at: u64, goal: u64, size: u64) -> Cut
        ensures { result ≡ record { at = at; place = place.Opens; goal = goal; size = size; is_done = false } }
    {
        Cut {
            at,
            place: Place::Opens,
            goal,
            size,
            is_done: false,
        }
    }

    /// How many of the next bytes come before the seam; all of them if the scan goes on behind them.
    pub(crate) fn pass(&mut self, bytes: &[u8]) -> usize
        requires { self.old.is_done ≡ false }
        ensures { IsPassed self.old bytes.now result self.new }
    {
        // Tells that the size is a number of 64 bits. It does nothing.
        let _size = self.size;
        let sure = sure_of(self.goal.saturating_sub(self.at), bytes.len());
        let start = place_behind(&bytes[..sure], self.place);
        let found = first_seam(&bytes[sure..], start);
        let count = sure + found.at;
        self.at = self.at.saturating_add(count as u64);
        self.place = found.place;
        self.is_done = count < bytes.len();
        count
    }

    /// Whether the file is to have more bytes than those before the next one.
    pub(crate) fn is_short(&self) -> bool
        ensures yes { result ≡ true → self.now.at < self.now.size }
        ensures no { result ≡ false → self.now.size ≤ self.now.at }
    {
        self.at < self.size
    }
}

/// Where a scan ends, and at which place it is there.
#[derive(Clone, Copy, Drop)]
struct Seam {
    at: usize,
    place: Place,
}

/// The first seam of some bytes, at the first of which a scan is at this place; all of them if there is none.
fn first_seam(bytes: &[u8], start: Place) -> Seam
    ensures first { IsFirst start bytes.now result.at }
    ensures place { result.place ≡ place_after start (take result.at bytes.now) }
{
    let mut place = start;
    'bytes: for at in 0..bytes.len() {
        if place != Place::Quoted && ends_line(bytes[at]) {
            return Seam { at, place };
        }
        place = scanned(&bytes[at..at + 1], place);
    }
    Seam {
        at: bytes.len(),
        place,
    }
}

/// How many of this many bytes come before a place that is so far away.
fn sure_of(far: u64, count: usize) -> usize
    ensures { result ≡ min far count }
{
    if far < count as u64 {
        far as usize
    } else {
        count
    }
}

/// Whether a byte ends a line.
pub(crate) fn ends_line(byte: u8) -> bool
    ensures { result ≡ is_line_end byte }
{
    byte == b'\n' || byte == b'\r'
}
