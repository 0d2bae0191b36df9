//! The cover: which bytes of which source a file of states is of, and how many rows they have.
//!
//! Nothing that is read is taken on trust: each stretch lies within its source.

ghost use Rattle.std.specs.Prelude.{◌≡◌, ◌<◌, ◌≤◌, ◌^◌, ◌++◌, ◌↔◌, ℕ, List, IfSome, IsTrue, MatchOption, OnOk};
ghost use Rattle.state_head.specs.Cover.{AreRows, FitsPlace, IsPlace, IsRefusedRow, IsStretch, place_bytes, rows_bytes, stretch_bytes};
ghost use Rattle.state_head.specs.declared.cover.Place.{Place};
ghost use Rattle.state_head.specs.declared.cover.RefusedRow.{RefusedRow};
ghost use Rattle.state_head.specs.declared.cover.Rows.{Rows};
ghost use Rattle.state_head.specs.declared.cover.Stretch.{Stretch};
ghost use Rattle.state_file.specs.Number.{number_bytes};

use state_file::{push_number, read_count};
use std::alloc::AllocError;

/// The most rows of a table: 2^50.
const MOST_ROWS: u64 = 1 << 50;

/// The greatest number of a source.
const MOST_SOURCE: u64 = u32::MAX as u64;

/// Some bytes of a source: those from one place up to another, of a source of `size` bytes.
#[derive(Clone, Copy, Debug, PartialEq, Eq)]
pub struct Place {
    pub source: u32,
    pub from: u64,
    pub to: u64,
    pub size: u64,
}

/// A row that is refused: its number, where the first row is 1; its cause; and for which aggregate of the plan.
#[derive(Clone, Copy, Debug, PartialEq, Eq)]
pub struct RefusedRow {
    pub row: u64,
    pub cause: u8,
    pub item: u32,
}

/// How many rows some bytes have, or which of them is the first refused one.
#[derive(Clone, Copy, Debug, PartialEq, Eq)]
pub enum Rows {
    Counted(u64),
    Refused(RefusedRow),
}

/// Some bytes of a source, and their rows.
#[derive(Clone, Copy, Debug, PartialEq, Eq)]
pub struct Stretch {
    pub place: Place,
    pub rows: Rows,
}

/// Puts a stretch at the end of some bytes: at most 66 bytes.
#[tactic(auto, unfolding(crate::specs::Cover::stretch_bytes))]
pub fn push_stretch(out: &mut Vec<u8>, stretch: Stretch) -> Result<(), AllocError>
    ensures { OnOk result (out.new.items ≡ out.old.items ++ stretch_bytes stretch) }
{
    push_place(out, stretch.place)?;
    push_rows(out, stretch.rows)
}

#[tactic(auto, unfolding(crate::specs::Cover::place_bytes))]
fn push_place(out: &mut Vec<u8>, place: Place) -> Result<(), AllocError>
    ensures { OnOk result (out.new.items ≡ out.old.items ++ place_bytes place) }
{
    push_number(out, u128::from(place.source))?;
    push_number(out, u128::from(place.from))?;
    push_number(out, u128::from(place.to))?;
    push_number(out, u128::from(place.size))
}

#[tactic(auto, unfolding(crate::specs::Cover::rows_bytes))]
fn push_rows(out: &mut Vec<u8>, rows: Rows) -> Result<(), AllocError>
    ensures { OnOk result (out.new.items ≡ out.old.items ++ rows_bytes rows) }
{
    match rows {
        Rows::Counted(rows) => {
            push_number(out, 0)?;
            push_number(out, u128::from(rows))
        }
        Rows::Refused(why) => {
            push_number(out, u128::from(why.row))?;
            push_number(out, u128::from(why.cause))?;
            push_number(out, u128::from(why.item))
        }
    }
}

/// The stretch of one of this many sources that some bytes begin with, and the bytes after it.
pub fn read_stretch(bytes: &[u8], sources: u32) -> Option<(Stretch, &[u8])>
    ensures read { IfSome result (λ found. (bytes.now ≡ stretch_bytes found.0 ++ found.1.now) × IsStretch sources found.0) }
    ensures written { (s : Stretch) (rest : List ℕ) → IsStretch sources s → bytes.now ≡ stretch_bytes s ++ rest → MatchOption result ⊥ (λ found. (found.0 ≡ s) × (found.1.now ≡ rest)) }
{
    let Some((place, after)) = read_place(bytes, sources) else {
        return None;
    };
    match read_rows(after) {
        Some((rows, rest)) => Some((Stretch { place, rows }, rest)),
        None => None,
    }
}

/// The place in one of this many sources that some bytes begin with, and the bytes after it.
fn read_place(bytes: &[u8], sources: u32) -> Option<(Place, &[u8])>
    ensures read { IfSome result (λ found. (bytes.now ≡ place_bytes found.0 ++ found.1.now) × IsPlace sources found.0) }
    ensures written { (p : Place) (rest : List ℕ) → IsPlace sources p → bytes.now ≡ place_bytes p ++ rest → MatchOption result ⊥ (λ found. (found.0 ≡ p) × (found.1.now ≡ rest)) }
{
    match read_numbers(bytes) {
        Some((place, rest)) => {
            if is_place(place, sources) {
                Some((place, rest))
            } else {
                None
            }
        }
        None => None,
    }
}

/// The four numbers of a place that some bytes begin with, and the bytes after them.
fn read_numbers(bytes: &[u8]) -> Option<(Place, &[u8])>
    ensures read { IfSome result (λ found. bytes.now ≡ place_bytes found.0 ++ found.1.now) }
    ensures written { (p : Place) (rest : List ℕ) → FitsPlace p → bytes.now ≡ place_bytes p ++ rest → MatchOption result ⊥ (λ found. (found.0 ≡ p) × (found.1.now ≡ rest)) }
{
    let Some((source, after)) = read_count(bytes, MOST_SOURCE) else {
        return None;
    };
    let Some((from, after)) = read_count(after, u64::MAX) else {
        return None;
    };
    let Some((to, after)) = read_count(after, u64::MAX) else {
        return None;
    };
    match read_count(after, u64::MAX) {
        Some((size, rest)) => {
            let place = Place {
                source: source as u32,
                from,
                to,
                size,
            };
            Some((place, rest))
        }
        None => None,
    }
}

/// Whether a place lies in one of this many sources, and has no bytes only if its source has none.
fn is_place(p: Place, sources: u32) -> bool
    ensures { IsTrue result ↔ IsPlace sources p }
{
    if p.source >= sources || p.from > p.to || p.to > p.size {
        return false;
    }
    p.from < p.to || p.size == 0
}

/// The rows that some bytes begin with, counted or one refused, and the bytes after them.
fn read_rows(bytes: &[u8]) -> Option<(Rows, &[u8])>
    ensures read { IfSome result (λ found. (bytes.now ≡ rows_bytes found.0 ++ found.1.now) × AreRows found.0) }
    ensures written { (rows : Rows) (rest : List ℕ) → AreRows rows → bytes.now ≡ rows_bytes rows ++ rest → MatchOption result ⊥ (λ found. (found.0 ≡ rows) × (found.1.now ≡ rest)) }
{
    let Some((row, after)) = read_count(bytes, MOST_ROWS) else {
        return None;
    };
    if row == 0 {
        match read_count(after, MOST_ROWS) {
            Some((rows, rest)) => Some((Rows::Counted(rows), rest)),
            None => None,
        }
    } else {
        match read_refused(after, row) {
            Some((why, rest)) => Some((Rows::Refused(why), rest)),
            None => None,
        }
    }
}

/// The cause and the aggregate, of a refused row of this number, that some bytes begin with, and the bytes after them.
fn read_refused(bytes: &[u8], row: u64) -> Option<(RefusedRow, &[u8])>
    requires first { 1 ≤ row }
    requires last { row ≤ 2 ^ 50 }
    ensures read { IfSome result (λ found. (bytes.now ≡ (number_bytes found.0.cause ++ number_bytes found.0.item) ++ found.1.now) × IsRefusedRow found.0 × (found.0.row ≡ row)) }
    ensures written { (why : RefusedRow) (rest : List ℕ) → IsRefusedRow why → why.row ≡ row → bytes.now ≡ (number_bytes why.cause ++ number_bytes why.item) ++ rest
        → MatchOption result ⊥ (λ found. (found.0 ≡ why) × (found.1.now ≡ rest)) }
{
    let Some((cause, after)) = read_count(bytes, 4) else {
        return None;
    };
    match read_count(after, 7) {
        Some((item, rest)) => {
            if cause > 0 {
                let why = RefusedRow {
                    row,
                    cause: cause as u8,
                    item: item as u32,
                };
                Some((why, rest))
            } else {
                None
            }
        }
        None => None,
    }
}
