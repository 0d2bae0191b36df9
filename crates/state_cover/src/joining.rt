//! The covers of several files, as one.
//!
//! All stretches are sorted, and each is put to the one before it if they touch. So a byte that two of them have shows at the
//! second one.

ghost use Rattle.std.specs.Prelude.{◌≡◌, ◌<◌, ◌≤◌, ◌+◌, ◌^◌, ◌++◌, ◌⊎◌, ◌∷◌, [], ℕ, All, IfErr, IfNone, IfOk, IfSome, MatchOption, OnOk, length};
ghost use Rattle.std.specs.List.Sorted.{IsPermutation};
ghost use Rattle.state_cover.specs.Bytes.{had, rows_of};
ghost use Rattle.state_cover.specs.Faults.{DoNotFit, IsFull, IsNoCover, IsNoPair};
ghost use Rattle.state_cover.specs.Joined.{AreSorted, IsBefore, IsJoinOf, IsNextTo, IsPutTo, joined_rows};
ghost use Rattle.state_head.specs.declared.cover.Rows.TheVariants.{Counted};
ghost use Rattle.state_head.specs.Cover.{AreRows, IsAfter, IsCover, IsStretch};

use state_head::{Place, RefusedRow, Rows, Stretch};
use std::alloc::{AllocError, Global};

/// The most rows of a table: 2^50.
const MOST_ROWS: u64 = 1 << 50;

/// The most stretches of a cover: 2^32 - 1.
const MOST_STRETCHES: usize = u32::MAX as usize;

/// Why stretches are no cover: memory ran out; the byte at a place of a source is had twice; two say different sizes of a source;
/// those of a source have too many rows; they are too many.
#[derive(Clone, Copy, Debug, PartialEq, Eq)]
pub enum CoverFault {
    Memory,
    Twice { source: u32, at: u64 },
    Size { source: u32 },
    Rows { source: u32 },
    Many,
}

/// The cover of all of some stretches, in any order. It sorts them, and those that touch become one.
pub fn join_cover(
    alloc: Global,
    stretches: &mut Vec<Stretch>,
    sources: u32,
) -> Result<Vec<Stretch>, CoverFault>
    requires { All (IsStretch sources) stretches.old.items }
    ensures same { IsPermutation stretches.old.items stretches.new.items }
    ensures cover { IfOk result (λ cover. IsCover sources cover.items) }
    ensures joins { IfOk result (λ cover. IsJoinOf cover.items stretches.new.items) }
    ensures bytes { IfOk result (λ cover. (source at : ℕ) → had source at cover.items ≡ had source at stretches.old.items) }
    ensures once { OnOk result ((source at : ℕ) → had source at stretches.old.items ≤ 1) }

    // When each error comes.
    ensures refused { IfErr result (IsNoCover stretches.old.items) }
{
    stretches.sort_unstable_by_key(|s| (s.place.source, s.place.from));
    settle(alloc, stretches.as_slice(), sources)
}

/// The cover of stretches that are in order.
fn settle(alloc: Global, stretches: &[Stretch], sources: u32) -> Result<Vec<Stretch>, CoverFault>
    requires each { All (IsStretch sources) stretches.now }
    requires sorted { AreSorted stretches.now }
    ensures cover { IfOk result (λ cover. IsCover sources cover.items) }
    ensures joins { IfOk result (λ cover. IsJoinOf cover.items stretches.now) }
    ensures bytes { IfOk result (λ cover. (source at : ℕ) → had source at cover.items ≡ had source at stretches.now) }
    ensures refused { IfErr result (IsNoCover stretches.now) }
{
    let mut cover: Vec<Stretch> = Vec::new(alloc);
    if stretches.is_empty() {
        return Ok(cover);
    }
    let mut last = stretches[0];
    for at in 1..stretches.len() {
        last = put(&mut cover, last, stretches[at])?;
    }
    add(&mut cover, last)?;
    Ok(cover)
}

/// Takes in one stretch more after the last one, which goes to the end of the cover if the next one does not touch it. What is
/// the last one then.
fn put(cover: &mut Vec<Stretch>, last: Stretch, next: Stretch) -> Result<Stretch, CoverFault>
    requires order { IsBefore last.place next.place }
    requires last { AreRows last.rows }
    requires next { AreRows next.rows }
    requires within { last.place.to ≤ last.place.size }
    requires filled { (next.place.from < next.place.to) ⊎ (next.place.size ≡ 0) }
    ensures put { IfOk result (IsPutTo cover.old.items last next cover.new.items) }
    ensures refused { IfErr result (IsNoPair cover.old.items last next) }
{
    match extend(last, next)? {
        Some(both) => Ok(both),
        None => {
            add(cover, last)?;
            Ok(next)
        }
    }
}

/// Puts a stretch at the end of a cover.
fn add(cover: &mut Vec<Stretch>, last: Stretch) -> Result<(), CoverFault>
    ensures put { OnOk result (cover.new.items ≡ cover.old.items ++ last ∷ []) }
    ensures few { OnOk result (length cover.old.items + 1 < 2 ^ 32) }
    ensures refused { IfErr result (IsFull cover.old.items) }
{
    if cover.len() >= MOST_STRETCHES {
        return Err(CoverFault::Many);
    }
    match cover.push(last) {
        Ok(()) => Ok(()),
        Err(_) => Err(CoverFault::Memory),
    }
}

/// A stretch and the next one as one, if they touch.
fn extend(last: Stretch, next: Stretch) -> Result<Option<Stretch>, CoverFault>
    requires order { IsBefore last.place next.place }
    requires last { AreRows last.rows }
    requires next { AreRows next.rows }
    requires within { last.place.to ≤ last.place.size }
    requires filled { (next.place.from < next.place.to) ⊎ (next.place.size ≡ 0) }
    ensures both { IfOk result (λ both. MatchOption both (IsAfter last.place next.place) (IsNextTo last next)) }
    ensures refused { IfErr result (DoNotFit last next) }
{
    let source = last.place.source;
    let at = next.place.from;
    if source != next.place.source {
        return Ok(None);
    }
    if last.place.size != next.place.size {
        return Err(CoverFault::Size { source });
    }
    if at < last.place.to {
        return Err(CoverFault::Twice { source, at });
    }
    if at > last.place.to {
        return Ok(None);
    }
    match joined_rows(last.rows, next.rows) {
        Some(rows) => {
            let place = Place {
                to: next.place.to,
                ..last.place
            };
            Ok(Some(Stretch { place, rows }))
        }
        None => Err(CoverFault::Rows { source }),
    }
}

/// The rows of a stretch and those of the one after it, unless they are too many.
fn joined_rows(rows: Rows, more: Rows) -> Option<Rows>
    requires rows { AreRows rows }
    requires more { AreRows more }
    ensures is { IfSome result (λ both. (both ≡ joined_rows rows more) × AreRows both) }
    ensures none { IfNone result (2 ^ 50 < rows_of rows + rows_of more) }
{
    match rows {
        Rows::Counted(rows) => add_rows(rows, more),
        Rows::Refused(why) => Some(Rows::Refused(why)),
    }
}

/// This many rows, and those after them, unless they are too many.
fn add_rows(rows: u64, more: Rows) -> Option<Rows>
    requires rows { rows ≤ 2 ^ 50 }
    requires more { AreRows more }
    ensures is { IfSome result (λ both. (both ≡ joined_rows (Counted rows) more) × AreRows both) }
    ensures none { IfNone result (2 ^ 50 < rows + rows_of more) }
{
    match more {
        Rows::Counted(more) => {
            if rows + more <= MOST_ROWS {
                Some(Rows::Counted(rows + more))
            } else {
                None
            }
        }
        Rows::Refused(why) => {
            let row = rows + why.row;
            if row <= MOST_ROWS {
                Some(Rows::Refused(RefusedRow { row, ..why }))
            } else {
                None
            }
        }
    }
}
