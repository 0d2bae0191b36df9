//! The stretches of a cover, one after another.
//!
//! Nothing that is read is taken on trust: each stretch comes after the one before and does not touch it, so no two have a byte
//! in common.

ghost use Rattle.std.specs.Prelude.{◌≡◌, ◌++◌, ◌↔◌, ℕ, List, IfOk, IfSome, IsTrue, MatchOption, OnOk};
ghost use Rattle.state_head.specs.Cover.{IsAfter, IsCover, IsNext, cover_bytes, stretch_bytes};
ghost use Rattle.state_head.specs.declared.cover.Stretch.{Stretch};

use crate::cover::{Place, Stretch, push_stretch, read_stretch};
use state_file::{push_number, read_count};
use std::alloc::{AllocError, Global};

/// The most stretches of a cover: 2^32 - 1.
const MOST_STRETCHES: u64 = u32::MAX as u64;

/// Puts a cover at the end of some bytes.
pub fn push_cover(out: &mut Vec<u8>, cover: &[Stretch]) -> Result<(), AllocError>
    ensures { OnOk result (out.new.items ≡ out.old.items ++ cover_bytes cover.now) }
{
    push_number(out, cover.len() as u128)?;
    for at in 0..cover.len() {
        push_stretch(out, cover[at])?;
    }
    Ok(())
}

/// The cover of some of this many sources that some bytes begin with, and the bytes after it. It takes memory for its stretches.
pub fn read_cover<'a>(
    alloc: Global,
    bytes: &'a [u8],
    sources: u32,
) -> Result<Option<(Vec<Stretch>, &'a [u8])>, AllocError>
    ensures read { IfOk result (λ found. IfSome found (λ found. (bytes.now ≡ cover_bytes found.0.items ++ found.1.now) × IsCover sources found.0.items)) }
    ensures written { (cover : List Stretch) (rest : List ℕ) → IsCover sources cover → bytes.now ≡ cover_bytes cover ++ rest
        → IfOk result (λ found. MatchOption found ⊥ (λ found. (found.0.items ≡ cover) × (found.1.now ≡ rest))) }
{
    let Some((count, after)) = read_count(bytes, MOST_STRETCHES) else {
        return Ok(None);
    };
    let mut cover: Vec<Stretch> = Vec::new(alloc);
    let mut before: Option<Place> = None;
    let mut rest = after;
    for _ in 0..count {
        let Some((stretch, more)) = read_next(rest, sources, before) else {
            return Ok(None);
        };
        cover.push(stretch)?;
        before = Some(stretch.place);
        rest = more;
    }
    Ok(Some((cover, rest)))
}

/// The stretch of one of this many sources that some bytes begin with, if it can come after this place, and the bytes after it.
fn read_next<'a>(
    bytes: &'a [u8],
    sources: u32,
    before: Option<Place>,
) -> Option<(Stretch, &'a [u8])>
    ensures read { IfSome result (λ found. (bytes.now ≡ stretch_bytes found.0 ++ found.1.now) × IsNext sources before found.0) }
    ensures written { (s : Stretch) (rest : List ℕ) → IsNext sources before s → bytes.now ≡ stretch_bytes s ++ rest → MatchOption result ⊥ (λ found. (found.0 ≡ s) × (found.1.now ≡ rest)) }
{
    match read_stretch(bytes, sources) {
        Some((stretch, rest)) => {
            if follows(before, stretch.place) {
                Some((stretch, rest))
            } else {
                None
            }
        }
        None => None,
    }
}

/// Whether a place comes after another, if there is one before it.
fn follows(before: Option<Place>, place: Place) -> bool
    ensures { IsTrue result ↔ IfSome before (λ last. IsAfter last place) }
{
    match before {
        Some(last) => is_after(last, place),
        None => true,
    }
}

/// Whether a place comes after another, which it does not touch.
fn is_after(a: Place, b: Place) -> bool
    ensures { IsTrue result ↔ IsAfter a b }
{
    if a.source < b.source {
        return true;
    }
    a.source == b.source && a.to < b.from && a.size == b.size
}
