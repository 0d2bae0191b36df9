//! Areas, each in its own region: a program of two threads, a lone caller's first request, a walk of 2,000 requests,
//! and the answers to chunks that are none of the area's.

ghost use Rattle.std.specs.Prelude.{◌≡◌, ℕ, ◌≤◌, IfOk};
ghost use mathlib.Core.Option.{some};
ghost use lib.ListN.{get_elem?};
ghost use Rattle.dsa_area.specs.Shown.{AreAll, Belongs, IsArea, IsFresh, callers_of, pages_of};

use dsa_area::{Area, AreaPass, area_words};
use region_words::Region;
use std::alloc::{AllocError, Global};

mod answers;
mod lone;
mod two;
mod walk;

/// A region with an area of this many pages after its first word, and a pass for each caller.
#[tactic(auto, using(word_map::proofs::Maps::answers, std::proofs::lemmas::Bool::Decides::nat_tests))]
fn area_for(
    alloc: Global,
    pages: u32,
    callers: u32,
) -> Result<(Region, Area, Vec<AreaPass>), AllocError>
    requires few { pages ≤ 65536 }
    requires callers { 1 ≤ callers }
    ensures area { IfOk result (λ a. IsArea a.0 a.1) }
    ensures pages { IfOk result (λ a. pages_of a.1 ≡ pages) }
    ensures callers { IfOk result (λ a. callers_of a.1 ≡ callers) }
    ensures passes { IfOk result (λ a. AreAll a.1 a.2.items) }
    ensures fresh { IfOk result (λ a. (k : ℕ) (p : _) → get_elem? a.2.items k ≡ some p → IsFresh p) }
{
    let words = area_words(pages);
    let (region, mut part) = Region::new(alloc, words as usize + 1)?;
    let chunk = part.split_chunk(&region, 1, words);
    let (area, passes) = Area::new(alloc, &region, chunk, pages, callers)?;
    Ok((region, area, passes))
}

/// A region with an area of this many pages, and the pass of its one caller.
fn area_for_one(alloc: Global, pages: u32) -> Result<(Region, Area, AreaPass), AllocError>
    requires few { pages ≤ 65536 }
    ensures area { IfOk result (λ a. IsArea a.0 a.1) }
    ensures pages { IfOk result (λ a. pages_of a.1 ≡ pages) }
    ensures callers { IfOk result (λ a. callers_of a.1 ≡ 1) }
    ensures pass { IfOk result (λ a. Belongs a.1 a.2) }
    ensures fresh { IfOk result (λ a. IsFresh a.2) }
{
    let (region, area, mut passes) = area_for(alloc, pages, 1)?;
    let Some(pass) = passes.pop() else {
        unreachable!()
    };
    Ok((region, area, pass))
}
