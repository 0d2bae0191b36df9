//! The table of groups of a context: with its area it is a chunk of the segment, under its own key. It is made only if
//! the plan asks for it and the area has room for groups.

ghost use Rattle.std.specs.Prelude.{◌&&◌, leb, ◌∷◌, ◌≡◌, ◌≤◌, ◌*◌, ◌+◌, ◌%◌, ℕ, IfOk, IfSome, OnOk, None, is_some};
ghost use Rattle.agg_table.specs.Shown.{part_size};
ghost use Rattle.dsa_area.specs.Shown.{pages_of};
ghost use Rattle.parallel_ctx.specs.Making.{AreDealt, IsMaking, firsts, hash_size, with_queue};
ghost use Rattle.shm_toc.specs.Table.{free_bytes_of, place_of, table_of};
ghost use Rattle.std.specs.Vec.Iter.{into_iter_items};
ghost use Rattle.plan_spec.specs.declared.plan.TheConstants.{MOST_AREA_PAGES};

use agg_table::{HashPart, HashSeat, LEAST_PAGES, open, part_words};
use par_model::BoundPlan;
use region_words::{Chunk, Region};
use shm_toc::Toc;
use std::alloc::{AllocError, Global};
use std::vec::IntoIter;

/// The key of the table with its area.
const TABLE_KEY: u64 = 2;

/// Whether there is to be a table of groups.
pub(crate) fn wants_table(plan: &BoundPlan, pages: u32) -> bool
    ensures { result ≡ (plan.now.hash && leb 16 pages) }
{
    plan.hash && pages >= LEAST_PAGES
}

/// The words that a table of groups takes of the segment: its own with its area, and four for the entry of its chunk.
pub(crate) fn hash_words(with_table: bool, pages: u32) -> u64
    requires { pages ≤ MOST_AREA_PAGES }
    ensures size { result ≡ hash_size with_table pages }
    ensures small { result ≤ 40000000 }
    ensures whole { result % 4 ≡ 0 }
{
    if !with_table {
        return 0;
    }
    part_words(pages) + 4
}

/// The chunk of the table with its area, under its key.
fn table_chunk(r: &Region, toc: &mut Toc, pages: u32) -> Chunk
    requires here { toc.old.region ≡ r.now }
    requires few { pages ≤ MOST_AREA_PAGES }
    requires room { 8 * part_size pages + 16 ≤ free_bytes_of (table_of toc.old.words) }
    requires unused { place_of (table_of toc.old.words).entries 2 ≡ None }
    ensures here { toc.new.region ≡ toc.old.region }
    ensures chunk_here { result.part.region ≡ r.now }
    ensures size { result.bytes ≡ 8 * part_size pages }
    ensures entered { table_of toc.new.words ≡ with_queue (table_of toc.old.words) 2 (8 * part_size pages) result.at }
{
    let Ok(chunk) = toc.allocate(r, 8 * part_words(pages)) else {
        unreachable!()
    };
    let Ok(()) = toc.insert(r, TABLE_KEY, chunk.at) else {
        unreachable!()
    };
    chunk
}

/// The table of groups for this many participants, if there is to be one, and their passes.
pub(crate) fn open_hash(
    alloc: Global,
    r: &Region,
    toc: &mut Toc,
    with_table: bool,
    pages: u32,
    callers: u32,
) -> Result<(Option<HashPart>, Vec<HashSeat>), AllocError>
    requires here { toc.old.region ≡ r.now }
    requires few { pages ≤ MOST_AREA_PAGES }
    requires callers { 1 ≤ callers }
    requires making { IsMaking (table_of toc.old.words) 2 (8 * hash_size with_table pages) }
    ensures here { toc.new.region ≡ toc.old.region }
    ensures plan { OnOk result (place_of (table_of toc.new.words).entries 1 ≡ place_of (table_of toc.old.words).entries 1) }
    ensures making { OnOk result ((left : ℕ) → IsMaking (table_of toc.old.words) 2 (8 * hash_size with_table pages + left) → IsMaking (table_of toc.new.words) 16 left) }
    ensures dealt { IfOk result (λ h. AreDealt r.now callers h.0 h.1.items) }
    ensures there { IfOk result (λ h. is_some h.0 ≡ with_table) }
    ensures pages { IfOk result (λ h. IfSome h.0 (λ p. pages_of p.area ≡ pages)) }
{
    if !with_table {
        return Ok((None, Vec::new(alloc)));
    }
    let chunk = table_chunk(r, toc, pages);
    let (part, seats) = open(alloc, r, chunk, pages, callers)?;
    Ok((Some(part), seats))
}

/// The passes of the next participant, if some are left.
pub(crate) fn next_seat(rest: &mut IntoIter<HashSeat>) -> Option<HashSeat>
    ensures { (n : ℕ) → firsts (into_iter_items rest.old) (n + 1) ≡ result ∷ firsts (into_iter_items rest.new) n }
{
    rest.next()
}
