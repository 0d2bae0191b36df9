//! What is granted and taken back of the pages and one pool, as chunks.

ghost use Rattle.std.specs.Prelude.{◌≡◌, ◌≢◌, ◌*◌, ◌/◌, ◌%◌, ◌<◌, ◌≤◌, ◌^◌, ◌⊎◌, true, false, IfOk, IfErr};
ghost use Rattle.size_classes.specs.Classes.{largest_size};
ghost use Rattle.free_pages.specs.Legal.{IsLegal, Take, Give, Gets, Lacks, Accepts, HandsBack};
ghost use Rattle.span_pools.specs.PoolView.{IsOver};
ghost use Rattle.dsa_area.specs.Sizes.{page_bytes, pages_for};
ghost use Rattle.c_area.specs.Legal.{GrantsObject, LacksObject, TakesObject, IsNoObject, TrimsPool, KeepsPool};

use free_pages::{NoRun, PAGE_WORDS, Pages, SUPERBLOCK_PAGES};
use region_words::{Chunk, Region, Run, same_chunk};
use span_pools::Pool;

/// The bytes of a page.
pub(crate) const PAGE_BYTES: u64 = 8 * PAGE_WORDS;

/// An object of a pool, which gets a superblock of 16 pages if it has no free one.
pub(crate) fn take_object(r: &Region, pages: &mut Pages, pool: &mut Pool) -> Result<Chunk, NoRun>
    requires here { (pages.old.region ≡ r.now) × (pool.old.region ≡ r.now) }
    requires over { IsOver pool.old.layout pages.old.first pages.old.state.pages }
    ensures pages { pages.new ≡ record pages.old { state = pages.new.state } }
    ensures as_many { pages.new.state.pages ≡ pages.old.state.pages }
    ensures pool { pool.new ≡ record pool.old { state = pool.new.state } }
    ensures granted { IfOk result (λ c. GrantsObject c.at pool.old.layout pages.old.first pages.old.state pool.old.state pages.new.state pool.new.state) }
    ensures chunk { IfOk result (λ c. (c.bytes ≡ 8 * pool.old.layout.size) × (c.part.region ≡ r.now)) }
    ensures refused { IfErr result (λ no. LacksObject no.wanted no.largest pool.old.layout pages.old.first pages.old.state pool.old.state pages.new.state pool.new.state) }
{
    if let Some(chunk) = pool.alloc(r) {
        return Ok(chunk);
    }
    match pages.take(r, SUPERBLOCK_PAGES, true) {
        Ok(run) => Ok(pool.add(r, run)),
        Err(lack) => Err(lack),
    }
}

/// Takes an object back, and gives the superblock that goes out with it to the pages. If no superblock has it, it comes
/// back.
pub(crate) fn give_object(
    r: &Region,
    pages: &mut Pages,
    pool: &mut Pool,
    chunk: Chunk,
) -> Result<(), Chunk>
    requires here { (pages.old.region ≡ r.now) × (pool.old.region ≡ r.now) × (chunk.part.region ≡ r.now) }
    requires over { IsOver pool.old.layout pages.old.first pages.old.state.pages }
    ensures pages { pages.new ≡ record pages.old { state = pages.new.state } }
    ensures as_many { pages.new.state.pages ≡ pages.old.state.pages }
    ensures pool { pool.new ≡ record pool.old { state = pool.new.state } }
    ensures taken { IfOk result (λ _. TakesObject chunk.at chunk.bytes pool.old.layout pages.old.first pages.old.state pool.old.state pages.new.state pool.new.state) }
    ensures refused { IfErr result (λ _. IsNoObject chunk.at chunk.bytes pool.old.layout pages.old.first pages.old.state pool.old.state pages.new.state pool.new.state) }
    ensures back { IfErr result (λ back. back ≡ chunk) }
{
    match pool.free(r, chunk) {
        Ok(None) => Ok(()),
        Ok(Some(run)) => {
            let _handed_back = pages.give(r, run);
            Ok(())
        }
        Err(chunk) => Err(chunk),
    }
}

/// The active superblock of a pool goes to the pages, if nothing in it is live. Whether it did.
pub(crate) fn trim_pool(r: &Region, pages: &mut Pages, pool: &mut Pool) -> bool
    requires here { (pages.old.region ≡ r.now) × (pool.old.region ≡ r.now) }
    requires over { IsOver pool.old.layout pages.old.first pages.old.state.pages }
    ensures pages { pages.new ≡ record pages.old { state = pages.new.state } }
    ensures as_many { pages.new.state.pages ≡ pages.old.state.pages }
    ensures pool { pool.new ≡ record pool.old { state = pool.new.state } }
    ensures trimmed { result ≡ true → TrimsPool pool.old.layout pages.old.first pages.old.state pool.old.state pages.new.state pool.new.state }
    ensures kept { result ≡ false → KeepsPool pool.old.layout pages.old.first pages.old.state pool.old.state pages.new.state pool.new.state }
{
    match pool.trim(r) {
        Some(run) => {
            let _handed_back = pages.give(r, run);
            true
        }
        None => false,
    }
}

/// The pages that hold this many bytes.
pub(crate) fn page_count(bytes: u64) -> u32
    requires { (1 ≤ bytes) × (bytes ≤ 2 ^ 30) }
    ensures pages { result ≡ pages_for bytes }
    ensures some { 1 ≤ result }
{
    bytes.div_ceil(PAGE_BYTES) as u32
}

/// The chunk of this many whole pages, if there are that many in a row.
pub(crate) fn take_pages(r: &Region, pages: &mut Pages, n: u32) -> Result<Chunk, NoRun>
    requires here { pages.old.region ≡ r.now }
    requires some { 1 ≤ n }
    ensures pages { pages.new ≡ record pages.old { state = pages.new.state } }
    ensures as_many { pages.new.state.pages ≡ pages.old.state.pages }
    ensures granted { IfOk result (λ c. IsLegal pages.old.first pages.old.state (Take n false) (Gets c.at) pages.new.state) }
    ensures chunk { IfOk result (λ c. (c.bytes ≡ page_bytes * n) × (c.part.region ≡ r.now)) }
    ensures refused { IfErr result (λ no. IsLegal pages.old.first pages.old.state (Take n false) (Lacks no.wanted no.largest) pages.new.state) }
{
    match pages.take(r, n, false) {
        Ok(
            Run {
                at,
                pages: _,
                words,
                control: _,
            },
        ) => Ok(Chunk {
            at,
            bytes: PAGE_BYTES * u64::from(n),
            part: words,
        }),
        Err(lack) => Err(lack),
    }
}

/// Takes whole pages back. A chunk that is no whole number of pages comes back, and so does one of pages that were not
/// granted so.
pub(crate) fn give_pages(r: &Region, pages: &mut Pages, chunk: Chunk) -> Result<(), Chunk>
    requires here { (pages.old.region ≡ r.now) × (chunk.part.region ≡ r.now) }
    requires large { largest_size < chunk.bytes }
    ensures pages { pages.new ≡ record pages.old { state = pages.new.state } }
    ensures as_many { pages.new.state.pages ≡ pages.old.state.pages }
    ensures taken { IfOk result (λ _. (chunk.bytes % page_bytes ≡ 0) × IsLegal pages.old.first pages.old.state (Give chunk.at (chunk.bytes / page_bytes) false) Accepts pages.new.state) }
    ensures refused { IfErr result (λ _. ((chunk.bytes % page_bytes ≡ 0) × IsLegal pages.old.first pages.old.state (Give chunk.at (chunk.bytes / page_bytes) false) HandsBack pages.new.state)
        ⊎ ((chunk.bytes % page_bytes ≢ 0) × (pages.new ≡ pages.old))) }
    ensures back { IfErr result (λ back. back ≡ chunk) }
{
    if chunk.bytes % PAGE_BYTES != 0 {
        return Err(chunk);
    }
    chunk.is_small();
    let Chunk { at, bytes, part } = chunk;
    let run = Run {
        at,
        pages: (bytes / PAGE_BYTES) as u32,
        words: part,
        control: None,
    };
    same_chunk();
    match pages.give(r, run) {
        Ok(()) => Ok(()),
        Err(
            Run {
                at,
                pages: _,
                words,
                control: _,
            },
        ) => Err(Chunk {
            at,
            bytes,
            part: words,
        }),
    }
}
