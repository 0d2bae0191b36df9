//! Requests that are whole pages, without their control records.

ghost use Rattle.std.specs.Prelude.{◌≡◌, ◌≢◌, ◌<◌, ◌≤◌, ◌/◌, ◌%◌, ◌*◌, ◌⊎◌, false, [], ◌∷◌, IfOk, IfErr};
ghost use Rattle.size_classes.specs.Classes.{largest_size};
ghost use Rattle.free_pages.specs.Legal.{Take, Give, Gets, Lacks, Accepts, HandsBack};
ghost use Rattle.dsa_area.specs.Sizes.{page_bytes};
ghost use Rattle.dsa_area.specs.Shown.{Belongs, IsArea, number_of};
ghost use Rattle.dsa_area.specs.Requests.{PageEvents};

use crate::area::{Area, AreaPass};
use crate::at_pages::{give_run, take_run};
use crate::requests::{NoSpace, Stranger};
use crate::sizes::PAGE_BYTES;
use region_words::{Chunk, Region, Run, same_chunk};
use std::sync::Wait;

/// This many whole pages.
pub(crate) fn grant_pages<R: Wait>(
    rt: &R,
    area: &Area,
    r: &Region,
    pass: &mut AreaPass,
    n: u32,
) -> Result<Chunk, NoSpace>
    requires area { IsArea r.now area.now }
    requires own { Belongs area.now pass.old }
    requires some { 1 ≤ n }
    ensures own { Belongs area.now pass.new }
    ensures caller { number_of pass.new ≡ number_of pass.old }
    ensures granted { IfOk result (λ c. PageEvents area.now pass.old pass.new ((Take n false, Gets c.at) ∷ [])) }
    ensures size { IfOk result (λ c. c.bytes ≡ page_bytes * n) }
    ensures here { IfOk result (λ c. c.part.region ≡ r.now) }
    ensures refused { IfErr result (λ e. PageEvents area.now pass.old pass.new ((Take n false, Lacks e.pages e.largest) ∷ [])) }
{
    match take_run(rt, area, r, pass, n, false) {
        Ok(
            Run {
                at,
                pages: _,
                words,
                control: _,
            },
        ) => Ok(Chunk {
            at,
            bytes: PAGE_BYTES * u64::from(n),
            part: words,
        }),
        Err(lack) => Err(NoSpace {
            pages: lack.wanted,
            largest: lack.largest,
        }),
    }
}

/// Whole pages come back. A chunk that is no whole number of pages is none of the area's, and nothing is asked.
pub(crate) fn take_pages_back<R: Wait>(
    rt: &R,
    area: &Area,
    r: &Region,
    pass: &mut AreaPass,
    chunk: Chunk,
) -> Result<(), Stranger>
    requires area { IsArea r.now area.now }
    requires own { Belongs area.now pass.old }
    requires large { largest_size < chunk.bytes }
    requires here { chunk.part.region ≡ r.now }
    ensures own { Belongs area.now pass.new }
    ensures caller { number_of pass.new ≡ number_of pass.old }
    ensures whole { IfOk result (λ _. chunk.bytes % page_bytes ≡ 0) }
    ensures freed { IfOk result (λ _. PageEvents area.now pass.old pass.new ((Give chunk.at (chunk.bytes / page_bytes) false, Accepts) ∷ [])) }
    ensures stranger { IfErr result (λ _. ((chunk.bytes % page_bytes ≡ 0) × PageEvents area.now pass.old pass.new ((Give chunk.at (chunk.bytes / page_bytes) false, HandsBack) ∷ []))
        ⊎ ((chunk.bytes % page_bytes ≢ 0) × PageEvents area.now pass.old pass.new [])) }
    ensures back { IfErr result (λ s. s.chunk ≡ chunk) }
{
    if chunk.bytes % PAGE_BYTES != 0 {
        return Err(Stranger { chunk });
    }
    chunk.is_small();
    let Chunk { at, bytes, part } = chunk;
    let run = Run {
        at,
        pages: (bytes / PAGE_BYTES) as u32,
        words: part,
        control: None,
    };
    same_chunk();
    match give_run(rt, area, r, pass, run) {
        Ok(()) => Ok(()),
        Err(
            Run {
                at,
                pages: _,
                words,
                control: _,
            },
        ) => Err(Stranger {
            chunk: Chunk {
                at,
                bytes,
                part: words,
            },
        }),
    }
}
