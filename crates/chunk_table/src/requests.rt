//! What a call asks of the area.

ghost use Rattle.std.specs.Prelude.{◌≡◌, ℕ, ◌≤◌, ◌^◌, true, is_some, IfOk, IfSome, MatchResult};
ghost use Rattle.dsa_area.specs.Sizes.{chunk_size};
ghost use Rattle.dsa_area.specs.Shown.{Belongs, IsArea, number_of};
ghost use Rattle.dshash_parts.specs.Sweeps.{GaveBack};
ghost use Rattle.dshash_parts.specs.Traces.{Requested, Got, Missed};

use dsa_area::{Area, AreaPass, NoSpace};
use region_words::{Chunk, Region};
use std::sync::Wait;

/// Gives a chunk to the area. One that the area refuses is dropped, and the event says so.
pub(crate) fn give<R: Wait>(rt: &R, area: &Area, r: &Region, apass: &mut AreaPass, chunk: Chunk)
    requires area { IsArea r.now area.now }
    requires own { Belongs area.now apass.old }
    requires here { chunk.part.region ≡ r.now }
    ensures own { Belongs area.now apass.new }
    ensures caller { number_of apass.new ≡ number_of apass.old }
    ensures gave { GaveBack area.now apass.old apass.new chunk.bytes true }
{
    let _refused = area.free(rt, r, apass, chunk);
}

/// Gives a chunk to the area, if there is one.
pub(crate) fn give_back<R: Wait>(
    rt: &R,
    area: &Area,
    r: &Region,
    apass: &mut AreaPass,
    chunk: Option<Chunk>,
)
    requires area { IsArea r.now area.now }
    requires own { Belongs area.now apass.old }
    requires here { IfSome chunk (λ c. c.part.region ≡ r.now) }
    ensures own { Belongs area.now apass.new }
    ensures caller { number_of apass.new ≡ number_of apass.old }
    ensures gave { (bytes : ℕ) → IfSome chunk (λ c. c.bytes ≡ bytes) → GaveBack area.now apass.old apass.new bytes (is_some chunk) }
{
    if let Some(chunk) = chunk {
        give(rt, area, r, apass, chunk);
    }
}

/// A chunk for this many bytes, or none.
pub(crate) fn ask<R: Wait>(
    rt: &R,
    area: &Area,
    r: &Region,
    apass: &mut AreaPass,
    bytes: u64,
) -> Result<Chunk, NoSpace>
    requires area { IsArea r.now area.now }
    requires own { Belongs area.now apass.old }
    requires some { (1 ≤ bytes) × (bytes ≤ 2 ^ 30) }
    ensures own { Belongs area.now apass.new }
    ensures caller { number_of apass.new ≡ number_of apass.old }
    ensures asked { MatchResult result (λ _. Requested area.now apass.old apass.new (Got bytes)) (λ lack. Requested area.now apass.old apass.new (Missed bytes lack.pages lack.largest)) }
    ensures size { IfOk result (λ c. c.bytes ≡ chunk_size bytes) }
    ensures holds { IfOk result (λ c. bytes ≤ c.bytes) }
    ensures here { IfOk result (λ c. c.part.region ≡ r.now) }
{
    area.alloc(rt, r, apass, bytes)
}
