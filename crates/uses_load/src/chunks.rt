//! A shared area, of which all threads take chunks and give them back.

ghost use Rattle.std.specs.Prelude.{◌≤◌};
ghost use Rattle.dsa_area.specs.Shown.{Belongs, IsArea};

use crate::area::{self, PAGES, area_for};
use crate::counts::sum_of;
use crate::spares;
use dsa_area::{Area, AreaPass};
use region_words::Region;
use std::alloc::{AllocError, Global};
use std::sync::Wait;
use std::thread::{Threads, map_vec};

/// When and how a thread gives a chunk back.
#[derive(Clone, Copy)]
pub enum Way {
    /// At once.
    Pairs,
    /// At once, by way of spares of its own.
    Spares,
    /// A hundred calls later.
    Window,
}

impl Way {
    /// The word that asks for it.
    pub fn name(self) -> &'static str {
        match self {
            Way::Pairs => "area",
            Way::Spares => "spares",
            Way::Window => "window",
        }
    }
}

/// Takes this many chunks of this many bytes and gives them back. Says how often that went as it has to.
fn calls_of<R: Wait>(
    rt: &R,
    alloc: Global,
    area: &Area,
    r: &Region,
    pass: AreaPass,
    way: Way,
    bytes: u64,
    calls: u64,
) -> u64
    requires area { IsArea r.now area.now }
    requires own { Belongs area.now pass }
    requires some { 8 ≤ bytes }
    requires few { bytes ≤ 1000000 }
    ensures { result ≤ calls }
{
    match way {
        Way::Pairs => area::pairs(rt, area, r, pass, bytes, calls),
        Way::Spares => spares::pairs(rt, alloc, area, r, pass, bytes, calls),
        Way::Window => area::exchanges(rt, alloc, area, r, pass, bytes, calls),
    }
}

/// Has this many threads take and give back this many chunks each, of this many bytes. Says how often that went as it
/// has to.
pub fn chunks_load<R: Threads + Wait + Sync>(
    rt: &R,
    alloc: Global,
    way: Way,
    threads: u32,
    calls: u64,
    bytes: u64,
) -> Result<u64, AllocError>
    requires some { 1 ≤ threads }
    requires bytes { 8 ≤ bytes }
    requires bytes_few { bytes ≤ 1000000 }
{
    let (region, area, passes) = area_for(alloc, PAGES, threads)?;
    let here = &region;
    let shared = &area;
    let good = map_vec(
        rt,
        passes,
        &|pass: AreaPass| -> u64
            requires { IsArea here.now shared.now × Belongs shared.now pass × (8 ≤ bytes) × (bytes ≤ 1000000) }
        { calls_of(rt, alloc, shared, here, pass, way, bytes, calls) },
    )?;
    Ok(sum_of(good.as_slice()))
}
