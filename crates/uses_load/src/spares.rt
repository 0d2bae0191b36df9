//! A thread that takes chunks of an area and gives them back, by way of spares of its own.

ghost use Rattle.std.specs.Prelude.{◌≡◌, ◌≤◌};
ghost use Rattle.dsa_area.specs.Shown.{Belongs, IsArea};
ghost use Rattle.area_spares.specs.Classes.{AreSpares};

use area_spares::ClassSpares;
use dsa_area::{Area, AreaPass};
use region_words::Region;
use std::alloc::Global;
use std::sync::Wait;

/// Takes a chunk, writes its first word and gives it back. Says whether both went as they have to.
fn take_and_give<R: Wait>(
    rt: &R,
    area: &Area,
    r: &Region,
    pass: &mut AreaPass,
    spares: &mut ClassSpares,
    bytes: u64,
    number: u64,
) -> bool
    requires area { IsArea r.now area.now }
    requires own { Belongs area.now pass.old }
    requires spares { AreSpares r.now spares.old }
    requires some { 8 ≤ bytes }
    requires few { bytes ≤ 1000000 }
    ensures own { Belongs area.now pass.new }
    ensures spares { AreSpares r.now spares.new }
{
    let Ok(mut chunk) = spares.alloc(rt, area, r, pass, bytes) else {
        return false;
    };
    chunk.store(r, 0, number);
    spares.free(rt, area, r, pass, chunk).is_ok()
}

/// Takes a chunk, writes its first word and gives it back, this many times, and what is kept at the end. Says how often
/// the first went as it has to, and 0 if there is no memory for the spares, or one of them does not go back.
pub fn pairs<R: Wait>(
    rt: &R,
    alloc: Global,
    area: &Area,
    r: &Region,
    mut pass: AreaPass,
    bytes: u64,
    calls: u64,
) -> u64
    requires area { IsArea r.now area.now }
    requires own { Belongs area.now pass }
    requires some { 8 ≤ bytes }
    requires few { bytes ≤ 1000000 }
    ensures { result ≤ calls }
{
    let Ok(mut spares) = ClassSpares::new(alloc) else {
        return 0;
    };
    let mut good = 0;
    for number in 0..calls {
        if take_and_give(rt, area, r, &mut pass, &mut spares, bytes, number) {
            good += 1;
        }
    }
    match spares.give_back(rt, area, r, &mut pass) {
        Ok(()) => good,
        Err(_) => 0,
    }
}
