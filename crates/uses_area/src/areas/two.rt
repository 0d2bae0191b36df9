//! A whole program: two threads take 24 bytes a thousand times each, fill, read and give them back, and tell each other
//! what they have seen; then the area is closed.

ghost use Rattle.std.specs.Prelude.{◌≡◌, ◌≤◌, ◌∷◌, [], IfOk};
ghost use Rattle.dsa_area.specs.Shown.{Belongs, IsArea, SeeTheSame, callers_of, number_of};
ghost use Rattle.dsa_area.specs.Ending.{Ended};

use super::area_for;
use dsa_area::{Area, AreaPass, ClosedArea};
use lock_book::two_of;
use region_words::{Chunk, Region};
use std::alloc::{AllocError, Global};
use std::sync::Wait;
use std::test::Fail;
use std::thread::{Threads, join};

/// An area for two callers, and their passes.
fn area_for_two(alloc: Global, pages: u32) -> Result<(Region, Area, AreaPass, AreaPass), AllocError>
    requires few { pages ≤ 65536 }
    ensures area { IfOk result (λ a. IsArea a.0 a.1) }
    ensures callers { IfOk result (λ a. callers_of a.1 ≡ 2) }
    ensures zero { IfOk result (λ a. Belongs a.1 a.2 × (number_of a.2 ≡ 0)) }
    ensures one { IfOk result (λ a. Belongs a.1 a.3 × (number_of a.3 ≡ 1)) }
{
    let (region, area, passes) = area_for(alloc, pages, 2)?;
    let (zero, one) = two_of(passes);
    Ok((region, area, zero, one))
}

/// Fills three words and reads them back. Says whether they are as they were written.
fn write_and_read(r: &Region, chunk: &mut Chunk, number: u64) -> bool
    requires here { chunk.old.part.region ≡ r.now }
    requires three { chunk.old.bytes ≡ 24 }
    ensures here { chunk.new.part.region ≡ r.now }
{
    chunk.store(r, 0, number);
    chunk.store(r, 1, 77);
    chunk.store(r, 2, !number);
    chunk.load(r, 0) == number && chunk.load(r, 1) == 77 && chunk.load(r, 2) == !number
}

/// Takes 24 bytes, fills them, reads them and gives them back. Says whether all that went as it has to.
fn take_and_give<R: Wait>(rt: &R, area: &Area, r: &Region, pass: &mut AreaPass, number: u64) -> bool
    requires area { IsArea r.now area.now }
    requires own { Belongs area.now pass.old }
    ensures own { Belongs area.now pass.new }
    ensures caller { number_of pass.new ≡ number_of pass.old }
{
    let Ok(mut chunk) = area.alloc(rt, r, pass, 24) else {
        return false;
    };
    let read = write_and_read(r, &mut chunk, number);
    area.free(rt, r, pass, chunk).is_ok() && read
}

/// The same, this many times. Says how often all went as it has to.
fn take_and_give_times<R: Wait>(
    rt: &R,
    area: &Area,
    r: &Region,
    mut pass: AreaPass,
    times: u64,
) -> (AreaPass, u64)
    requires area { IsArea r.now area.now }
    requires own { Belongs area.now pass }
    ensures own { Belongs area.now result.0 }
    ensures caller { number_of result.0 ≡ number_of pass }
{
    let mut good = 0;
    for number in 0..times {
        if take_and_give(rt, area, r, &mut pass, number) {
            good += 1;
        }
    }
    (pass, good)
}

/// Two threads do so, each this many times, and tell each other what they have seen.
fn two_take_and_give<R: Threads + Wait + Sync>(
    rt: &R,
    area: &Area,
    r: &Region,
    zero: AreaPass,
    one: AreaPass,
    times: u64,
) -> (AreaPass, AreaPass, u64, u64)
    requires area { IsArea r.now area.now }
    requires own { Belongs area.now zero × Belongs area.now one }
    ensures own { Belongs area.now result.0 × Belongs area.now result.1 }
    ensures callers { (number_of result.0 ≡ number_of zero) × (number_of result.1 ≡ number_of one) }
    ensures alike { SeeTheSame result.0 result.1 }
{
    let ((mut zero, good), (mut one, also)) = join(
        rt,
        || take_and_give_times(rt, area, r, zero, times),
        || take_and_give_times(rt, area, r, one, times),
    );
    zero.meet(area, &mut one);
    (zero, one, good, also)
}

/// Ends an area of two callers. Its histories have the calls of the two and no others.
fn close_two(
    alloc: Global,
    region: &Region,
    area: Area,
    zero: AreaPass,
    one: AreaPass,
) -> Result<ClosedArea, AllocError>
    requires area { IsArea region.now area }
    requires callers { callers_of area ≡ 2 }
    requires zero { Belongs area zero × (number_of zero ≡ 0) }
    requires one { Belongs area one × (number_of one ≡ 1) }
    ensures { IfOk result (λ c. Ended area (zero ∷ one ∷ []) c) }
{
    let _ = region;
    let mut passes = Vec::new(alloc);
    passes.push(zero)?;
    passes.push(one)?;
    Ok(area.close(passes))
}

#[test]
fn two_threads_take_and_give(rt: HostRuntime) -> Result<(), Fail> {
    let (region, area, zero, one) = area_for_two(rt.alloc(), 64)?;
    let (zero, one, good, also) = two_take_and_give(&rt, &area, &region, zero, one, 1000);
    assert_eq!(rt; (good, also), (1000, 1000));
    let _closed = close_two(rt.alloc(), &region, area, zero, one)?;
    Ok(())
}
