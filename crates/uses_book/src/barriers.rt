//! Three threads that go through a hundred phases of a barrier.

ghost use Rattle.std.specs.Prelude.{IfOk};
ghost use Rattle.par_barrier.specs.Shown.{Belongs};

use par_barrier::{Arrived, Barrier, BarrierPass};
use std::alloc::{AllocError, Global};
use std::sync::Wait;
use std::test::Fail;
use std::thread::{Threads, join};

/// How many phases the threads go through.
const PHASES: u64 = 100;

/// A barrier for three callers, which all take part, and their passes.
fn for_three<R: Wait>(
    rt: &R,
    alloc: Global,
) -> Result<(Barrier, BarrierPass, BarrierPass, BarrierPass), AllocError>
    ensures zero { IfOk result (λ r. Belongs r.0 r.1) }
    ensures one { IfOk result (λ r. Belongs r.0 r.2) }
    ensures two { IfOk result (λ r. Belongs r.0 r.3) }
{
    let (barrier, mut passes) = Barrier::new(alloc, 3)?;
    barrier.attach_all(rt, passes.as_mut_slice());
    let Some(two) = passes.pop() else {
        unreachable!()
    };
    let Some(one) = passes.pop() else {
        unreachable!()
    };
    let Some(zero) = passes.pop() else {
        unreachable!()
    };
    Ok((barrier, zero, one, two))
}

/// Goes through the phases: those whose end elected this thread.
fn go_through<R: Wait>(
    rt: &R,
    alloc: Global,
    barrier: &Barrier,
    mut pass: BarrierPass,
) -> Result<Vec<u64>, AllocError>
    requires { Belongs barrier.now pass }
{
    let mut elected = Vec::new(alloc);
    for _ in 0..PHASES {
        if let Ok(
            Arrived {
                phase,
                elected: true,
            },
        ) = barrier.arrive_and_wait(rt, &mut pass)
        {
            elected.push(phase)?;
        }
    }
    Ok(elected)
}

/// Two of the threads, side by side: what each was elected in.
fn two_threads<R: Threads + Wait + Sync>(
    rt: &R,
    alloc: Global,
    barrier: &Barrier,
    one: BarrierPass,
    two: BarrierPass,
) -> (Result<Vec<u64>, AllocError>, Result<Vec<u64>, AllocError>)
    requires one { Belongs barrier.now one }
    requires two { Belongs barrier.now two }
{
    join(
        rt,
        || go_through(rt, alloc, barrier, one),
        || go_through(rt, alloc, barrier, two),
    )
}

/// All three threads: what each was elected in, one after another.
fn three_threads<R: Threads + Wait + Sync>(
    rt: &R,
    alloc: Global,
    barrier: &Barrier,
    zero: BarrierPass,
    one: BarrierPass,
    two: BarrierPass,
) -> Result<Vec<u64>, AllocError>
    requires zero { Belongs barrier.now zero }
    requires one { Belongs barrier.now one }
    requires two { Belongs barrier.now two }
{
    let (first, (second, third)) = join(
        rt,
        || go_through(rt, alloc, barrier, zero),
        ||
            requires { Belongs barrier.now one × Belongs barrier.now two }
        { two_threads(rt, alloc, barrier, one, two) },
    );
    let mut all = first?;
    all.append(&mut second?)?;
    all.append(&mut third?)?;
    Ok(all)
}

#[test]
fn each_phase_elects_one(rt: HostRuntime) -> Result<(), Fail> {
    let (barrier, zero, one, two) = for_three(&rt, rt.alloc())?;
    let mut elected = three_threads(&rt, rt.alloc(), &barrier, zero, one, two)?;
    elected.sort_unstable();
    assert_eq!(rt; elected.len(), PHASES as usize);
    for (at, phase) in elected.iter().enumerate() {
        assert_eq!(rt; *phase, at as u64 + 1);
    }
    Ok(())
}
