//! The answers of a barrier to two parties that call it in turn.

ghost use Rattle.std.specs.Prelude.{◌≡◌, IfOk};
ghost use Rattle.lock_book.specs.History.{calls_by};
ghost use Rattle.par_barrier.specs.Ending.{whole_of};
ghost use Rattle.par_barrier.specs.Phases.{IsHistory};
ghost use Rattle.par_barrier.specs.Shown.{Belongs, callers_of, number_of, own_of};

use par_barrier::{
    Arrival, Barrier, BarrierAnswer, BarrierCall, BarrierPass, BarrierReply, ClosedBarrier,
    Departure, Left,
};
use std::alloc::{AllocError, Global};
use std::sync::Wait;
use std::test::Fail;

/// A barrier for two callers, and their passes.
fn for_two(alloc: Global) -> Result<(Barrier, BarrierPass, BarrierPass), AllocError>
    ensures callers { IfOk result (λ r. callers_of r.0 ≡ 2) }
    ensures zero { IfOk result (λ r. Belongs r.0 r.1 × (number_of r.1 ≡ 0)) }
    ensures one { IfOk result (λ r. Belongs r.0 r.2 × (number_of r.2 ≡ 1)) }
{
    let (barrier, mut passes) = Barrier::new(alloc, 2)?;
    let Some(one) = passes.pop() else {
        unreachable!()
    };
    let Some(zero) = passes.pop() else {
        unreachable!()
    };
    Ok((barrier, zero, one))
}

/// Ends a barrier of two callers: its history has the calls of each, as its pass shows them.
fn close_two(
    alloc: Global,
    barrier: Barrier,
    zero: BarrierPass,
    one: BarrierPass,
) -> Result<ClosedBarrier, AllocError>
    requires callers { callers_of barrier ≡ 2 }
    requires zero { Belongs barrier zero × (number_of zero ≡ 0) }
    requires one { Belongs barrier one × (number_of one ≡ 1) }
    ensures lawful { IfOk result (λ c. IsHistory (whole_of c)) }
    ensures zero { IfOk result (λ c. calls_by 0 (whole_of c) ≡ own_of zero) }
    ensures one { IfOk result (λ c. calls_by 1 (whole_of c) ≡ own_of one) }
{
    let mut passes = Vec::new(alloc);
    passes.push(zero)?;
    passes.push(one)?;
    Ok(barrier.close(passes))
}

/// The reply that a refusal stands for.
fn refusal(why: BarrierAnswer) -> BarrierReply {
    match why {
        BarrierAnswer::AlreadyIn { phase } => BarrierReply::AlreadyIn(phase),
        BarrierAnswer::NotIn { phase } => BarrierReply::NotIn(phase),
        BarrierAnswer::Twice { phase } => BarrierReply::Twice(phase),
    }
}

/// The reply that the answer to a party that arrives, or looks, stands for.
fn arrival(answer: Result<Arrival, BarrierAnswer>) -> BarrierReply {
    match answer {
        Ok(Arrival::Waiting) => BarrierReply::Waiting,
        Ok(Arrival::Released { phase, elected }) => BarrierReply::Released(phase, elected),
        Err(why) => refusal(why),
    }
}

/// The reply that the answer to a party that leaves stands for.
fn leave(answer: Result<Left, BarrierAnswer>) -> BarrierReply {
    match answer {
        Ok(Left { phase, last }) => BarrierReply::Left(phase, last),
        Err(why) => refusal(why),
    }
}

/// Makes a call. The reply that the answer stands for.
fn reply<R: Wait>(
    rt: &R,
    barrier: &Barrier,
    pass: &mut BarrierPass,
    call: BarrierCall,
) -> BarrierReply
    requires own { Belongs barrier.now pass.old }
    ensures own { Belongs barrier.now pass.new × (number_of pass.new ≡ number_of pass.old) }
{
    match call {
        BarrierCall::Attach => match barrier.attach(rt, pass) {
            Ok(phase) => BarrierReply::Attached(phase),
            Err(why) => refusal(why),
        },
        BarrierCall::Arrive => arrival(barrier.arrive(rt, pass)),
        BarrierCall::Look => arrival(barrier.look(rt, pass)),
        BarrierCall::Detach => leave(barrier.detach(rt, pass)),
        BarrierCall::ArriveAndDetach => leave(barrier.arrive_and_detach(rt, pass)),
        BarrierCall::ArriveAndDetachExceptLast => {
            match barrier.arrive_and_detach_except_last(rt, pass) {
                Ok(Departure::Left { phase }) => BarrierReply::Left(phase, false),
                Ok(Departure::Last { phase }) => BarrierReply::Released(phase, true),
                Err(why) => refusal(why),
            }
        }
    }
}

/// Which of the two parties calls, what, and what it is answered.
type Turn = (u32, BarrierCall, BarrierReply);

/// The parties' calls, one after another: which is the first that is answered otherwise.
fn first_wrong<R: Wait>(
    rt: &R,
    barrier: &Barrier,
    zero: &mut BarrierPass,
    one: &mut BarrierPass,
    turns: &[Turn],
) -> Option<usize>
    requires zero { Belongs barrier.now zero.old }
    requires one { Belongs barrier.now one.old }
    ensures zero { Belongs barrier.now zero.new × (number_of zero.new ≡ number_of zero.old) }
    ensures one { Belongs barrier.now one.new × (number_of one.new ≡ number_of one.old) }
{
    for at in 0..turns.len() {
        let (party, call, wanted) = turns[at];
        let given = match party {
            0 => reply(rt, barrier, zero, call),
            _ => reply(rt, barrier, one, call),
        };
        if given != wanted {
            return Some(at);
        }
    }
    None
}

const ATTACH: BarrierCall = BarrierCall::Attach;

const ARRIVE: BarrierCall = BarrierCall::Arrive;

const LOOK: BarrierCall = BarrierCall::Look;

const DETACH: BarrierCall = BarrierCall::Detach;

const LEAVE: BarrierCall = BarrierCall::ArriveAndDetach;

const LEAVE_UNLESS_LAST: BarrierCall = BarrierCall::ArriveAndDetachExceptLast;

const EACH: [Turn; 14] = [
    (0, ATTACH, BarrierReply::Attached(0)),
    (1, ATTACH, BarrierReply::Attached(0)),
    (1, ATTACH, BarrierReply::AlreadyIn(0)),
    (0, ARRIVE, BarrierReply::Waiting),
    (0, ARRIVE, BarrierReply::Twice(0)),
    (0, LOOK, BarrierReply::Waiting),
    (1, ARRIVE, BarrierReply::Released(1, true)),
    (0, LOOK, BarrierReply::Released(1, false)),
    (0, ARRIVE, BarrierReply::Waiting),
    (1, DETACH, BarrierReply::Left(2, false)),
    (0, LOOK, BarrierReply::Released(2, true)),
    (0, DETACH, BarrierReply::Left(2, true)),
    (0, ARRIVE, BarrierReply::NotIn(2)),
    (0, LOOK, BarrierReply::NotIn(2)),
];

const LEAVING: [Turn; 8] = [
    (0, LEAVE, BarrierReply::NotIn(0)),
    (0, ATTACH, BarrierReply::Attached(0)),
    (1, ATTACH, BarrierReply::Attached(0)),
    (0, ARRIVE, BarrierReply::Waiting),
    (0, LEAVE_UNLESS_LAST, BarrierReply::Twice(0)),
    // the other one has arrived, so the phase ends and elects it
    (1, LEAVE, BarrierReply::Left(1, false)),
    (0, LOOK, BarrierReply::Released(1, true)),
    // nobody else takes part, so the phase ends with nobody to elect
    (0, LEAVE, BarrierReply::Left(2, true)),
];

const STAYING: [Turn; 5] = [
    (0, ATTACH, BarrierReply::Attached(0)),
    (1, ATTACH, BarrierReply::Attached(0)),
    (1, LEAVE_UNLESS_LAST, BarrierReply::Left(0, false)),
    // the last stays, elected
    (0, LEAVE_UNLESS_LAST, BarrierReply::Released(1, true)),
    (0, DETACH, BarrierReply::Left(1, true)),
];

/// The turns at a new barrier, which is closed at the end: which is the first that is answered otherwise.
fn first_wrong_at_new<R: Wait>(
    rt: &R,
    alloc: Global,
    turns: &[Turn],
) -> Result<Option<usize>, AllocError> {
    let (barrier, mut zero, mut one) = for_two(alloc)?;
    let wrong = first_wrong(rt, &barrier, &mut zero, &mut one, turns);
    zero.meet(&barrier, &mut one);
    let _closed = close_two(alloc, barrier, zero, one)?;
    Ok(wrong)
}

#[test]
fn each_answer(rt: HostRuntime) -> Result<(), Fail> {
    assert_eq!(rt; first_wrong_at_new(&rt, rt.alloc(), &EACH)?, None);
    assert_eq!(rt; first_wrong_at_new(&rt, rt.alloc(), &LEAVING)?, None);
    assert_eq!(rt; first_wrong_at_new(&rt, rt.alloc(), &STAYING)?, None);
    Ok(())
}
