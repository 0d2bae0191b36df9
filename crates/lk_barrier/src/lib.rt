//! The barrier's calls for a program in C.
//!
//! A handle is 16 bytes of C's, all zero before its first call, which belong to one call at a time. Each call here
//! tries once, looks itself whether it may be made, and answers a code (`c_barrier`'s `Code`, by its number); so none
//! asks anything of C but what C's types say: that a pointer is good, and that the bytes of a handle are those that the
//! last call left. The waiting calls are loops in C over these, in `bindings/proved/include/lembokuj_try.h`, which also
//! tests pointers before it follows them.
//!
//! A contract speaks of the caller that a handle owns: the calls of the barrier's one history that its pass shows, and its
//! own among them. All handles of one barrier share that history, which is legal (`par_barrier`), and of which each pass
//! has seen a beginning.

#![tactic(auto)]

ghost use Rattle.std.specs.Prelude.{◌≡◌};
ghost use Rattle.c_barrier.specs.Numbers.{number_of};
ghost use Rattle.c_barrier.specs.Calls.{Closes, Makes, Opens, Shares};
ghost use Rattle.c_barrier.specs.declared.code.Code.{Code as TheCode};
ghost use Rattle.par_barrier.specs.declared.history.BarrierCall.TheVariants as verb;

use c_barrier::{Handle, open, share};
use par_barrier::BarrierCall;
use std::alloc::Global;

/// Makes a barrier for this many callers, which nobody takes part in, and its first caller in a blank handle. It takes
/// memory for the lock, the lists of parties and the passes.
#[unsafe(no_mangle)]
pub extern "C" fn lk_raw_barrier_new(alloc: Global, callers: u32, first: &mut Handle) -> i32
    ensures { (code : TheCode) × (result ≡ number_of code) × Opens callers first.old.value first.new.value code }
{
    open(alloc, callers, first).number()
}

/// A further caller in a blank handle. It takes memory for the handle's caller.
#[unsafe(no_mangle)]
pub extern "C" fn lk_raw_barrier_share(alloc: Global, from: &mut Handle, next: &mut Handle) -> i32
    ensures { (code : TheCode) × (result ≡ number_of code) × Shares from.old.value next.old.value from.new.value next.new.value code }
{
    share(alloc, from, next).number()
}

/// Tries to take part from now on; the phase that is on is written. The costs of this and of the next five are those of
/// `c_barrier::Caller::try_call`.
#[unsafe(no_mangle)]
pub extern "C" fn lk_raw_barrier_attach(
    alloc: Global,
    barrier: &mut Handle,
    phase: &mut u64,
    flag: &mut u32,
) -> i32
    ensures { (code : TheCode) × (result ≡ number_of code) × Makes barrier.old.value barrier.new.value verb.Attach phase.old flag.old phase.new flag.new code }
{
    barrier
        .try_call(alloc, BarrierCall::Attach, phase, flag)
        .number()
}

/// Tries to arrive; if the phase ends with that, the new one is written, and that the caller is elected.
#[unsafe(no_mangle)]
pub extern "C" fn lk_raw_barrier_arrive(
    alloc: Global,
    barrier: &mut Handle,
    phase: &mut u64,
    flag: &mut u32,
) -> i32
    ensures { (code : TheCode) × (result ≡ number_of code) × Makes barrier.old.value barrier.new.value verb.Arrive phase.old flag.old phase.new flag.new code }
{
    barrier
        .try_call(alloc, BarrierCall::Arrive, phase, flag)
        .number()
}

/// Looks whether the phase in which the caller arrived has ended; then the new one is written, and whether the caller is
/// elected.
#[unsafe(no_mangle)]
pub extern "C" fn lk_raw_barrier_look(
    alloc: Global,
    barrier: &mut Handle,
    phase: &mut u64,
    flag: &mut u32,
) -> i32
    ensures { (code : TheCode) × (result ≡ number_of code) × Makes barrier.old.value barrier.new.value verb.Look phase.old flag.old phase.new flag.new code }
{
    barrier
        .try_call(alloc, BarrierCall::Look, phase, flag)
        .number()
}

/// Tries to take part no more; the phase that is on is written, and whether nobody takes part any more.
#[unsafe(no_mangle)]
pub extern "C" fn lk_raw_barrier_detach(
    alloc: Global,
    barrier: &mut Handle,
    phase: &mut u64,
    flag: &mut u32,
) -> i32
    ensures { (code : TheCode) × (result ≡ number_of code) × Makes barrier.old.value barrier.new.value verb.Detach phase.old flag.old phase.new flag.new code }
{
    barrier
        .try_call(alloc, BarrierCall::Detach, phase, flag)
        .number()
}

/// Tries to arrive and take part no more, in one call; what is written is as of the call before.
#[unsafe(no_mangle)]
pub extern "C" fn lk_raw_barrier_arrive_and_detach(
    alloc: Global,
    barrier: &mut Handle,
    phase: &mut u64,
    flag: &mut u32,
) -> i32
    ensures { (code : TheCode) × (result ≡ number_of code) × Makes barrier.old.value barrier.new.value verb.ArriveAndDetach phase.old flag.old phase.new flag.new code }
{
    barrier
        .try_call(alloc, BarrierCall::ArriveAndDetach, phase, flag)
        .number()
}

/// Tries to arrive and take part no more, unless the caller is the last that does: then the phase ends, it is elected, and
/// takes part still. The phase that is on is written, and whether the caller is that last one.
#[unsafe(no_mangle)]
pub extern "C" fn lk_raw_barrier_arrive_and_detach_except_last(
    alloc: Global,
    barrier: &mut Handle,
    phase: &mut u64,
    flag: &mut u32,
) -> i32
    ensures { (code : TheCode) × (result ≡ number_of code) × Makes barrier.old.value barrier.new.value verb.ArriveAndDetachExceptLast phase.old flag.old phase.new flag.new code }
{
    barrier
        .try_call(alloc, BarrierCall::ArriveAndDetachExceptLast, phase, flag)
        .number()
}

/// Tries to leave the barrier, if the caller takes part; then the caller goes, and the handle is blank. The barrier's
/// memory goes with its last caller.
#[unsafe(no_mangle)]
pub extern "C" fn lk_raw_barrier_close(alloc: Global, barrier: &mut Handle) -> i32
    ensures { (code : TheCode) × (result ≡ number_of code) × Closes barrier.old.value barrier.new.value code }
{
    barrier.try_close(alloc).number()
}
