//! How a barrier is made, and how a further caller comes to it.

ghost use Rattle.std.specs.Prelude.{◌≤◌, IfOk, IfErr};
ghost use Rattle.c_barrier.specs.Made.{IsFirst, IsFurther, IsRefused};

use crate::caller::Caller;
use crate::code::Code;
use crate::shared::Share;
use par_barrier::Barrier;
use std::alloc::{AllocError, Global};
use std::sync::Arc;

/// The most callers of a barrier.
const MOST_CALLERS: u32 = 4096;

/// A barrier that nobody takes part in, and the last of its callers.
fn assemble(alloc: Global, callers: u32) -> Result<Caller, AllocError>
    requires callers { 1 ≤ callers }
    ensures { IfOk result (λ c. IsFirst callers c) }
{
    let (barrier, mut others) = Barrier::new(alloc, callers)?;
    let Some(pass) = others.pop() else {
        unreachable!()
    };
    let shared = Arc::new(alloc, barrier)?;
    Ok(Caller {
        share: Share {
            barrier: shared,
            pass,
            others,
        },
    })
}

/// A barrier for this many callers, which nobody takes part in, and the first of them. It takes memory for the lock, the
/// lists of parties and the passes.
pub fn new_barrier(alloc: Global, callers: u32) -> Result<Caller, Code>
    ensures made { IfOk result (λ c. IsFirst callers c) }
    ensures refused { IfErr result (λ code. IsRefused callers code) }
{
    if callers == 0 || callers > MOST_CALLERS {
        return Err(Code::BadCallers);
    }
    match assemble(alloc, callers) {
        Ok(caller) => Ok(caller),
        Err(_) => Err(Code::NoMemory),
    }
}

impl Caller {
    /// A further caller.
    pub fn share(&mut self, alloc: Global) -> Result<Caller, Code>
        ensures { IsFurther self.old self.new result }
    {
        let share = &mut self.share;
        if share.others.is_empty() {
            return Err(Code::BadCallers);
        }
        let Ok(barrier) = Arc::try_clone(&share.barrier) else {
            return Err(Code::NoMemory);
        };
        let Some(pass) = share.others.pop() else {
            unreachable!()
        };
        Ok(Caller {
            share: Share {
                barrier,
                pass,
                others: Vec::new(alloc),
            },
        })
    }
}
