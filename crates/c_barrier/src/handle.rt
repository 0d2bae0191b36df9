//! What a program in C keeps between calls.

ghost use Rattle.std.specs.Prelude.{◌≡◌, Option, None, Some, IsSome, is_none, IfOk, IfErr};
ghost use Rattle.std_alloc.specs.Box.{box_value};
ghost use Rattle.std.specs.Option.{option_map};
ghost use Rattle.c_barrier.specs.Calls.{Answers, Closes, Fills, Makes, Opens, Shares, one_if};
ghost use Rattle.c_barrier.specs.Owned.{value_code, tag_of, caller_owns};
ghost use Rattle.c_barrier.specs.declared.shared.Share.{Share as TheShare};

use crate::caller::Caller;
use crate::code::Code;
use crate::making::new_barrier;
use loose_box::Loose;
use par_barrier::{BarrierCall, BarrierReply};
use std::alloc::Global;
use std::marker::Model;
use std::ptr::null_mut;

/// A caller of a barrier on the heap, or nothing. Two words of plain bytes, all zero if it has nothing; only this handle
/// has the caller, so a copy of the bytes is no second one. If it is let go with a caller in it, that is lost: `try_close`
/// first.
#[repr(C)]
#[derive(Drop)]
pub struct Handle {
    at: *mut u8,
    full: u64,
    pub ghost value: { Option TheShare } by { value_code },
    pub ghost tag: { full ≡ tag_of value },
}

impl Model for Handle {
    ghost also_owns = { λ h. caller_owns h.at h.value };
}

impl Handle {
    /// A handle that has nothing.
    pub fn blank() -> Handle
        ensures { result.value ≡ None }
    {
        Handle {
            at: null_mut(),
            full: 0,
        }
    }

    /// A handle of a box's parts.
    fn of_loose(loose: Loose<Caller, Global>) -> Handle
        ensures { result.value ≡ Some loose.value }
    {
        let Loose { at, alloc: _ } = loose;
        Handle {
            at: at as *mut u8,
            full: 1,
        }
    }

    /// The parts of the box again.
    fn into_loose(self, alloc: Global) -> Loose<Caller, Global>
        requires { IsSome self.value }
        ensures { self.value ≡ Some result.value }
    {
        let Handle { at, full: _ } = self;
        Loose {
            at: at as *mut Caller,
            alloc,
        }
    }

    /// Whether it has a caller, as a word, and itself.
    fn look(self) -> (u64, Handle)
        ensures { (result.0 ≡ tag_of self.value) × (result.1.value ≡ self.value) }
    {
        (self.full, self)
    }

    /// A handle of this caller.
    fn of_box(caller: Box<Caller>) -> Handle
        ensures { result.value ≡ Some (box_value caller) }
    {
        Handle::of_loose(Loose::of(caller))
    }

    /// Its caller, if it has one.
    fn into_box(self, alloc: Global) -> Option<Box<Caller>>
        ensures { option_map box_value result ≡ self.value }
    {
        let (full, handle) = self.look();
        if full == 0 {
            return None;
        }
        Some(handle.into_loose(alloc).into_box())
    }

    /// Takes the caller out of it.
    fn take(&mut self, alloc: Global) -> Option<Box<Caller>>
        ensures blank { self.new.value ≡ None }
        ensures caller { option_map box_value result ≡ self.old.value }
    {
        std::mem::replace(self, Handle::blank()).into_box(alloc)
    }

    /// Puts a caller into it, which has to be blank.
    fn put(&mut self, caller: Box<Caller>)
        requires { self.old.value ≡ None }
        ensures { self.new.value ≡ Some (box_value caller) }
    {
        *self = Handle::of_box(caller);
    }

    /// Whether it has nothing.
    fn is_blank(&mut self, alloc: Global) -> bool
        ensures same { self.new.value ≡ self.old.value }
        ensures blank { result ≡ is_none self.old.value }
    {
        match self.take(alloc) {
            Some(caller) => {
                self.put(caller);
                false
            }
            None => true,
        }
    }

    /// As `Caller::try_call`: the phase that is on is written to `phase`, and to `flag` whether the caller is elected,
    /// or whether nobody takes part any more.
    pub fn try_call(
        &mut self,
        alloc: Global,
        call: BarrierCall,
        phase: &mut u64,
        flag: &mut u32,
    ) -> Code
        ensures { Makes self.old.value self.new.value call phase.old flag.old phase.new flag.new result }
    {
        let Some(mut caller) = self.take(alloc) else {
            return Code::Blank;
        };
        let answer = caller.try_call(call);
        self.put(caller);
        told(answer, phase, flag)
    }

    /// The caller leaves the barrier, if it takes part, and goes; unless another caller is there at this moment. The
    /// barrier goes with its last caller.
    pub fn try_close(&mut self, alloc: Global) -> Code
        ensures { Closes self.old.value self.new.value result }
    {
        let Some(mut caller) = self.take(alloc) else {
            return Code::Blank;
        };
        match caller.try_call(BarrierCall::Detach) {
            Some(_) => Code::Done,
            None => {
                self.put(caller);
                Code::WouldBlock
            }
        }
    }
}

/// Writes a phase, and 1 if it is so, and else 0.
fn write(phase: &mut u64, flag: &mut u32, on: u64, so: bool)
    ensures phase { phase.new ≡ on }
    ensures flag { flag.new ≡ one_if so }
{
    *phase = on;
    *flag = u32::from(so);
}

/// Writes the numbers of a reply, if it has them.
fn told_reply(reply: BarrierReply, phase: &mut u64, flag: &mut u32) -> Code
    ensures { Answers (Some reply) phase.old flag.old phase.new flag.new result }
{
    match reply {
        BarrierReply::Waiting => Code::Waiting,
        BarrierReply::Attached(on) => {
            write(phase, flag, on, false);
            Code::Done
        }
        BarrierReply::Released(on, elected) => {
            write(phase, flag, on, elected);
            Code::Done
        }
        BarrierReply::Left(on, last) => {
            write(phase, flag, on, last);
            Code::Done
        }
        BarrierReply::AlreadyIn(on) => {
            write(phase, flag, on, false);
            Code::AlreadyIn
        }
        BarrierReply::NotIn(on) => {
            write(phase, flag, on, false);
            Code::NotIn
        }
        BarrierReply::Twice(on) => {
            write(phase, flag, on, false);
            Code::Twice
        }
    }
}

/// Writes the numbers of an answer, if it has them.
fn told(answer: Option<BarrierReply>, phase: &mut u64, flag: &mut u32) -> Code
    ensures { Answers answer phase.old flag.old phase.new flag.new result }
{
    match answer {
        Some(reply) => told_reply(reply, phase, flag),
        None => Code::WouldBlock,
    }
}

/// Makes a barrier as `new_barrier` does, and puts its first caller into a blank handle.
pub fn open(alloc: Global, callers: u32, first: &mut Handle) -> Code
    ensures { Opens callers first.old.value first.new.value result }
{
    if !first.is_blank(alloc) {
        return Code::InUse;
    }
    match new_barrier(alloc, callers) {
        Ok(caller) => fill(alloc, first, caller),
        Err(code) => code,
    }
}

/// Puts a further caller into a blank handle. If there is no memory, the further
/// caller may be lost.
pub fn share(alloc: Global, from: &mut Handle, next: &mut Handle) -> Code
    ensures { Shares from.old.value next.old.value from.new.value next.new.value result }
{
    if !next.is_blank(alloc) {
        return Code::InUse;
    }
    let Some(mut caller) = from.take(alloc) else {
        return Code::Blank;
    };
    let further = caller.share(alloc);
    from.put(caller);
    match further {
        Ok(further) => fill(alloc, next, further),
        Err(code) => code,
    }
}

/// Puts a caller into a blank handle.
fn fill(alloc: Global, handle: &mut Handle, caller: Caller) -> Code
    requires { handle.old.value ≡ None }
    ensures { Fills caller handle.new.value result }
{
    match Box::new(alloc, caller) {
        Ok(caller) => {
            handle.put(caller);
            Code::Done
        }
        Err(_) => Code::NoMemory,
    }
}

unsafe impl Send for Handle {}
