//! What a caller keeps between calls.

ghost use Rattle.std.specs.Prelude.{◌≡◌, Option, None, Some, IsSome, is_none, IfOk, IfErr};
ghost use Rattle.std_alloc.specs.Box.{box_value};
ghost use Rattle.std.specs.Option.{option_map};
ghost use Rattle.c_queue.specs.declared.end.End.{End as TheEnd};
ghost use Rattle.c_queue.specs.Owned.{value_code, tag_of, end_owns};
ghost use Rattle.c_queue.specs.declared.end.End.TheVariants.{Sends as Out, Receives as In};
ghost use Rattle.c_queue.specs.Made.{IsQueue, IsRefused};
ghost use Rattle.c_queue.specs.Sides.{Outgoing};
ghost use Rattle.mq_handle.specs.Receives.{Incoming};
ghost use Rattle.c_queue.specs.Calls.{Sends, SendsWhole, Flushes, Receives, Leaves, Closes, Opens};

use crate::code::Code;
use crate::end::End;
use crate::queue::new_queue;
use loose_box::Loose;
use std::alloc::Global;
use std::marker::Model;
use std::ptr::null_mut;

/// One side of a queue on the heap, or nothing. Two words of plain bytes, all zero if it has nothing; only this handle
/// has the side, so a copy of the bytes is no second side. If it is let go with a side in it, that is lost: `close`
/// first.
#[repr(C)]
#[derive(Drop)]
pub struct Handle {
    at: *mut u8,
    full: u64,
    pub ghost value: { Option TheEnd } by { value_code },
    pub ghost tag: { full ≡ tag_of value },
}

impl Model for Handle {
    ghost also_owns = { λ h. end_owns h.at h.value };
}

impl Handle {
    /// A handle that has nothing.
    pub fn blank() -> Handle
        ensures { result.value ≡ None }
    {
        Handle {
            at: null_mut(),
            full: 0,
        }
    }

    /// A handle of a box's parts.
    fn of_loose(loose: Loose<End, Global>) -> Handle
        ensures { result.value ≡ Some loose.value }
    {
        let Loose { at, alloc: _ } = loose;
        Handle {
            at: at as *mut u8,
            full: 1,
        }
    }

    /// The parts of the box again.
    fn into_loose(self, alloc: Global) -> Loose<End, Global>
        requires { IsSome self.value }
        ensures { self.value ≡ Some result.value }
    {
        let Handle { at, full: _ } = self;
        Loose {
            at: at as *mut End,
            alloc,
        }
    }

    /// Whether it has a side, as a word, and itself.
    fn look(self) -> (u64, Handle)
        ensures { (result.0 ≡ tag_of self.value) × (result.1.value ≡ self.value) }
    {
        (self.full, self)
    }

    /// A handle of this side.
    fn of_box(side: Box<End>) -> Handle
        ensures { result.value ≡ Some (box_value side) }
    {
        Handle::of_loose(Loose::of(side))
    }

    /// Its side, if it has one.
    fn into_box(self, alloc: Global) -> Option<Box<End>>
        ensures { option_map box_value result ≡ self.value }
    {
        let (full, handle) = self.look();
        if full == 0 {
            return None;
        }
        Some(handle.into_loose(alloc).into_box())
    }

    /// Takes the side out of it.
    fn take(&mut self, alloc: Global) -> Option<Box<End>>
        ensures blank { self.new.value ≡ None }
        ensures side { option_map box_value result ≡ self.old.value }
    {
        std::mem::replace(self, Handle::blank()).into_box(alloc)
    }

    /// Puts a side into it, which has to be blank.
    pub fn put(&mut self, side: Box<End>)
        requires { self.old.value ≡ None }
        ensures { self.new.value ≡ Some (box_value side) }
    {
        *self = Handle::of_box(side);
    }

    /// Whether it has nothing.
    pub fn is_blank(&mut self, alloc: Global) -> bool
        ensures same { self.new.value ≡ self.old.value }
        ensures blank { result ≡ is_none self.old.value }
    {
        match self.take(alloc) {
            Some(side) => {
                self.put(side);
                false
            }
            None => true,
        }
    }

    /// As `Outbox::try_send`, of a handle of the side that sends.
    pub fn try_send(&mut self, alloc: Global, message: &[u8], flush: bool) -> Code
        ensures { Sends self.old.value self.new.value message.now flush result }
    {
        let Some(mut side) = self.take(alloc) else {
            return Code::Blank;
        };
        let code = side.try_send(message, flush);
        self.put(side);
        code
    }

    /// As `Outbox::try_send_whole`, of a handle of the side that sends.
    pub fn try_send_whole(&mut self, alloc: Global, message: &[u8], flush: bool) -> Code
        ensures { SendsWhole self.old.value self.new.value message.now flush result }
    {
        let Some(mut side) = self.take(alloc) else {
            return Code::Blank;
        };
        let code = side.try_send_whole(message, flush);
        self.put(side);
        code
    }

    /// As `Outbox::flush`, of a handle of the side that sends.
    pub fn flush(&mut self, alloc: Global) -> Code
        ensures { Flushes self.old.value self.new.value result }
    {
        let Some(mut side) = self.take(alloc) else {
            return Code::Blank;
        };
        let code = side.flush();
        self.put(side);
        code
    }

    /// As `Inbox::try_receive`, of a handle of the side that receives.
    pub fn try_receive(&mut self, alloc: Global, out: &mut [u8]) -> (Code, usize)
        ensures { Receives self.old.value self.new.value out.old out.new result.0 result.1 }
    {
        let Some(mut side) = self.take(alloc) else {
            return (Code::Blank, 0);
        };
        let answer = side.try_receive(out);
        self.put(side);
        answer
    }

    /// Leaves the queue; what the side knows stays.
    pub fn leave(&mut self, alloc: Global) -> Code
        ensures { Leaves self.old.value self.new.value result }
    {
        let Some(mut side) = self.take(alloc) else {
            return Code::Blank;
        };
        let code = side.leave();
        self.put(side);
        code
    }

    /// Gives back the memory of a side that has left, so none goes before the other side was told. The ring's memory
    /// goes with the second side.
    pub fn close(&mut self, alloc: Global) -> Code
        ensures { Closes self.old.value self.new.value result }
    {
        let Some(side) = self.take(alloc) else {
            return Code::Blank;
        };
        if side.has_left() {
            return Code::Done;
        }
        self.put(side);
        Code::StillIn
    }
}

/// Makes a queue as `new_queue` does, and puts its sides into two blank handles.
pub fn open(alloc: Global, words: u64, max: u32, tx: &mut Handle, rx: &mut Handle) -> Code
    ensures { Opens words max tx.old.value rx.old.value tx.new.value rx.new.value result }
{
    if !tx.is_blank(alloc) || !rx.is_blank(alloc) {
        return Code::InUse;
    }
    match boxed_queue(alloc, words, max) {
        Ok((outbox, inbox)) => {
            tx.put(outbox);
            rx.put(inbox);
            Code::Done
        }
        Err(code) => code,
    }
}

/// Both sides of a new queue, each on the heap.
fn boxed_queue(alloc: Global, words: u64, max: u32) -> Result<(Box<End>, Box<End>), Code>
    ensures made { IfOk result (λ sides. (o : Outgoing) × (q : Incoming) × (box_value sides.0 ≡ Out o) × (box_value sides.1 ≡ In q) × IsQueue words max o q) }
    ensures refused { IfErr result (λ code. IsRefused words max code) }
{
    let (outbox, inbox) = new_queue(alloc, words, max)?;
    let Ok(outbox) = Box::new(alloc, End::Sends(outbox)) else {
        return Err(Code::NoMemory);
    };
    let Ok(inbox) = Box::new(alloc, End::Receives(inbox)) else {
        return Err(Code::NoMemory);
    };
    Ok((outbox, inbox))
}

unsafe impl Send for Handle {}
