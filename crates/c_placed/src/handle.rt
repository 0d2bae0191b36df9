//! What a caller keeps between calls.

ghost use Rattle.std.specs.Prelude.{◌≡◌, Option, None, Some, IsSome, is_none, IfOk, IfErr};
ghost use Rattle.std_alloc.specs.Box.{box_value};
ghost use Rattle.std.specs.Option.{option_map};
ghost use Rattle.c_placed.specs.declared.end.End.{End as TheEnd};
ghost use Rattle.c_placed.specs.Owned.{value_code, tag_of, end_owns};
ghost use Rattle.c_placed.specs.declared.end.End.TheVariants.{Sends as Out, Receives as In};
ghost use Rattle.c_placed.specs.Ends.{queue_of};
ghost use Rattle.c_placed.specs.Calls.{IsAt, Sends, Finishes, Receives, Closes, Opens, OpensSender, OpensReceiver};

use crate::code::Code;
use crate::end::End;
use crate::given::{Given, Site};
use loose_box::Loose;
use placed_queue::{Queue, Receiver, Sender};
use std::alloc::{AllocFailed, Global};
use std::marker::Model;
use std::ptr::null_mut;

/// One end of a queue on this process's heap, or nothing. Two words of plain bytes, all zero if it has nothing; only
/// this handle has the end, so a copy of the bytes is no second one. If it is let go with an end in it, that is lost:
/// `close` first.
#[repr(C)]
#[derive(Drop)]
pub struct Handle {
    at: *mut u8,
    full: u64,
    pub ghost value: { Option TheEnd } by { value_code },
    pub ghost tag: { full ≡ tag_of value },
}

impl Model for Handle {
    ghost also_owns = { λ h. end_owns h.at h.value };
}

impl Handle {
    /// A handle that has nothing.
    pub fn blank() -> Handle
        ensures { result.value ≡ None }
    {
        Handle {
            at: null_mut(),
            full: 0,
        }
    }

    /// A handle of a box's parts.
    fn of_loose(loose: Loose<End, Global>) -> Handle
        ensures { result.value ≡ Some loose.value }
    {
        let Loose { at, alloc: _ } = loose;
        Handle {
            at: at as *mut u8,
            full: 1,
        }
    }

    /// The parts of the box again.
    fn into_loose(self, alloc: Global) -> Loose<End, Global>
        requires { IsSome self.value }
        ensures { self.value ≡ Some result.value }
    {
        let Handle { at, full: _ } = self;
        Loose {
            at: at as *mut End,
            alloc,
        }
    }

    /// Whether it has a side, as a word, and itself.
    fn look(self) -> (u64, Handle)
        ensures { (result.0 ≡ tag_of self.value) × (result.1.value ≡ self.value) }
    {
        (self.full, self)
    }

    /// A handle of this side.
    fn of_box(side: Box<End>) -> Handle
        ensures { result.value ≡ Some (box_value side) }
    {
        Handle::of_loose(Loose::of(side))
    }

    /// Its side, if it has one.
    fn into_box(self, alloc: Global) -> Option<Box<End>>
        ensures { option_map box_value result ≡ self.value }
    {
        let (full, handle) = self.look();
        if full == 0 {
            return None;
        }
        Some(handle.into_loose(alloc).into_box())
    }

    /// Takes the side out of it.
    fn take(&mut self, alloc: Global) -> Option<Box<End>>
        ensures blank { self.new.value ≡ None }
        ensures side { option_map box_value result ≡ self.old.value }
    {
        std::mem::replace(self, Handle::blank()).into_box(alloc)
    }

    /// Puts a side into it, which has to be blank.
    fn put(&mut self, side: Box<End>)
        requires { self.old.value ≡ None }
        ensures { self.new.value ≡ Some (box_value side) }
    {
        *self = Handle::of_box(side);
    }

    /// Whether it has nothing.
    fn is_blank(&mut self, alloc: Global) -> bool
        ensures same { self.new.value ≡ self.old.value }
        ensures blank { result ≡ is_none self.old.value }
    {
        match self.take(alloc) {
            Some(side) => {
                self.put(side);
                false
            }
            None => true,
        }
    }

    /// As `Sender::send`, of a handle of an end that sends.
    pub fn send(&mut self, alloc: Global, site: Site, message: &[u8]) -> Code
        requires { IsAt site.queue self.old.value }
        ensures { Sends self.old.value self.new.value message.now result }
    {
        let queue = site.get();
        let Some(mut side) = self.take(alloc) else {
            return Code::Blank;
        };
        let code = side.send(queue, message);
        self.put(side);
        code
    }

    /// As `Sender::finish`, of a handle of an end that sends.
    pub fn finish(&mut self, alloc: Global, site: Site) -> Code
        requires { IsAt site.queue self.old.value }
        ensures { Finishes self.old.value self.new.value result }
    {
        let queue = site.get();
        let Some(mut side) = self.take(alloc) else {
            return Code::Blank;
        };
        let code = side.finish(queue);
        self.put(side);
        code
    }

    /// As `Receiver::receive`, of a handle of the end that receives.
    pub fn receive(&mut self, alloc: Global, site: Site, out: &mut [u8]) -> (Code, usize)
        requires { IsAt site.queue self.old.value }
        ensures { Receives self.old.value self.new.value out.old out.new result.0 result.1 }
    {
        let queue = site.get();
        let Some(mut side) = self.take(alloc) else {
            return (Code::Blank, 0);
        };
        let answer = side.receive(queue, out);
        self.put(side);
        answer
    }

    /// Lets the handle's end go. The receiving end goes back into the queue, for whoever takes it next; if somebody
    /// asks for it at that very moment, it is lost.
    pub fn close(&mut self, alloc: Global, site: Site) -> Code
        requires { IsAt site.queue self.old.value }
        ensures { Closes self.old.value self.new.value result }
    {
        let queue = site.get();
        let Some(side) = self.take(alloc) else {
            return Code::Blank;
        };
        match Box::into_inner(side) {
            End::Sends(_) => {}
            End::Receives(receiver) => {
                let _lost = queue.give_receiver(receiver);
            }
        }
        Code::Done
    }
}

/// Makes a queue at the front of the memory, for good.
pub fn open_at(memory: Given, site: &mut Site) -> Code
    ensures { Opens memory.size site.old.queue site.new.queue result }
{
    let (size, memory) = memory.measured();
    if size < 8192 {
        return Code::BadSize;
    }
    *site = Site::put(memory, Queue::new());
    Code::Done
}

/// An end that sends to the queue of the site, into a blank handle.
pub fn open_sender(alloc: Global, site: Site, tx: &mut Handle) -> Code
    requires { IsSome site.queue }
    ensures { OpensSender site.queue tx.old.value tx.new.value result }
{
    let queue = site.get();
    if !tx.is_blank(alloc) {
        return Code::InUse;
    }
    match Box::new(alloc, End::Sends(Sender::new(queue))) {
        Ok(side) => {
            tx.put(side);
            Code::Done
        }
        Err(_) => Code::NoMemory,
    }
}

/// The end that receives from the queue of the site, into a blank handle, if nobody has it. One compare-exchange.
pub fn open_receiver(alloc: Global, site: Site, rx: &mut Handle) -> Code
    requires { IsSome site.queue }
    ensures { OpensReceiver site.queue rx.old.value rx.new.value result }
{
    let queue = site.get();
    if !rx.is_blank(alloc) {
        return Code::InUse;
    }
    let Some(receiver) = queue.take_receiver() else {
        return Code::Taken;
    };
    match Box::new(alloc, End::Receives(receiver)) {
        Ok(side) => {
            rx.put(side);
            Code::Done
        }
        Err(failed) => {
            let AllocFailed { value } = failed;
            give_back(queue, value);
            Code::NoMemory
        }
    }
}

/// Puts a receiving end back into its queue.
fn give_back(queue: &Queue, end: End)
    requires { queue_of end ≡ queue.now }
{
    if let End::Receives(receiver) = end {
        let _lost = queue.give_receiver(receiver);
    }
}

unsafe impl Send for Handle {}
