//! What a program in C keeps between calls.

ghost use Rattle.std.specs.Prelude.{◌≡◌, ◌≤◌, ◌^◌, Option, None, Some, IsSome, is_none, IfSome};
ghost use Rattle.std_alloc.specs.Box.{box_value};
ghost use Rattle.std.specs.Option.{option_map};
ghost use Rattle.c_area.specs.Calls.{Allocs, Answers, Closes, Fills, Finds, Frees, Looks, Measures, Opens, Reads, Shares, Sizes, Tells, TellsBytes, Trims, Writes};
ghost use Rattle.c_area.specs.Owned.{value_code, tag_of, caller_owns};
ghost use Rattle.c_area.specs.declared.shared.Share.{Share as TheShare};

use crate::caller::{Caller, Grant};
use crate::code::Code;
use crate::making::new_area;
use free_pages::Usage;
use loose_box::Loose;
use std::alloc::Global;
use std::marker::Model;
use std::ptr::null_mut;

/// A caller of an area on the heap, or nothing. Two words of plain bytes, all zero if it has nothing; only this handle
/// has the caller, so a copy of the bytes is no second one. If it is let go with a caller in it, that is lost: `close`
/// first.
#[repr(C)]
#[derive(Drop)]
pub struct Handle {
    at: *mut u8,
    full: u64,
    pub ghost value: { Option TheShare } by { value_code },
    pub ghost tag: { full ≡ tag_of value },
}

impl Model for Handle {
    ghost also_owns = { λ h. caller_owns h.at h.value };
}

impl Handle {
    /// A handle that has nothing.
    pub fn blank() -> Handle
        ensures { result.value ≡ None }
    {
        Handle {
            at: null_mut(),
            full: 0,
        }
    }

    /// A handle of a box's parts.
    fn of_loose(loose: Loose<Caller, Global>) -> Handle
        ensures { result.value ≡ Some loose.value }
    {
        let Loose { at, alloc: _ } = loose;
        Handle {
            at: at as *mut u8,
            full: 1,
        }
    }

    /// The parts of the box again.
    fn into_loose(self, alloc: Global) -> Loose<Caller, Global>
        requires { IsSome self.value }
        ensures { self.value ≡ Some result.value }
    {
        let Handle { at, full: _ } = self;
        Loose {
            at: at as *mut Caller,
            alloc,
        }
    }

    /// Whether it has a caller, as a word, and itself.
    fn look(self) -> (u64, Handle)
        ensures { (result.0 ≡ tag_of self.value) × (result.1.value ≡ self.value) }
    {
        (self.full, self)
    }

    /// A handle of this caller.
    fn of_box(caller: Box<Caller>) -> Handle
        ensures { result.value ≡ Some (box_value caller) }
    {
        Handle::of_loose(Loose::of(caller))
    }

    /// Its caller, if it has one.
    fn into_box(self, alloc: Global) -> Option<Box<Caller>>
        ensures { option_map box_value result ≡ self.value }
    {
        let (full, handle) = self.look();
        if full == 0 {
            return None;
        }
        Some(handle.into_loose(alloc).into_box())
    }

    /// Takes the caller out of it.
    fn take(&mut self, alloc: Global) -> Option<Box<Caller>>
        ensures blank { self.new.value ≡ None }
        ensures caller { option_map box_value result ≡ self.old.value }
    {
        std::mem::replace(self, Handle::blank()).into_box(alloc)
    }

    /// Puts a caller into it, which has to be blank.
    fn put(&mut self, caller: Box<Caller>)
        requires { self.old.value ≡ None }
        ensures { self.new.value ≡ Some (box_value caller) }
    {
        *self = Handle::of_box(caller);
    }

    /// Whether it has nothing.
    fn is_blank(&mut self, alloc: Global) -> bool
        ensures same { self.new.value ≡ self.old.value }
        ensures blank { result ≡ is_none self.old.value }
    {
        match self.take(alloc) {
            Some(caller) => {
                self.put(caller);
                false
            }
            None => true,
        }
    }

    /// As `Caller::try_alloc`: the chunk's number and its bytes are written.
    pub fn try_alloc(
        &mut self,
        alloc: Global,
        wanted: u64,
        number: &mut u64,
        bytes: &mut u64,
    ) -> Code
        ensures { Allocs self.old.value self.new.value wanted number.old bytes.old number.new bytes.new result }
    {
        let Some(mut caller) = self.take(alloc) else {
            return Code::Blank;
        };
        let answer = caller.try_alloc(wanted);
        self.put(caller);
        told(answer, number, bytes)
    }

    /// As `Caller::try_free`.
    pub fn try_free(&mut self, alloc: Global, number: u64) -> Code
        ensures { Frees self.old.value self.new.value number result }
    {
        let Some(mut caller) = self.take(alloc) else {
            return Code::Blank;
        };
        let code = caller.try_free(number);
        self.put(caller);
        code
    }

    /// As `Caller::try_trim`.
    pub fn try_trim(&mut self, alloc: Global, class: u32) -> Code
        ensures { Trims self.old.value self.new.value class result }
    {
        let Some(mut caller) = self.take(alloc) else {
            return Code::Blank;
        };
        let code = caller.try_trim(class);
        self.put(caller);
        code
    }

    /// As `Caller::try_usage`: both numbers are written.
    pub fn try_usage(&mut self, alloc: Global, used: &mut u32, largest: &mut u32) -> Code
        ensures { Looks self.old.value self.new.value used.old largest.old used.new largest.new result }
    {
        let Some(mut caller) = self.take(alloc) else {
            return Code::Blank;
        };
        let answer = caller.try_usage();
        self.put(caller);
        told_usage(answer, used, largest)
    }

    /// As `Caller::read`.
    pub fn read(&mut self, alloc: Global, number: u64, from: u64, out: &mut [u64]) -> Code
        ensures { Reads self.old.value self.new.value number from out.old out.new result }
    {
        let Some(mut caller) = self.take(alloc) else {
            return Code::Blank;
        };
        let code = caller.read(number, from, out);
        self.put(caller);
        code
    }

    /// As `Caller::write`.
    pub fn write(&mut self, alloc: Global, number: u64, from: u64, words: &[u64]) -> Code
        ensures { Writes self.old.value self.new.value number from words.now result }
    {
        let Some(mut caller) = self.take(alloc) else {
            return Code::Blank;
        };
        let code = caller.write(number, from, words);
        self.put(caller);
        code
    }

    /// The bytes of a chunk are written.
    pub fn bytes_of(&mut self, alloc: Global, number: u64, bytes: &mut u64) -> Code
        ensures { Sizes self.old.value self.new.value number bytes.old bytes.new result }
    {
        let Some(caller) = self.take(alloc) else {
            return Code::Blank;
        };
        let found = caller.words_of(number);
        self.put(caller);
        told_size(found, bytes)
    }

    /// As `Caller::next`: the number is written.
    pub fn next(&mut self, alloc: Global, from: u64, number: &mut u64) -> Code
        ensures { Finds self.old.value self.new.value from number.old number.new result }
    {
        let Some(caller) = self.take(alloc) else {
            return Code::Blank;
        };
        let found = caller.next(from);
        self.put(caller);
        match found {
            Some(next) => {
                *number = next;
                Code::Done
            }
            None => Code::Absent,
        }
    }

    /// As `Caller::size`: the bytes of all pages are written.
    pub fn size(&mut self, alloc: Global, bytes: &mut u64) -> Code
        ensures { Measures self.old.value self.new.value bytes.old bytes.new result }
    {
        let Some(caller) = self.take(alloc) else {
            return Code::Blank;
        };
        *bytes = caller.size();
        self.put(caller);
        Code::Done
    }

    /// The caller goes, if it has no chunk. The area goes with its last caller.
    pub fn close(&mut self, alloc: Global) -> Code
        ensures { Closes self.old.value self.new.value result }
    {
        let Some(caller) = self.take(alloc) else {
            return Code::Blank;
        };
        match caller.next(0) {
            Some(_) => {
                self.put(caller);
                Code::StillIn
            }
            None => Code::Done,
        }
    }
}

/// Writes the numbers of an answer, if it has them.
fn told(answer: Result<Grant, Code>, number: &mut u64, bytes: &mut u64) -> Code
    ensures { Answers answer number.old bytes.old number.new bytes.new result }
{
    match answer {
        Ok(grant) => {
            *number = grant.number;
            *bytes = grant.bytes;
            Code::Done
        }
        Err(code) => code,
    }
}

/// Writes how the pages are used, if that was seen.
fn told_usage(answer: Option<Usage>, used: &mut u32, largest: &mut u32) -> Code
    ensures { Tells answer used.old largest.old used.new largest.new result }
{
    match answer {
        Some(usage) => {
            *used = usage.used;
            *largest = usage.largest;
            Code::Done
        }
        None => Code::WouldBlock,
    }
}

/// Writes the bytes of this many words, if there are any.
fn told_size(words: Option<u64>, bytes: &mut u64) -> Code
    requires few { IfSome words (λ n. n ≤ 2 ^ 26) }
    ensures { TellsBytes words bytes.old bytes.new result }
{
    match words {
        Some(words) => {
            *bytes = 8 * words;
            Code::Done
        }
        None => Code::Stranger,
    }
}

/// Makes an area as `new_area` does, and puts its first caller into a blank handle.
pub fn open(alloc: Global, callers: u32, pages: u32, first: &mut Handle) -> Code
    ensures { Opens callers pages first.old.value first.new.value result }
{
    if !first.is_blank(alloc) {
        return Code::InUse;
    }
    match new_area(alloc, callers, pages) {
        Ok(caller) => fill(alloc, first, caller),
        Err(code) => code,
    }
}

/// Puts a further caller into a blank handle. If there is no memory, the further
/// caller may be lost.
pub fn share(alloc: Global, from: &mut Handle, next: &mut Handle) -> Code
    ensures { Shares from.old.value next.old.value from.new.value next.new.value result }
{
    if !next.is_blank(alloc) {
        return Code::InUse;
    }
    let Some(mut caller) = from.take(alloc) else {
        return Code::Blank;
    };
    let further = caller.share(alloc);
    from.put(caller);
    match further {
        Ok(further) => fill(alloc, next, further),
        Err(code) => code,
    }
}

/// Puts a caller into a blank handle.
fn fill(alloc: Global, handle: &mut Handle, caller: Caller) -> Code
    requires { handle.old.value ≡ None }
    ensures { Fills caller handle.new.value result }
{
    match Box::new(alloc, caller) {
        Ok(caller) => {
            handle.put(caller);
            Code::Done
        }
        Err(_) => Code::NoMemory,
    }
}

unsafe impl Send for Handle {}
