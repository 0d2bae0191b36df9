//! What a program in C keeps between calls.

ghost use Rattle.std.specs.Prelude.{◌≡◌, Option, None, Some, IsSome, is_none, IfOk, IfErr};
ghost use Rattle.std_alloc.specs.Box.{box_value};
ghost use Rattle.std.specs.Option.{option_map};
ghost use Rattle.c_table.specs.Calls.{Answers, AnswersCount, Changes, Closes, CountsKeys, Fills, ListsKeys, Opens, Shares};
ghost use Rattle.c_table.specs.Owned.{value_code, tag_of, caller_owns};
ghost use Rattle.c_table.specs.declared.shared.Share.{Share as TheShare};
ghost use Rattle.c_table.specs.declared.word.WordCall.TheVariants.{Get};

use crate::caller::Caller;
use crate::code::Code;
use crate::making::new_table;
use crate::word::WordCall;
use loose_box::Loose;
use std::alloc::Global;
use std::marker::Model;
use std::ptr::null_mut;

/// A caller of a table on the heap, or nothing. Two words of plain bytes, all zero if it has nothing; only this handle
/// has the caller, so a copy of the bytes is no second one. If it is let go with a caller in it, that is lost: `close`
/// first.
#[repr(C)]
#[derive(Drop)]
pub struct Handle {
    at: *mut u8,
    full: u64,
    pub ghost value: { Option TheShare } by { value_code },
    pub ghost tag: { full ≡ tag_of value },
}

impl Model for Handle {
    ghost also_owns = { λ h. caller_owns h.at h.value };
}

impl Handle {
    /// A handle that has nothing.
    pub fn blank() -> Handle
        ensures { result.value ≡ None }
    {
        Handle {
            at: null_mut(),
            full: 0,
        }
    }

    /// A handle of a box's parts.
    fn of_loose(loose: Loose<Caller, Global>) -> Handle
        ensures { result.value ≡ Some loose.value }
    {
        let Loose { at, alloc: _ } = loose;
        Handle {
            at: at as *mut u8,
            full: 1,
        }
    }

    /// The parts of the box again.
    fn into_loose(self, alloc: Global) -> Loose<Caller, Global>
        requires { IsSome self.value }
        ensures { self.value ≡ Some result.value }
    {
        let Handle { at, full: _ } = self;
        Loose {
            at: at as *mut Caller,
            alloc,
        }
    }

    /// Whether it has a caller, as a word, and itself.
    fn look(self) -> (u64, Handle)
        ensures { (result.0 ≡ tag_of self.value) × (result.1.value ≡ self.value) }
    {
        (self.full, self)
    }

    /// A handle of this caller.
    fn of_box(caller: Box<Caller>) -> Handle
        ensures { result.value ≡ Some (box_value caller) }
    {
        Handle::of_loose(Loose::of(caller))
    }

    /// Its caller, if it has one.
    fn into_box(self, alloc: Global) -> Option<Box<Caller>>
        ensures { option_map box_value result ≡ self.value }
    {
        let (full, handle) = self.look();
        if full == 0 {
            return None;
        }
        Some(handle.into_loose(alloc).into_box())
    }

    /// Takes the caller out of it.
    fn take(&mut self, alloc: Global) -> Option<Box<Caller>>
        ensures blank { self.new.value ≡ None }
        ensures caller { option_map box_value result ≡ self.old.value }
    {
        std::mem::replace(self, Handle::blank()).into_box(alloc)
    }

    /// Puts a caller into it, which has to be blank.
    fn put(&mut self, caller: Box<Caller>)
        requires { self.old.value ≡ None }
        ensures { self.new.value ≡ Some (box_value caller) }
    {
        *self = Handle::of_box(caller);
    }

    /// Whether it has nothing.
    fn is_blank(&mut self, alloc: Global) -> bool
        ensures same { self.new.value ≡ self.old.value }
        ensures blank { result ≡ is_none self.old.value }
    {
        match self.take(alloc) {
            Some(caller) => {
                self.put(caller);
                false
            }
            None => true,
        }
    }

    /// As `Caller::try_get`: if the key is there, its word is written.
    pub fn try_get(&mut self, alloc: Global, key: u64, word: &mut u64) -> Code
        ensures { Changes self.old.value self.new.value key Get word.old word.new result }
    {
        let Some(mut caller) = self.take(alloc) else {
            return Code::Blank;
        };
        let answer = caller.try_get(key);
        self.put(caller);
        told(answer, word)
    }

    /// As `Caller::try_change`: if the key was there, the word before is written.
    pub fn try_change(&mut self, alloc: Global, key: u64, call: WordCall, word: &mut u64) -> Code
        ensures { Changes self.old.value self.new.value key call word.old word.new result }
    {
        let Some(mut caller) = self.take(alloc) else {
            return Code::Blank;
        };
        let answer = caller.try_change(key, call);
        self.put(caller);
        told(answer, word)
    }

    /// As `Caller::try_count`: the number is written.
    pub fn try_count(&mut self, alloc: Global, partition: u32, keys: &mut u64) -> Code
        ensures { CountsKeys self.old.value self.new.value partition keys.old keys.new result }
    {
        let Some(mut caller) = self.take(alloc) else {
            return Code::Blank;
        };
        let answer = caller.try_count(partition);
        self.put(caller);
        told_count(answer, keys)
    }

    /// As `Caller::try_list`.
    pub fn try_list(
        &mut self,
        alloc: Global,
        partition: u32,
        keys: &mut [u64],
        words: &mut [u64],
    ) -> (Code, u64)
        ensures { ListsKeys self.old.value self.new.value partition keys.old words.old keys.new words.new result.0 result.1 }
    {
        let Some(mut caller) = self.take(alloc) else {
            return (Code::Blank, 0);
        };
        let answer = caller.try_list(alloc, partition, keys, words);
        self.put(caller);
        answer
    }

    /// The caller goes, and what it has with it. The table goes with its last caller.
    pub fn close(&mut self, alloc: Global) -> Code
        ensures { Closes self.old.value self.new.value result }
    {
        match self.take(alloc) {
            Some(_) => Code::Done,
            None => Code::Blank,
        }
    }
}

/// Writes the word of an answer, if it has one.
fn told(answer: Result<Option<u64>, Code>, word: &mut u64) -> Code
    ensures { Answers answer word.old word.new result }
{
    match answer {
        Ok(Some(found)) => {
            *word = found;
            Code::Done
        }
        Ok(None) => Code::Absent,
        Err(code) => code,
    }
}

/// Writes the number of an answer, if it has one.
fn told_count(answer: Result<u64, Code>, keys: &mut u64) -> Code
    ensures { AnswersCount answer keys.old keys.new result }
{
    match answer {
        Ok(found) => {
            *keys = found;
            Code::Done
        }
        Err(code) => code,
    }
}

/// Makes a table as `new_table` does, and puts its first caller into a blank handle.
pub fn open(alloc: Global, callers: u32, words: u64, seed: u64, first: &mut Handle) -> Code
    ensures { Opens callers words seed first.old.value first.new.value result }
{
    if !first.is_blank(alloc) {
        return Code::InUse;
    }
    match new_table(alloc, callers, words, seed) {
        Ok(caller) => fill(alloc, first, caller),
        Err(code) => code,
    }
}

/// Puts a further caller, with this many words of this one's, into a blank handle. If there is no memory, the further
/// caller may be lost.
pub fn share(alloc: Global, words: u64, from: &mut Handle, next: &mut Handle) -> Code
    ensures { Shares words from.old.value next.old.value from.new.value next.new.value result }
{
    if !next.is_blank(alloc) {
        return Code::InUse;
    }
    let Some(mut caller) = from.take(alloc) else {
        return Code::Blank;
    };
    let further = caller.share(alloc, words);
    from.put(caller);
    match further {
        Ok(further) => fill(alloc, next, further),
        Err(code) => code,
    }
}

/// Puts a caller into a blank handle.
fn fill(alloc: Global, handle: &mut Handle, caller: Caller) -> Code
    requires { handle.old.value ≡ None }
    ensures { Fills caller handle.new.value result }
{
    match Box::new(alloc, caller) {
        Ok(caller) => {
            handle.put(caller);
            Code::Done
        }
        Err(_) => Code::NoMemory,
    }
}

unsafe impl Send for Handle {}
