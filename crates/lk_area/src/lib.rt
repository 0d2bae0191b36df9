//! The area's calls for a program in C.
//!
//! A handle is 16 bytes of C's, all zero before its first call, which belong to one call at a time. Each call here
//! tries once, looks itself whether it may be made, and answers a code (`c_area`'s `Code`, by its number); so none asks
//! anything of C but what C's types say: that a pointer is good, that as many words lie there as it says, and that the
//! bytes of a handle are those that the last call left. The waiting calls are loops in C over these, in
//! `bindings/proved/include/lembokuj_try.h`, which also tests pointers before it follows them.
//!
//! A contract speaks of the caller that a handle owns: its chunks by their numbers, the words in them, and the calls of the
//! area's one history that its pass shows, its own among them. All handles of one area share that history, which is
//! legal (`c_area`'s `specs/Legal.antt`), and of which each pass has seen a beginning.

#![tactic(auto)]

ghost use Rattle.std.specs.Prelude.{◌≡◌};
ghost use Rattle.c_area.specs.Numbers.{number_of};
ghost use Rattle.c_area.specs.Calls.{Allocs, Closes, Finds, Frees, Looks, Measures, Opens, Reads, Shares, Sizes, Trims, Writes};
ghost use Rattle.c_area.specs.declared.code.Code.{Code as TheCode};

use c_area::{Handle, open, share};
use std::alloc::Global;

/// Makes an area of this many pages of 4,096 bytes for this many callers, and its first caller in a blank handle. It
/// takes memory for the pages and their records, the lock and the passes.
#[unsafe(no_mangle)]
pub extern "C" fn lk_raw_area_new(
    alloc: Global,
    callers: u32,
    pages: u32,
    first: &mut Handle,
) -> i32
    ensures { (code : TheCode) × (result ≡ number_of code) × Opens callers pages first.old.value first.new.value code }
{
    open(alloc, callers, pages, first).number()
}

/// A further caller in a blank handle. It takes memory for the handle's caller.
#[unsafe(no_mangle)]
pub extern "C" fn lk_raw_area_share(alloc: Global, from: &mut Handle, next: &mut Handle) -> i32
    ensures { (code : TheCode) × (result ≡ number_of code) × Shares from.old.value next.old.value from.new.value next.new.value code }
{
    share(alloc, from, next).number()
}

/// Tries to get a chunk of at least this many bytes; its number and its bytes are written. The costs of this and of the next
/// three are those of `c_area::Caller`'s calls.
#[unsafe(no_mangle)]
pub extern "C" fn lk_raw_area_alloc(
    alloc: Global,
    area: &mut Handle,
    wanted: u64,
    number: &mut u64,
    bytes: &mut u64,
) -> i32
    ensures { (code : TheCode) × (result ≡ number_of code) × Allocs area.old.value area.new.value wanted number.old bytes.old number.new bytes.new code }
{
    area.try_alloc(alloc, wanted, number, bytes).number()
}

/// Tries to give a chunk back.
#[unsafe(no_mangle)]
pub extern "C" fn lk_raw_area_free(alloc: Global, area: &mut Handle, number: u64) -> i32
    ensures { (code : TheCode) × (result ≡ number_of code) × Frees area.old.value area.new.value number code }
{
    area.try_free(alloc, number).number()
}

/// Tries to give an idle superblock of a size class, from 2 to 37, to the pages.
#[unsafe(no_mangle)]
pub extern "C" fn lk_raw_area_trim(alloc: Global, area: &mut Handle, class: u32) -> i32
    ensures { (code : TheCode) × (result ≡ number_of code) × Trims area.old.value area.new.value class code }
{
    area.try_trim(alloc, class).number()
}

/// Tries to look how the pages are used; how many are granted is written, and the longest run of free ones.
#[unsafe(no_mangle)]
pub extern "C" fn lk_raw_area_usage(
    alloc: Global,
    area: &mut Handle,
    used: &mut u32,
    largest: &mut u32,
) -> i32
    ensures { (code : TheCode) × (result ≡ number_of code) × Looks area.old.value area.new.value used.old largest.old used.new largest.new code }
{
    area.try_usage(alloc, used, largest).number()
}

/// Reads words of a chunk, from its word `from` on. A load a word; no turn at the area.
#[unsafe(no_mangle)]
pub extern "C" fn lk_raw_area_read(
    alloc: Global,
    area: &mut Handle,
    number: u64,
    from: u64,
    out: &mut [u64],
) -> i32
    ensures { (code : TheCode) × (result ≡ number_of code) × Reads area.old.value area.new.value number from out.old out.new code }
{
    area.read(alloc, number, from, out).number()
}

/// Writes words of a chunk, from its word `from` on. A store a word; no turn at the area.
#[unsafe(no_mangle)]
pub extern "C" fn lk_raw_area_write(
    alloc: Global,
    area: &mut Handle,
    number: u64,
    from: u64,
    words: &[u64],
) -> i32
    ensures { (code : TheCode) × (result ≡ number_of code) × Writes area.old.value area.new.value number from words.now code }
{
    area.write(alloc, number, from, words).number()
}

/// Writes how many bytes a chunk has.
#[unsafe(no_mangle)]
pub extern "C" fn lk_raw_area_bytes_of(
    alloc: Global,
    area: &mut Handle,
    number: u64,
    bytes: &mut u64,
) -> i32
    ensures { (code : TheCode) × (result ≡ number_of code) × Sizes area.old.value area.new.value number bytes.old bytes.new code }
{
    area.bytes_of(alloc, number, bytes).number()
}

/// Writes the number of the caller's next chunk, from a number on. It looks at each number up to the greatest there was.
#[unsafe(no_mangle)]
pub extern "C" fn lk_raw_area_next(
    alloc: Global,
    area: &mut Handle,
    from: u64,
    number: &mut u64,
) -> i32
    ensures { (code : TheCode) × (result ≡ number_of code) × Finds area.old.value area.new.value from number.old number.new code }
{
    area.next(alloc, from, number).number()
}

/// Writes the bytes of all pages of the area, granted or not.
#[unsafe(no_mangle)]
pub extern "C" fn lk_raw_area_size(alloc: Global, area: &mut Handle, bytes: &mut u64) -> i32
    ensures { (code : TheCode) × (result ≡ number_of code) × Measures area.old.value area.new.value bytes.old bytes.new code }
{
    area.size(alloc, bytes).number()
}

/// The caller goes, if it has no chunk, and the handle is blank. The area's memory goes with its last caller.
#[unsafe(no_mangle)]
pub extern "C" fn lk_raw_area_close(alloc: Global, area: &mut Handle) -> i32
    ensures { (code : TheCode) × (result ≡ number_of code) × Closes area.old.value area.new.value code }
{
    area.close(alloc).number()
}
