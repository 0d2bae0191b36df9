//! The calls of a table of records for a program in C.
//!
//! A handle is 16 bytes of C's, all zero before its first call, which belong to one call at a time. A record is 136 bytes
//! of C's: its count and 16 words. Each call here tries once, looks itself whether it may be made, and answers a code
//! (`c_table`'s `Code`, by its number); so none asks anything of C but what C's types say: that a pointer is good, and that
//! the bytes of a handle are those that the last call left. The waiting calls are loops in C over these, in
//! `bindings/proved/include/lembokuj_try.h`, which also tests pointers before it follows them.
//!
//! A contract speaks of the caller that a handle owns, as in `lk_table`: the turns at the partitions that its pass shows.

#![tactic(auto)]

ghost use Rattle.std.specs.Prelude.{◌≡◌};
ghost use Rattle.c_table.specs.Numbers.{number_of};
ghost use Rattle.c_table.specs.declared.code.Code.{Code as TheCode};
ghost use Rattle.c_records.specs.Calls.{Changes, Closes, CountsKeys, ListsKeys, Opens, Shares};
ghost use Rattle.c_records.specs.declared.value.RecordCall.TheVariants as verb;

use c_records::{Handle, Record, RecordCall, open, share};
use std::alloc::Global;

/// Makes a table for this many callers, and its first caller, with all words that are brought, in a blank handle. It
/// takes memory for the words, the locks and the passes.
#[unsafe(no_mangle)]
pub extern "C" fn lk_raw_records_new(
    alloc: Global,
    callers: u32,
    words: u64,
    first: &mut Handle,
) -> i32
    ensures { (code : TheCode) × (result ≡ number_of code) × Opens callers words 0 first.old.value first.new.value code }
{
    open(alloc, callers, words, 0, first).number()
}

/// The same, with a seed for the hashes that say a key's bucket: for keys that strangers choose, who don't know it.
#[unsafe(no_mangle)]
pub extern "C" fn lk_raw_records_new_with_seed(
    alloc: Global,
    callers: u32,
    words: u64,
    seed: u64,
    first: &mut Handle,
) -> i32
    ensures { (code : TheCode) × (result ≡ number_of code) × Opens callers words seed first.old.value first.new.value code }
{
    open(alloc, callers, words, seed, first).number()
}

/// A further caller in a blank handle, which gets this many words of the one that is asked. It takes memory for the
/// handle's caller.
#[unsafe(no_mangle)]
pub extern "C" fn lk_raw_records_share(
    alloc: Global,
    words: u64,
    from: &mut Handle,
    next: &mut Handle,
) -> i32
    ensures { (code : TheCode) × (result ≡ number_of code) × Shares words from.old.value next.old.value from.new.value next.new.value code }
{
    share(alloc, words, from, next).number()
}

/// Tries to put a record under a key; if the key was there, its record is written to `old`. The costs are those of
/// `c_records::Caller::try_change`.
#[unsafe(no_mangle)]
pub extern "C" fn lk_raw_records_put(
    alloc: Global,
    table: &mut Handle,
    key: u64,
    value: &Record,
    old: &mut Record,
) -> i32
    ensures { (code : TheCode) × (result ≡ number_of code) × Changes table.old.value table.new.value key (verb.Put value.now) old.old old.new code }
{
    table
        .try_change(alloc, key, RecordCall::Put(*value), old)
        .number()
}

/// Tries to put a record under a key that is not there; if the key was there, its record stays, and is written to `old`.
#[unsafe(no_mangle)]
pub extern "C" fn lk_raw_records_put_absent(
    alloc: Global,
    table: &mut Handle,
    key: u64,
    value: &Record,
    old: &mut Record,
) -> i32
    ensures { (code : TheCode) × (result ≡ number_of code) × Changes table.old.value table.new.value key (verb.PutAbsent value.now) old.old old.new code }
{
    table
        .try_change(alloc, key, RecordCall::PutAbsent(*value), old)
        .number()
}

/// Tries to read the record under a key, which is written to `value` if the key is there. One turn.
#[unsafe(no_mangle)]
pub extern "C" fn lk_raw_records_get(
    alloc: Global,
    table: &mut Handle,
    key: u64,
    value: &mut Record,
) -> i32
    ensures { (code : TheCode) × (result ≡ number_of code) × Changes table.old.value table.new.value key verb.Get value.old value.new code }
{
    table.try_get(alloc, key, value).number()
}

/// Tries to take a key out; if it was there, its record is written to `old`.
#[unsafe(no_mangle)]
pub extern "C" fn lk_raw_records_delete(
    alloc: Global,
    table: &mut Handle,
    key: u64,
    old: &mut Record,
) -> i32
    ensures { (code : TheCode) × (result ≡ number_of code) × Changes table.old.value table.new.value key verb.Delete old.old old.new code }
{
    table
        .try_change(alloc, key, RecordCall::Delete, old)
        .number()
}

/// Tries to count the keys of a partition, from 0 to 127: their number is written to `keys`. One turn.
#[unsafe(no_mangle)]
pub extern "C" fn lk_raw_records_count(
    alloc: Global,
    table: &mut Handle,
    partition: u32,
    keys: &mut u64,
) -> i32
    ensures { (code : TheCode) × (result ≡ number_of code) × CountsKeys table.old.value table.new.value partition keys.old keys.new code }
{
    table.try_count(alloc, partition, keys).number()
}

/// Tries to list a partition, from 0 to 127: its keys and the records under them are written to the fronts of two rows, and
/// how many there are to `count`. The costs are those of `c_records::Caller::try_list`.
#[unsafe(no_mangle)]
pub extern "C" fn lk_raw_records_list(
    alloc: Global,
    table: &mut Handle,
    partition: u32,
    keys: &mut [u64],
    records: &mut [Record],
    count: &mut u64,
) -> i32
    ensures { (code : TheCode) × (result ≡ number_of code) × ListsKeys table.old.value table.new.value partition keys.old records.old keys.new records.new code count.new }
{
    let (code, n) = table.try_list(alloc, partition, keys, records);
    *count = n;
    code.number()
}

/// The caller goes, and the handle is blank. The table's memory goes with its last caller.
#[unsafe(no_mangle)]
pub extern "C" fn lk_raw_records_close(alloc: Global, table: &mut Handle) -> i32
    ensures { (code : TheCode) × (result ≡ number_of code) × Closes table.old.value table.new.value code }
{
    table.close(alloc).number()
}
