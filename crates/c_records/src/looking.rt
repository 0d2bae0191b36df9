//! Calls at a whole partition: how many keys it has, and which. A program that wants those of the table goes through all
//! partitions, each at its own moment.

ghost use Rattle.std.specs.Prelude.{◌≡◌, length, map, slice_index, IfErr, IfOk};
ghost use Rattle.std.specs.List.{All};
ghost use Rattle.c_records.specs.Looks.{Counts, HasNothing, Lists, Writes};
ghost use Rattle.c_table.specs.declared.code.Code.TheVariants.{NoMemory};

use crate::caller::Caller;
use crate::value::Record;
use c_table::Code;
use dshash_core::{Entry, PARTITIONS};
use std::alloc::{AllocError, Global};

impl Caller {
    /// The number of the keys of a partition. One turn at it, which reads one number.
    pub fn try_count(&mut self, partition: u32) -> Result<u64, Code>
        ensures { Counts self.old self.new partition result }
    {
        if partition >= PARTITIONS {
            return Err(Code::BadSize);
        }
        let share = &mut self.share;
        let shared = &share.shared;
        match shared
            .table
            .try_count(&shared.region, &mut share.pass, partition)
        {
            Ok(keys) => Ok(keys),
            Err(_) => Err(Code::WouldBlock),
        }
    }

    /// Writes the keys of a partition and the records under them to the fronts of two rows, in no stated order, and
    /// answers how many there are; if a row has no room for them, nothing is written. One turn at the partition, in
    /// which it takes memory for the entries, and a step for each of them.
    pub fn try_list(
        &mut self,
        alloc: Global,
        partition: u32,
        keys: &mut [u64],
        records: &mut [Record],
    ) -> (Code, u64)
        ensures { Lists self.old self.new partition keys.old records.old keys.new records.new result.0 result.1 }
    {
        if partition >= PARTITIONS {
            return (Code::BadSize, 0);
        }
        let share = &mut self.share;
        let shared = &share.shared;
        let Ok(listed) = shared
            .table
            .try_list(alloc, &shared.region, &mut share.pass, partition)
        else {
            return (Code::WouldBlock, 0);
        };
        write_listed(listed, keys, records)
    }
}

/// Writes what a listing found, if it had memory for that.
fn write_listed(
    listed: Result<Vec<Entry<Record>>, AllocError>,
    keys: &mut [u64],
    records: &mut [Record],
) -> (Code, u64)
    requires short { IfOk listed (λ v. All (λ e. length e.key ≡ 1) v.items) }
    ensures some { IfOk listed (λ v. Writes (map (λ e. slice_index e.key 0) v.items) (map (λ e. e.state) v.items) keys.old records.old keys.new records.new result.0 result.1) }
    ensures none { IfErr listed (λ _. (result.0 ≡ NoMemory) × HasNothing keys.old records.old keys.new records.new result.1) }
{
    match listed {
        Ok(entries) => write_entries(entries.as_slice(), keys, records),
        Err(_) => (Code::NoMemory, 0),
    }
}

/// Writes entries to the fronts of two rows, if there is room for them, and counts them.
fn write_entries(entries: &[Entry<Record>], keys: &mut [u64], records: &mut [Record]) -> (Code, u64)
    requires short { All (λ e. length e.key ≡ 1) entries.now }
    ensures { Writes (map (λ e. slice_index e.key 0) entries.now) (map (λ e. e.state) entries.now) keys.old records.old keys.new records.new result.0 result.1 }
{
    let count = entries.len();
    if keys.len() < count || records.len() < count {
        return (Code::ShortBuffer, count as u64);
    }
    write_keys(entries, &mut keys[..count]);
    write_records(entries, &mut records[..count]);
    (Code::Done, count as u64)
}

/// The key of an entry that has a key of one word.
fn key_of(entry: &Entry<Record>) -> u64
    requires short { length entry.now.key ≡ 1 }
    ensures { result ≡ slice_index entry.now.key 0 }
{
    entry.key.words()[0]
}

/// Writes the keys of entries.
fn write_keys(entries: &[Entry<Record>], keys: &mut [u64])
    requires short { All (λ e. length e.key ≡ 1) entries.now }
    requires room { length keys.old ≡ length entries.now }
    ensures { keys.new ≡ map (λ e. slice_index e.key 0) entries.now }
{
    for at in 0..entries.len() {
        keys[at] = key_of(&entries[at]);
    }
}

/// Writes the records of entries.
fn write_records(entries: &[Entry<Record>], records: &mut [Record])
    requires room { length records.old ≡ length entries.now }
    ensures { records.new ≡ map (λ e. e.state) entries.now }
{
    for at in 0..entries.len() {
        records[at] = entries[at].state;
    }
}
