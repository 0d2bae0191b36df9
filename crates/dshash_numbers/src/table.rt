//! The table: how it is made, its calls, and the total of its entries.

ghost use Rattle.std.specs.Prelude.{◌≡◌, ◌≤◌, IfErr, IfOk, length, replicate};
ghost use Rattle.std.specs.List.{sum_by};
ghost use Rattle.dsa_area.specs.Shown.{Belongs as AreaBelongs, IsArea, number_of as area_number};
ghost use Rattle.dshash_core.specs.Key.{packed_key};
ghost use Rattle.dshash_parts.specs.Opening.{Asks, IsNoTable};
ghost use Rattle.dshash_parts.specs.Traces.{Got};
ghost use Rattle.dshash_numbers.specs.Maps.{ComesFrom, IsMade, IsNew, IsNumberTable, IsRefused, IsTotal};
ghost use Rattle.dshash_numbers.specs.declared.number.NumberCall.TheVariants as verb;
ghost use Rattle.dshash_numbers.specs.declared.table.TheConstants.{MOST_KEY_BYTES};

use crate::number::{Number, NumberCall};
use dsa_area::{Area, AreaPass, NoSpace};
use dshash_core::{Entry, MOST_PACKED_BYTES, PACKED_WORDS, pack_key};
use dshash_parts::{DsNew, DsPass, Dshash};
use dshash_scan::list_all;
use region_words::Region;
use std::alloc::{AllocError, Global};
use std::sync::Wait;

/// The longest key, which is the longest that `pack_key` packs.
pub const MOST_KEY_BYTES: usize = MOST_PACKED_BYTES;

/// The words of a packed key.
const KEY_WORDS: u32 = PACKED_WORDS as u32;

/// A table of numbers, with the pass of its one caller. Items and slices come from an area, whose pass the caller hands
/// in with each call.
#[derive(Drop)]
pub struct NumberTable {
    table: Dshash<Number>,
    pass: DsPass<Number>,
}

/// How many entries a table has, and the sum of their numbers.
#[derive(Clone, Copy, Debug, PartialEq, Eq)]
pub struct Total {
    pub count: u64,
    pub sum: u128,
}

impl NumberTable {
    /// An empty table. It takes 128 slices of 8 bytes from the area, and memory for the partitions and their locks. If
    /// the area has no room, the slices that it gave go back.
    pub fn new<R: Wait>(
        rt: &R,
        alloc: Global,
        r: &Region,
        area: &Area,
        apass: &mut AreaPass,
    ) -> Result<NumberTable, DsNew>
        requires area { IsArea r.now area.now }
        requires area_own { AreaBelongs area.now apass.old }
        ensures area_own { AreaBelongs area.now apass.new }
        ensures area_caller { area_number apass.new ≡ area_number apass.old }
        ensures table { IfOk result (IsNumberTable r.now) }
        ensures home { IfOk result (ComesFrom area.now) }
        ensures empty { IfOk result IsNew }
        ensures asked { IfOk result (λ _. Asks area.now apass.old apass.new (replicate 128 (Got 8))) }
        ensures refused { IfErr result (λ e. IsNoTable area.now apass.old apass.new e) }
    {
        let (table, mut passes) = Dshash::new(rt, alloc, r, area, apass, KEY_WORDS, 1)?;
        let Some(pass) = passes.pop() else {
            unreachable!()
        };
        Ok(NumberTable { table, pass })
    }

    /// Puts a number under a key of at most [`MOST_KEY_BYTES`] bytes. Returns the number that was there, if any. It
    /// takes an item from the area if the key is new, and if a partition is full, slices for all of them.
    pub fn put<R: Wait>(
        &mut self,
        rt: &R,
        r: &Region,
        area: &Area,
        apass: &mut AreaPass,
        key: &[u8],
        number: u64,
    ) -> Result<Option<u64>, NoSpace>
        requires table { IsNumberTable r.now self.old }
        requires area { IsArea r.now area.now }
        requires home { ComesFrom area.now self.old }
        requires area_own { AreaBelongs area.now apass.old }
        requires short { length key.now ≤ MOST_KEY_BYTES }
        ensures table { IsNumberTable r.now self.new }
        ensures home { ComesFrom area.now self.new }
        ensures area_own { AreaBelongs area.now apass.new }
        ensures area_caller { area_number apass.new ≡ area_number apass.old }
        ensures made { IfOk result (IsMade area.now self.old self.new apass.old apass.new (packed_key key.now) (verb.Put number)) }
        ensures refused { IfErr result (λ lack. IsRefused area.now self.old self.new apass.old apass.new (packed_key key.now) (verb.Put number) lack.pages lack.largest) }
    {
        self.call(rt, r, area, apass, key, NumberCall::Put(number))
    }

    /// The number under a key, if any. It is one turn, which reads: it asks nothing of any area, so it is never
    /// refused.
    pub fn get<R: Wait>(&mut self, rt: &R, r: &Region, key: &[u8]) -> Option<u64>
        requires table { IsNumberTable r.now self.old }
        requires short { length key.now ≤ MOST_KEY_BYTES }
        ensures table { IsNumberTable r.now self.new }
        ensures home { (area : _) → ComesFrom area self.old → ComesFrom area self.new }
        ensures made { (area : _) (apass : _) → IsMade area self.old self.new apass apass (packed_key key.now) verb.Get result }
    {
        let Some(key) = pack_key(key) else {
            unreachable!()
        };
        self.table
            .find(rt, r, &mut self.pass, &key, &NumberCall::Get)
    }

    /// Takes a key out. Returns the number that was there, if any. Its item goes back to the area; it asks for none, so
    /// it is never refused.
    pub fn take<R: Wait>(
        &mut self,
        rt: &R,
        r: &Region,
        area: &Area,
        apass: &mut AreaPass,
        key: &[u8],
    ) -> Option<u64>
        requires table { IsNumberTable r.now self.old }
        requires area { IsArea r.now area.now }
        requires home { ComesFrom area.now self.old }
        requires area_own { AreaBelongs area.now apass.old }
        requires short { length key.now ≤ MOST_KEY_BYTES }
        ensures table { IsNumberTable r.now self.new }
        ensures home { ComesFrom area.now self.new }
        ensures area_own { AreaBelongs area.now apass.new }
        ensures area_caller { area_number apass.new ≡ area_number apass.old }
        ensures made { IsMade area.now self.old self.new apass.old apass.new (packed_key key.now) verb.Delete result }
    {
        match self.call(rt, r, area, apass, key, NumberCall::Delete) {
            Ok(before) => before,
            Err(_) => unreachable!(),
        }
    }

    /// One call of the table.
    fn call<R: Wait>(
        &mut self,
        rt: &R,
        r: &Region,
        area: &Area,
        apass: &mut AreaPass,
        key: &[u8],
        call: NumberCall,
    ) -> Result<Option<u64>, NoSpace>
        requires table { IsNumberTable r.now self.old }
        requires area { IsArea r.now area.now }
        requires home { ComesFrom area.now self.old }
        requires area_own { AreaBelongs area.now apass.old }
        requires short { length key.now ≤ MOST_KEY_BYTES }
        ensures table { IsNumberTable r.now self.new }
        ensures home { ComesFrom area.now self.new }
        ensures area_own { AreaBelongs area.now apass.new }
        ensures area_caller { area_number apass.new ≡ area_number apass.old }
        ensures made { IfOk result (IsMade area.now self.old self.new apass.old apass.new (packed_key key.now) call) }
        ensures refused { IfErr result (λ lack. IsRefused area.now self.old self.new apass.old apass.new (packed_key key.now) call lack.pages lack.largest) }
    {
        let Some(key) = pack_key(key) else {
            unreachable!()
        };
        self.table
            .call(rt, r, area, &mut self.pass, apass, &key, &call)
    }

    /// How many entries the table has, and the sum of their numbers. It lists one partition after another, and takes
    /// memory for the entries and their keys.
    pub fn total<R: Wait>(&mut self, rt: &R, alloc: Global, r: &Region) -> Result<Total, AllocError>
        requires table { IsNumberTable r.now self.old }
        ensures table { IsNumberTable r.now self.new }
        ensures home { (area : _) → ComesFrom area self.old → ComesFrom area self.new }
        ensures total { IfOk result (λ total. IsTotal self.old self.new total.count total.sum) }
    {
        let entries = list_all(rt, alloc, &self.table, r, &mut self.pass)?;
        Ok(Total {
            count: entries.len() as u64,
            sum: sum_of(entries.as_slice()),
        })
    }
}

/// The sum of the numbers of entries.
fn sum_of(entries: &[Entry<Number>]) -> u128
    ensures { result ≡ sum_by (λ e. e.state) entries.now }
{
    let mut sum: u128 = 0;
    for entry in entries {
        sum += u128::from(entry.state);
    }
    sum
}
