//! A scan of a partition that may change or take out each entry that it visits.
//!
//! The partition is listed first, in one turn. Each visit is then a call of the object's of one of the keys, a turn of its
//! own: it finds what lies under the key at that moment, and finds nothing if the key is gone. So an entry that is there
//! from the listing on is visited once, one that comes later is not, and in the history a visit is a call of its key as
//! any other.

ghost use Rattle.std.specs.Prelude.{◌≡◌, ℕ, ◌<◌, List, [], length, None, IfErr, IfNone, IfOk, IfSome, OnSome};
ghost use Rattle.lock_book.specs.Shown.{number_of, seen_of};
ghost use Rattle.dsa_area.specs.Shown.{Belongs as AreaBelongs, IsArea, number_of as area_number};
ghost use Rattle.dshash_core.specs.Key.{hash_of};
ghost use Rattle.dshash_core.specs.Cells.{partition_of};
ghost use Rattle.dshash_core.specs.Outcome.{ListsAll};
ghost use Rattle.dshash_parts.specs.Asked.{listed_of};
ghost use Rattle.dshash_parts.specs.Lookups.{IsVisited, MakesNoCell};
ghost use Rattle.dshash_parts.specs.Replays.{IsOneCell};
ghost use Rattle.dshash_parts.specs.Tables.{AreKeysOf, IsHome, IsTable, Turned, map_at, Belongs};
ghost use Rattle.dshash_parts.specs.declared.histories.PartitionCalls.TheVariants.{Lists};
ghost use Rattle.dshash_parts.specs.declared.histories.PartitionReplies.TheVariants.{Listed};
ghost use Rattle.dshash_scan.specs.Visits.{IsVisit, VisitsEach};

use dsa_area::{Area, AreaPass};
use dshash_core::{CellObject, Entry, KeyWords};
use dshash_parts::{DsPass, Dshash};
use region_words::Region;
use std::alloc::{AllocError, Global};
use std::marker::Model;
use std::sync::Wait;

/// A visit: the key that was called, what the call replied, and whether it took the key out.
#[derive(Drop)]
pub struct Visited<O: CellObject> {
    pub key: KeyWords,
    pub reply: O::Reply,
    pub removed: bool,
}

/// A scan of one partition: the entries that it has still to visit.
#[derive(Drop)]
pub struct Scan<O: CellObject> {
    partition: u32,
    entries: Vec<Entry<O>>,
}

impl<O: CellObject> Model for Scan<O> {
    ghost use Rattle.dshash_core.specs.Listing.{pairs_of};
    ghost use Rattle.dshash_scan.specs.Visits.{ScanView, scan_code};

    ghost Value = { ScanView O.State };

    ghost coded = { scan_code O.State.code };

    ghost view = { λ s. record { partition = s.partition; left = pairs_of s.entries.items } };
}

/// Begins a scan: lists the partition, and takes memory for its entries. It waits for the partition's lock.
pub fn scan_one<R: Wait, O: CellObject + Send>(
    rt: &R,
    alloc: Global,
    table: &Dshash<O>,
    r: &Region,
    pass: &mut DsPass<O>,
    partition: u32,
) -> Result<Scan<O>, AllocError>
where
    O::State: Send,
    O::Call: Send,
    O::Reply: Send,
    requires table { IsTable r.now table.now }
    requires own { Belongs table.now pass.old }
    requires number { partition < 128 }
    ensures own { Belongs table.now pass.new }
    ensures caller { number_of pass.new ≡ number_of pass.old }
    ensures event { Turned O.stepped pass.old pass.new partition Lists (listed_of (λ s. s.left) result) }
    ensures partition { IfOk result (λ s. s.partition ≡ partition) }
    ensures all { IfOk result (λ s. ListsAll (map_at (seen_of pass.new) partition) s.left) }
    ensures keys { IfOk result (λ s. AreKeysOf table.now partition s.left) }
{
    match table.list_one(rt, alloc, r, pass, partition) {
        Ok(entries) => Ok(Scan { partition, entries }),
        Err(lack) => Err(lack),
    }
}

impl<O: CellObject + Send> Scan<O>
where
    O::State: Send,
    O::Call: Send,
    O::Reply: Send,
{
    /// How many entries are still to be visited.
    pub fn left(&self) -> u64
        ensures { result ≡ length self.now.left }
    {
        self.entries.len() as u64
    }

    /// Visits the next entry, by a call that makes no cell. None if all entries were visited. If the call takes the key
    /// out, its item goes to the area. If another caller took the key out after the listing, the call finds no state.
    ///
    /// It may wait for the partition's lock, and for those of the area, with none of the table's in hand. It costs one
    /// hash, one walk along a chain and one turn, and takes no memory.
    pub fn visit_next<R: Wait>(
        &mut self,
        rt: &R,
        table: &Dshash<O>,
        r: &Region,
        area: &Area,
        pass: &mut DsPass<O>,
        apass: &mut AreaPass,
        call: &O::Call,
    ) -> Option<Visited<O>>
        requires table { IsTable r.now table.now }
        requires own { Belongs table.now pass.old }
        requires area { IsArea r.now area.now }
        requires home { IsHome area.now table.now }
        requires area_own { AreaBelongs area.now apass.old }
        requires keys { AreKeysOf table.now self.old.partition self.old.left }
        requires may { (key : List ℕ) → partition_of (hash_of key) ≡ self.old.partition → O.may (number_of pass.old) key call.now }
        requires none { MakesNoCell O.stepped call.now }
        ensures own { Belongs table.now pass.new }
        ensures caller { number_of pass.new ≡ number_of pass.old }
        ensures area_own { AreaBelongs area.now apass.new }
        ensures area_caller { area_number apass.new ≡ area_number apass.old }
        ensures keys { AreKeysOf table.now self.new.partition self.new.left }
        ensures partition { self.new.partition ≡ self.old.partition }
        ensures done { IfNone result ((self.old.left ≡ []) × (self.new ≡ self.old) × (pass.new ≡ pass.old) × (apass.new ≡ apass.old)) }
        ensures visited { IfSome result (λ v. IsVisit O.stepped table.now area.now pass.old apass.old pass.new apass.new self.old self.new call.now v.key v.reply v.removed) }
        ensures found { IfSome result (λ v. IsVisited O.stepped (seen_of pass.new) v.key call.now v.reply v.removed) }
        ensures cells { OnSome result ((k : List ℕ) → IsOneCell O.stepped (seen_of pass.new) k) }
    {
        let Some(entry) = self.entries.pop() else {
            return None;
        };
        let Entry { key, state: _ } = entry;
        let (reply, item) = table.visit(rt, r, pass, key.words(), call);
        let removed = item.is_some();
        table.give_spare(rt, r, area, apass, item);
        Some(Visited {
            key,
            reply,
            removed,
        })
    }
}

/// Visits each entry of a partition, by a call that makes no cell. How many there were. It waits for the partition's lock
/// for the listing and for each visit, takes memory for the entries, and stops before the first visit if there is none.
pub fn visit_one<R: Wait, O: CellObject + Send>(
    rt: &R,
    alloc: Global,
    table: &Dshash<O>,
    r: &Region,
    area: &Area,
    pass: &mut DsPass<O>,
    apass: &mut AreaPass,
    partition: u32,
    call: &O::Call,
) -> Result<u64, AllocError>
where
    O::State: Send,
    O::Call: Send,
    O::Reply: Send,
    requires table { IsTable r.now table.now }
    requires own { Belongs table.now pass.old }
    requires area { IsArea r.now area.now }
    requires home { IsHome area.now table.now }
    requires area_own { AreaBelongs area.now apass.old }
    requires number { partition < 128 }
    requires may { (key : List ℕ) → partition_of (hash_of key) ≡ partition → O.may (number_of pass.old) key call.now }
    requires none { MakesNoCell O.stepped call.now }
    ensures own { Belongs table.now pass.new }
    ensures caller { number_of pass.new ≡ number_of pass.old }
    ensures area_own { AreaBelongs area.now apass.new }
    ensures area_caller { area_number apass.new ≡ area_number apass.old }
    ensures each { IfOk result (VisitsEach O.stepped table.now area.now pass.old apass.old pass.new apass.new partition call.now) }
    ensures refused { IfErr result (λ _. Turned O.stepped pass.old pass.new partition Lists (Listed None) × (apass.new ≡ apass.old)) }
{
    let mut scan = match scan_one(rt, alloc, table, r, pass, partition) {
        Ok(scan) => scan,
        Err(lack) => return Err(lack),
    };
    let count = scan.left();
    'visits: loop {
        match scan.visit_next(rt, table, r, area, pass, apass, call) {
            Some(_seen) => {}
            None => return Ok(count),
        }
    }
}
