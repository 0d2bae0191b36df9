//! The first round: the participants put the left rows into the shared table. The leader ends it, freezes its partitions,
//! and makes the chains of all left rows.

ghost use Rattle.std.specs.Prelude.{◌≡◌, ◌<◌, ◌≤◌, ℕ, List, All, IfOk, OnOk, [], false, length, map};
ghost use Rattle.dshash_parts.specs.Ending.{Ended as HasEnded, whole_of};
ghost use Rattle.dshash_parts.specs.Tables.{AreAll, map_at};
ghost use Rattle.frozen_table.specs.Parts.{HaveMaps};
ghost use Rattle.scan_claim.specs.Shown.{blocks_of};
ghost use Rattle.row_blocks.specs.Blocks.{AreBlocks};
ghost use Rattle.rel_pointer.specs.Bytes.{AllBytes};
ghost use Rattle.csv_rows.specs.Records.{field_of};
ghost use Rattle.join_pairs.specs.Chains.{last_step};
ghost use Rattle.join_pairs.specs.Gathered.{ChainsAll};
ghost use Rattle.join_pairs.specs.Join.{AllAccepted, IsRow, width_of};
ghost use Rattle.hash_join.specs.Home.{AreFilled, AreFillers, AreNew, IsHome};
ghost use Rattle.hash_join.specs.Probes.{last_in};
ghost use Rattle.hash_join.specs.Stores.{IsNew, IsStore};
ghost use Rattle.hash_join.specs.Used.{IsShared};
ghost use Rattle.hash_join.specs.Widths.{key_words};

use crate::filling::{Filler, fill};
use crate::probe::Probe;
use crate::store::{Passes, Store, open_store};
use crate::widths::count_words;
use csv_rows::RowStore;
use dsa_area::AreaPass;
use dshash_parts::{ClosedTable, DsPass};
use frozen_table::{FrozenTable, take_all};
use join_pairs::{Chains, LastRow, Link, chain_all};
use row_blocks::count_blocks;
use scan_claim::{ClaimSeat, Claims, Drawn};
use std::alloc::{AllocError, Global};
use std::sync::Wait;
use std::sync::atomic::AtomicBool;
use std::thread::{Threads, for_each_mut};

/// What the first round comes to.
#[derive(Drop)]
pub(crate) struct Gathered {
    /// The chains of all left rows.
    pub(crate) chains: Chains,
    /// The partitions of the table, with the last row of each key that it took.
    pub(crate) frozen: FrozenTable<LastRow>,
    /// The words of a key of the table.
    pub(crate) key_words: u32,
    /// Which participant drew which blocks.
    pub(crate) drawn: Drawn,
    /// The table, which is closed, and whose partitions have been taken out.
    pub(crate) table: ClosedTable<LastRow>,
    /// The participants' passes of the area, in order of their numbers.
    pub(crate) areas: Vec<AreaPass>,
}

/// A round that has not begun.
#[derive(Drop)]
struct Round {
    store: Store,
    claims: Claims,
    fillers: Vec<Filler>,
}

/// What the participants brought home, in order of their numbers.
#[derive(Drop)]
pub(crate) struct Home {
    /// Their passes of the area.
    pub(crate) areas: Vec<AreaPass>,
    /// Their passes of the table.
    pub(crate) tables: Vec<DsPass<LastRow>>,
    /// Their seats at the counter of blocks.
    pub(crate) claims: Vec<ClaimSeat>,
    /// The rows that the table took of each, with the row before.
    pub(crate) links: Vec<Vec<Link>>,
    /// The rows of each for which the table found no room.
    pub(crate) spilled: Vec<Vec<u64>>,
}

/// A table that was closed, and its partitions, which were taken out and frozen.
#[derive(Drop)]
struct Frozen {
    table: ClosedTable<LastRow>,
    partitions: FrozenTable<LastRow>,
}

/// The participants, each with its tokens, which have done nothing yet.
fn fillers(alloc: Global, passes: Passes, seats: Vec<ClaimSeat>) -> Result<Vec<Filler>, AllocError>
    requires tables { length passes.tables.items ≡ length passes.areas.items }
    requires seats { length seats.items ≡ length passes.areas.items }
    ensures areas { IfOk result (λ v. map (λ (f : Filler). f.area) v.items ≡ passes.areas.items) }
    ensures tables { IfOk result (λ v. map (λ (f : Filler). f.table) v.items ≡ passes.tables.items) }
    ensures seats { IfOk result (λ v. map (λ (f : Filler). f.claim) v.items ≡ seats.items) }
    ensures new { IfOk result (λ v. All (λ (f : Filler). (f.links.items ≡ []) × (f.spilled.items ≡ [])) v.items) }
{
    let mut fillers = Vec::with_capacity(alloc, seats.len())?;
    let Passes { areas, tables } = passes;
    let mut areas = areas.into_iter();
    let mut tables = tables.into_iter();
    for claim in seats {
        let Some(area) = areas.next() else {
            unreachable!()
        };
        let Some(table) = tables.next() else {
            unreachable!()
        };
        fillers.push_reserved(Filler {
            area,
            table,
            claim,
            links: Vec::new(alloc),
            spilled: Vec::new(alloc),
            lacks_memory: false,
        });
    }
    Ok(fillers)
}

/// A table for this many participants, and each with its tokens.
fn open_round(
    alloc: Global,
    rows: &RowStore,
    column: u32,
    callers: u32,
) -> Result<Round, AllocError>
    requires callers { 1 ≤ callers }
    requires column { column < width_of rows.now }
    requires accepted { AllAccepted rows.now column }
    ensures store { IfOk result (λ r. IsStore r.store) }
    ensures words { IfOk result (λ r. r.store.key_words ≡ key_words rows.now column) }
    ensures blocks { IfOk result (λ r. AreBlocks rows.now (blocks_of r.claims)) }
    ensures all { IfOk result (λ r. AreFillers r.store r.claims r.fillers.items) }
    ensures count { IfOk result (λ r. length r.fillers.items ≡ callers) }
    ensures new { IfOk result (λ r. AreNew r.store r.claims r.fillers.items) }
{
    let (store, passes) = open_store(alloc, count_words(rows, column), callers)?;
    let (claims, seats) = Claims::new(alloc, count_blocks(rows), callers)?;
    let fillers = fillers(alloc, passes, seats)?;
    Ok(Round {
        store,
        claims,
        fillers,
    })
}

/// All participants put in the rows of the blocks that they draw.
fn fill_all<R: Threads + Wait + Sync>(
    rt: &R,
    store: &Store,
    rows: &RowStore,
    column: u32,
    claims: &Claims,
    fillers: &mut Vec<Filler>,
)
    requires store { IsStore store.now }
    requires words { store.now.key_words ≡ key_words rows.now column }
    requires blocks { AreBlocks rows.now (blocks_of claims.now) }
    requires accepted { AllAccepted rows.now column }
    requires column { column < width_of rows.now }
    requires new { AreNew store.now claims.now fillers.old.items }
    ensures filled { AreFilled rows.now column store.now claims.now fillers.old.items fillers.new.items }
{
    let threads = fillers.len().max(1);
    let stop = AtomicBool::new(false);
    for_each_mut(
        rt,
        fillers.as_mut_slice(),
        threads,
        &|_, filler| { fill(rt, store, rows, column, claims, &stop, filler) },
    );
}

/// Takes the participants' tokens and lists apart. None may lack memory.
fn bring_home(alloc: Global, fillers: Vec<Filler>) -> Result<Home, AllocError>
    ensures areas { IfOk result (λ h. h.areas.items ≡ map (λ (f : Filler). f.area) fillers.items) }
    ensures tables { IfOk result (λ h. h.tables.items ≡ map (λ (f : Filler). f.table) fillers.items) }
    ensures claims { IfOk result (λ h. h.claims.items ≡ map (λ (f : Filler). f.claim) fillers.items) }
    ensures links { IfOk result (λ h. h.links.items ≡ map (λ (f : Filler). f.links) fillers.items) }
    ensures spilled { IfOk result (λ h. h.spilled.items ≡ map (λ (f : Filler). f.spilled) fillers.items) }
    ensures whole { OnOk result (All (λ (f : Filler). f.lacks_memory ≡ false) fillers.items) }
{
    let mut home = Home {
        areas: Vec::new(alloc),
        tables: Vec::new(alloc),
        claims: Vec::new(alloc),
        links: Vec::new(alloc),
        spilled: Vec::new(alloc),
    };
    for filler in fillers {
        let Filler {
            area,
            table,
            claim,
            links,
            spilled,
            lacks_memory,
        } = filler;
        if lacks_memory {
            return Err(AllocError);
        }
        home.areas.push(area)?;
        home.tables.push(table)?;
        home.claims.push(claim)?;
        home.links.push(links)?;
        home.spilled.push(spilled)?;
    }
    Ok(home)
}

/// Ends the table, and freezes its partitions.
fn freeze_table(
    alloc: Global,
    store: Store,
    tables: Vec<DsPass<LastRow>>,
) -> Result<Frozen, AllocError>
    requires store { IsStore store }
    requires tables { AreAll store.table tables.items }
    ensures ended { IfOk result (λ f. HasEnded last_step store.table tables.items f.table) }
    ensures maps { IfOk result (λ f. HaveMaps (map_at (whole_of f.table)) f.partitions) }
{
    let mut table = store.table.close(tables);
    let partitions = take_all(alloc, &mut table)?;
    match FrozenTable::freeze(alloc, &store.region, partitions) {
        Ok(partitions) => Ok(Frozen { table, partitions }),
        Err(_) => Err(AllocError),
    }
}

/// What the participants brought home comes to.
fn end_round(
    alloc: Global,
    rows: &RowStore,
    column: u32,
    store: Store,
    claims: Claims,
    home: Home,
) -> Result<Gathered, AllocError>
    requires store { IsStore store }
    requires words { store.key_words ≡ key_words rows.now column }
    requires blocks { AreBlocks rows.now (blocks_of claims) }
    requires column { column < width_of rows.now }
    requires accepted { AllAccepted rows.now column }
    requires bytes { (row : ℕ) → IsRow rows.now row → AllBytes (field_of rows.now row column) }
    requires home { (fillers : List Filler) × IsHome rows.now column store claims fillers home }
    requires some { 0 < length home.areas.items }
    ensures words { IfOk result (λ g. (1 ≤ g.key_words) × (g.key_words ≤ 32)) }
    ensures maps { IfOk result (λ g. HaveMaps (map_at (whole_of g.table)) g.frozen) }
    ensures chains { IfOk result (λ g. ChainsAll rows.now column (last_in (map_at (whole_of g.table)) g.key_words) g.chains) }
    ensures shared { IfOk result (λ g. IsShared rows.now column (length home.areas.items) g.drawn (whole_of g.table) g.areas.items) }
{
    let Home {
        areas,
        tables,
        claims: seats,
        links,
        spilled,
    } = home;
    let drawn = claims.close(seats);
    let key_words = store.key_words;
    let Frozen { table, partitions } = freeze_table(alloc, store, tables)?;
    let probe = Probe::of(partitions.lookup(), key_words);
    let chains = chain_all(alloc, rows, column, &probe, &links, &spilled)?;
    Ok(Gathered {
        chains,
        frozen: partitions,
        key_words,
        drawn,
        table,
        areas,
    })
}

/// The first round, with this many participants.
pub(crate) fn gather_rows<R: Threads + Wait + Sync>(
    rt: &R,
    alloc: Global,
    rows: &RowStore,
    column: u32,
    callers: u32,
) -> Result<Gathered, AllocError>
    requires callers { 1 ≤ callers }
    requires column { column < width_of rows.now }
    requires accepted { AllAccepted rows.now column }
    requires bytes { (row : ℕ) → IsRow rows.now row → AllBytes (field_of rows.now row column) }
    ensures words { IfOk result (λ g. (1 ≤ g.key_words) × (g.key_words ≤ 32)) }
    ensures maps { IfOk result (λ g. HaveMaps (map_at (whole_of g.table)) g.frozen) }
    ensures chains { IfOk result (λ g. ChainsAll rows.now column (last_in (map_at (whole_of g.table)) g.key_words) g.chains) }
    ensures shared { IfOk result (λ g. IsShared rows.now column callers g.drawn (whole_of g.table) g.areas.items) }
{
    let Round {
        store,
        claims,
        mut fillers,
    } = open_round(alloc, rows, column, callers)?;
    fill_all(rt, &store, rows, column, &claims, &mut fillers);
    let home = bring_home(alloc, fillers)?;
    end_round(alloc, rows, column, store, claims, home)
}
