//! The maps of the parts, and the rows that wait for them.

ghost use Rattle.std.specs.Prelude.{◌≡◌, ◌<◌, ◌≤◌, ◌+◌, ◌^◌, ◌++◌, ◌∷◌, [], ℕ, All, IfErr, IfOk, None, OnOk, false, length, map as map_list, min, replicate};
ghost use Rattle.std.specs.List.{sum_by};
ghost use Rattle.par_model.specs.Plan.{Plan};
ghost use Rattle.row_blocks.specs.Blocks.{Table};
ghost use Rattle.gather_law.specs.Shares.{AreShared};
ghost use Rattle.split_run.specs.Causes.{IsFirstOfAll, IsLow};
ghost use Rattle.split_run.specs.Hands.{most};
ghost use Rattle.split_run.specs.Pieces.{HaveColumns, rows_of};
ghost use Rattle.part_run.specs.Carrying.{no_rows, with_carried};
ghost use Rattle.part_run.specs.Hands.{IsCauseOfAll};
ghost use Rattle.part_run.specs.Waiting.{GroupsAll, HasWaiting, HaveRows, HaveWaiting, LackNone, TakesPieces, groups_in, participants};
ghost use Rattle.part_run.specs.declared.hands.Hand.{Hand};

use crate::hands::{Hand, hands_of, work_all};
use crate::moving::part_maps;
use par_model::BoundPlan;
use partial_agg::{BlockAnswer, GroupMap};
use row_lists::{PartLists, RowList};
use row_windows::Window;
use scan_claim::{ClaimSeat, Claims};
use split_run::first_cause;
use std::alloc::{AllocError, Global};
use std::marker::Model;
use std::sync::Wait;
use std::thread::{Threads, for_each_mut};

/// The map of a part, and whether there was no memory for a row of it.
#[derive(Drop)]
pub(crate) struct PartMap {
    pub(crate) groups: GroupMap,
    pub(crate) lacks: bool,
}

/// The maps of the parts, and the rows of each participant that wait to be grouped.
#[derive(Drop)]
pub struct Parts {
    maps: Vec<PartMap>,
    lists: Vec<PartLists>,
}

impl Model for Parts {
    ghost use Rattle.std.specs.Prelude.{◌≡◌, length};
    ghost use Rattle.part_run.specs.Held.{HeldParts, held_code};

    ghost Value = { HeldParts };

    ghost coded = { held_code };

    ghost use Rattle.part_run.specs.Waiting.{groups_in};

    ghost view = { λ p. record { maps = groups_in p.maps.items; lists = p.lists.items } };

    ghost invariant = { λ p. length p.maps.items ≡ 256 };
}

/// The lists and the seats that came home, in order of the participants, and how many rows were read.
#[derive(Drop)]
struct Home {
    seats: Vec<ClaimSeat>,
    lists: Vec<PartLists>,
    count: u64,
}

impl Parts {
    /// The groups of participants by parts, and no rows that wait. There are as many participants as maps.
    pub fn begin<R: Threads + Sync>(
        rt: &R,
        alloc: Global,
        maps: Vec<GroupMap>,
    ) -> Result<Parts, AllocError>
        requires some { 0 < length maps.items }
        ensures rows { IfOk result (λ parts. (plan : Plan) (width : ℕ) (rows : Table) → AreShared plan width rows maps.items → length rows < 2 ^ 64 → HaveRows plan width rows parts) }
        ensures many { IfOk result (λ parts. participants parts ≡ length maps.items) }
    {
        let many = maps.len();
        let lists = empty_lists(alloc, many)?;
        let groups = part_maps(rt, alloc, maps.as_slice(), many)?;
        let maps = with_memory(alloc, groups)?;
        Ok(Parts { maps, lists })
    }

    /// How many groups there are.
    pub fn groups(&self) -> u64 {
        let mut count = 0u64;
        for map in self.maps.as_slice() {
            count = count.saturating_add(map.groups.len() as u64);
        }
        count
    }

    /// How many bytes the rows have that wait.
    pub fn waiting(&self) -> usize {
        let mut bytes = 0usize;
        for lists in self.lists.as_slice() {
            bytes = bytes.saturating_add(lists.bytes());
        }
        bytes
    }

    /// Puts the rows of the pieces, each of which begins with the table's header, into the lists of the participants, and
    /// gives their number. If a row is refused the parts are lost, and the pieces are read once more, up to the first row that
    /// is refused.
    pub fn add_pieces<R: Threads + Wait + Sync>(
        self,
        rt: &R,
        alloc: Global,
        pieces: &[Window],
        plan: &BoundPlan,
    ) -> Result<(Parts, u64), BlockAnswer>
        requires some { 0 < participants self }
        requires few { participants self < 2 ^ 32 }
        requires pieces { length pieces.now ≤ 2 ^ 32 }
        requires columns { HaveColumns plan.now pieces.now }
        ensures rows { IfOk result (λ r. TakesPieces plan.now pieces.now self r.0) }
        ensures many { IfOk result (λ r. participants r.0 ≡ participants self) }
        ensures count { IfOk result (λ r. r.1 ≡ min (length (rows_of pieces.now)) most) }

        // A row that it names is the first refused one of the batch, for any number of participants.
        ensures cause { IfErr result (IsFirstOfAll plan.now pieces.now) }
        ensures low { IfErr result IsLow }
    {
        let Parts { maps, lists } = self;
        let Ok((claims, seats)) = Claims::new(alloc, pieces.len() as u64, lists.len() as u32) else {
            return Err(BlockAnswer::Memory);
        };
        let Ok(mut hands) = hands_of(alloc, seats, lists) else {
            return Err(BlockAnswer::Memory);
        };
        work_all(rt, alloc, pieces, plan, &claims, &mut hands);
        let home = match bring_home(alloc, hands) {
            Ok(home) => home,
            Err(why) => return Err(first_cause(alloc, pieces, plan, why)),
        };
        let _drawn = claims.close(home.seats);
        Ok((
            Parts {
                maps,
                lists: home.lists,
            },
            home.count,
        ))
    }

    /// Adds all rows that wait to the maps of their parts. Then none waits.
    pub fn group<R: Threads + Sync>(&mut self, rt: &R) -> Result<(), AllocError>
        ensures all { OnOk result (GroupsAll self.old self.new.maps) }
        ensures none { OnOk result (self.new.lists ≡ replicate (participants self.old) no_rows) }
        ensures rows { OnOk result ((plan : Plan) (width : ℕ) (rows : Table) → HaveRows plan width rows self.old → length rows < 2 ^ 64 → HaveRows plan width rows self.new) }
    {
        group_all(rt, self.lists.as_slice(), self.maps.as_mut_slice());
        if any_lacks(self.maps.as_slice()) {
            return Err(AllocError);
        }
        clear_all(self.lists.as_mut_slice());
        Ok(())
    }

    /// The maps of the parts, after all rows that wait were added to them.
    pub fn finish<R: Threads + Sync>(
        mut self,
        rt: &R,
        alloc: Global,
    ) -> Result<Vec<GroupMap>, AllocError>
        ensures { IfOk result (λ maps. GroupsAll self maps.items) }
    {
        self.group(rt)?;
        let Parts { maps, .. } = self;
        bare_maps(alloc, maps)
    }
}

/// The lists of this many participants, with no rows.
fn empty_lists(alloc: Global, many: usize) -> Result<Vec<PartLists>, AllocError>
    ensures { IfOk result (λ lists. lists.items ≡ replicate many no_rows) }
{
    let mut lists = Vec::with_capacity(alloc, many)?;
    for _at in 0..many {
        lists.push(PartLists::new(alloc)?)?;
    }
    Ok(lists)
}

/// Maps of which none lacks a row.
fn with_memory(alloc: Global, maps: Vec<GroupMap>) -> Result<Vec<PartMap>, AllocError>
    ensures { IfOk result (λ parts. groups_in parts.items ≡ maps.items) }
{
    let mut parts = Vec::with_capacity(alloc, maps.len())?;
    for groups in maps {
        parts.push(PartMap {
            groups,
            lacks: false,
        })?;
    }
    Ok(parts)
}

/// The groups of each map.
fn bare_maps(alloc: Global, maps: Vec<PartMap>) -> Result<Vec<GroupMap>, AllocError>
    ensures { IfOk result (λ bare. bare.items ≡ groups_in maps.items) }
{
    let mut bare = Vec::with_capacity(alloc, maps.len())?;
    for map in maps {
        let PartMap { groups, lacks: _ } = map;
        bare.push(groups)?;
    }
    Ok(bare)
}

/// Adds the rows of each part that wait to the part's map, by as many threads as there are participants.
fn group_all<R: Threads + Sync>(rt: &R, lists: &[PartLists], maps: &mut [PartMap])
    requires { length maps.old ≡ 256 }
    ensures { HaveWaiting lists.now maps.old maps.new }
{
    let threads = lists.len().max(1);
    for_each_mut(
        rt,
        maps,
        threads,
        &|part, map| { add_waiting(lists, part, map) },
    );
}

/// Whether a map lacks a row.
fn any_lacks(maps: &[PartMap]) -> bool
    ensures { result ≡ false → LackNone maps.now }
{
    for map in maps {
        if map.lacks {
            return true;
        }
    }
    false
}

/// Empties the lists of all participants.
fn clear_all(lists: &mut [PartLists])
    ensures { lists.new ≡ replicate (length lists.old) no_rows }
{
    for one in lists.iter_mut() {
        one.clear();
    }
}

/// Adds the rows of a part that wait to the part's map.
fn add_waiting(lists: &[PartLists], part: usize, map: &mut PartMap)
    requires { part < 256 }
    ensures { HasWaiting lists.now part map.old map.new }
{
    for of_one in lists {
        match add_list(&mut map.groups, of_one.list(part)) {
            Ok(()) => {}
            Err(AllocError) => {
                map.lacks = true;
                return;
            }
        }
    }
}

/// Adds the rows of a list to a map.
fn add_list(groups: &mut GroupMap, list: &RowList) -> Result<(), AllocError>
    ensures { OnOk result (groups.new ≡ with_carried groups.old list.now) }
{
    let mut rows = list.cursor();
    let mut values = [None; 8];
    'rows: while let Some((key, count)) = rows.next(&mut values) {
        groups.add_values(key, &values[..count])?;
    }
    Ok(())
}

/// Takes the participants' seats and lists apart, unless one of them stopped early.
fn bring_home(alloc: Global, hands: Vec<Hand>) -> Result<Home, BlockAnswer>
    ensures seats { IfOk result (λ home. home.seats.items ≡ map_list (λ (h : Hand). h.claim) hands.items) }
    ensures lists { IfOk result (λ home. home.lists.items ≡ map_list (λ (h : Hand). h.lists) hands.items) }
    ensures count { IfOk result (λ home. home.count ≡ min (sum_by (λ (h : Hand). h.count) hands.items) most) }
    ensures whole { OnOk result (All (λ (h : Hand). h.stopped ≡ None) hands.items) }
    ensures cause { IfErr result (IsCauseOfAll hands.items) }
{
    let mut home = Home {
        seats: Vec::new(alloc),
        lists: Vec::new(alloc),
        count: 0,
    };
    for hand in hands {
        let Hand {
            claim,
            lists,
            count,
            stopped,
        } = hand;
        match stopped {
            None => {}
            Some(why) => return Err(why),
        }
        match keep(&mut home, claim, lists, count) {
            Ok(()) => {}
            Err(AllocError) => return Err(BlockAnswer::Memory),
        }
    }
    Ok(home)
}

/// Adds a seat, lists and a number of rows to what came home.
fn keep(home: &mut Home, claim: ClaimSeat, lists: PartLists, count: u64) -> Result<(), AllocError>
    ensures seats { OnOk result (home.new.seats.items ≡ home.old.seats.items ++ claim ∷ []) }
    ensures lists { OnOk result (home.new.lists.items ≡ home.old.lists.items ++ lists ∷ []) }
    ensures count { OnOk result (home.new.count ≡ min (home.old.count + count) most) }
{
    home.seats.push(claim)?;
    home.lists.push(lists)?;
    home.count = home.count.saturating_add(count);
    Ok(())
}
