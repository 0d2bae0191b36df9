//! A batch: its pieces are shared out to all participants, and each has come home before the next batch.

ghost use Rattle.std.specs.Prelude.{◌≡◌, ◌<◌, ◌≤◌, ◌+◌, ◌^◌, ◌++◌, ◌∷◌, [], All, IfErr, IfOk, None, OnOk, length, map as map_list, min, replicate};
ghost use Rattle.std.specs.FinMap as map;
ghost use Rattle.std.specs.List.{sum_by};
ghost use Rattle.scan_claim.specs.Shown.{blocks_of};
ghost use Rattle.split_run.specs.Causes.{IsCauseOfAll, IsFirstOfAll, IsLow};
ghost use Rattle.split_run.specs.Hands.{AreDone, AreNew, most};
ghost use Rattle.split_run.specs.Pieces.{HaveColumns, SharesPieces, rows_of};
ghost use Rattle.split_run.specs.declared.hands.Hand.{Hand};

use crate::hands::{Hand, work};
use crate::refused::first_cause;
use par_model::BoundPlan;
use partial_agg::{BlockAnswer, GroupMap};
use row_windows::Window;
use scan_claim::{ClaimSeat, Claims};
use std::alloc::{AllocError, Global};
use std::sync::Wait;
use std::thread::{Threads, for_each_mut};

/// The seats and the maps that came home, each in order of the participants, and how many rows were added.
#[derive(Drop)]
struct Home {
    seats: Vec<ClaimSeat>,
    maps: Vec<GroupMap>,
    count: u64,
}

/// The maps of the given number of participants, before any row. Takes memory only for the list.
pub fn begin(alloc: Global, participants: u32) -> Result<Vec<GroupMap>, AllocError>
    ensures { IfOk result (λ maps. maps.items ≡ replicate participants map.empty) }
{
    let mut maps = Vec::with_capacity(alloc, participants as usize)?;
    for _at in 0..participants {
        maps.push(GroupMap::new(alloc))?;
    }
    Ok(maps)
}

/// Adds the rows of the pieces, each of which begins with the table's header, to the maps of the participants: one for
/// each map, the caller's thread among them, each in a separate thread if one can be made. Gives the maps, and how many
/// rows there are. With one map all is done in the caller's thread. If a row is refused the maps are lost, and the pieces
/// are read once more, up to the first row that is refused.
pub fn add_pieces<R: Threads + Wait + Sync>(
    rt: &R,
    alloc: Global,
    pieces: &[Window],
    plan: &BoundPlan,
    maps: Vec<GroupMap>,
) -> Result<(Vec<GroupMap>, u64), BlockAnswer>
    requires some { 0 < length maps.items }
    requires few { length maps.items < 2 ^ 32 }
    requires pieces { length pieces.now ≤ 2 ^ 32 }
    requires columns { HaveColumns plan.now pieces.now }
    ensures shared { IfOk result (λ r. SharesPieces plan.now pieces.now maps.items r.0.items) }
    ensures many { IfOk result (λ r. length r.0.items ≡ length maps.items) }
    ensures count { IfOk result (λ r. r.1 ≡ min (length (rows_of pieces.now)) most) }

    // A row that it names is the first refused one of the batch, for any number of participants.
    ensures cause { IfErr result (IsFirstOfAll plan.now pieces.now) }
    ensures low { IfErr result IsLow }
{
    let many = pieces.len();
    let Ok((claims, seats)) = Claims::new(alloc, many as u64, maps.len() as u32) else {
        return Err(BlockAnswer::Memory);
    };
    let Ok(mut hands) = hands(alloc, seats, maps) else {
        return Err(BlockAnswer::Memory);
    };
    work_all(rt, alloc, pieces, plan, &claims, &mut hands);
    let home = match bring_home(alloc, hands) {
        Ok(home) => home,
        Err(why) => return Err(first_cause(alloc, pieces, plan, why)),
    };
    let _drawn = claims.close(home.seats);
    Ok((home.maps, home.count))
}

/// The participants, each with its seat and its map.
fn hands(
    alloc: Global,
    seats: Vec<ClaimSeat>,
    mut maps: Vec<GroupMap>,
) -> Result<Vec<Hand>, AllocError>
    requires same { length seats.items ≡ length maps.items }
    ensures seats { IfOk result (λ v. map_list (λ (h : Hand). h.claim) v.items ≡ seats.items) }
    ensures maps { IfOk result (λ v. map_list (λ (h : Hand). h.groups) v.items ≡ maps.items) }
{
    let mut hands = Vec::with_capacity(alloc, seats.len())?;
    maps.reverse();
    for claim in seats {
        let Some(groups) = maps.pop() else {
            return Err(AllocError);
        };
        hands.push(Hand {
            claim,
            groups,
            count: 0,
            stopped: None,
        })?;
    }
    Ok(hands)
}

/// All participants add the rows of the pieces that they draw.
fn work_all<R: Threads + Wait + Sync>(
    rt: &R,
    alloc: Global,
    pieces: &[Window],
    plan: &BoundPlan,
    claims: &Claims,
    hands: &mut Vec<Hand>,
)
    requires pieces { blocks_of claims.now ≡ length pieces.now }
    requires columns { HaveColumns plan.now pieces.now }
    requires new { AreNew claims.now hands.old.items }
    ensures { AreDone plan.now pieces.now claims.now hands.old.items hands.new.items }
{
    let threads = hands.len().max(1);
    for_each_mut(
        rt,
        hands.as_mut_slice(),
        threads,
        &|_, hand| { work(rt, alloc, pieces, plan, claims, hand) },
    );
}

/// Takes the participants' seats and maps apart, unless one of them stopped early.
fn bring_home(alloc: Global, hands: Vec<Hand>) -> Result<Home, BlockAnswer>
    ensures seats { IfOk result (λ home. home.seats.items ≡ map_list (λ (h : Hand). h.claim) hands.items) }
    ensures maps { IfOk result (λ home. home.maps.items ≡ map_list (λ (h : Hand). h.groups) hands.items) }
    ensures count { IfOk result (λ home. home.count ≡ min (sum_by (λ (h : Hand). h.count) hands.items) most) }
    ensures whole { OnOk result (All (λ (h : Hand). h.stopped ≡ None) hands.items) }
    ensures cause { IfErr result (IsCauseOfAll hands.items) }
{
    let mut home = Home {
        seats: Vec::new(alloc),
        maps: Vec::new(alloc),
        count: 0,
    };
    for hand in hands {
        let Hand {
            claim,
            groups,
            count,
            stopped,
        } = hand;
        match stopped {
            None => {}
            Some(why) => return Err(why),
        }
        match keep(&mut home, claim, groups, count) {
            Ok(()) => {}
            Err(AllocError) => return Err(BlockAnswer::Memory),
        }
    }
    Ok(home)
}

/// Adds a seat, a map and a number of rows to what came home.
fn keep(home: &mut Home, claim: ClaimSeat, groups: GroupMap, count: u64) -> Result<(), AllocError>
    ensures seats { OnOk result (home.new.seats.items ≡ home.old.seats.items ++ claim ∷ []) }
    ensures maps { OnOk result (home.new.maps.items ≡ home.old.maps.items ++ groups ∷ []) }
    ensures count { OnOk result (home.new.count ≡ min (home.old.count + count) most) }
{
    home.seats.push(claim)?;
    home.maps.push(groups)?;
    home.count = home.count.saturating_add(count);
    Ok(())
}
