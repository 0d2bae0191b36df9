//! What a participant does with a batch: it draws pieces until there are no more, and puts their rows into its lists.

ghost use Rattle.std.specs.Prelude.{◌≡◌, IfErr, IfOk, IsTrue, OnOk, [], length, map as map_list, min};
ghost use Rattle.scan_claim.specs.Drawing.{is_spent};
ghost use Rattle.scan_claim.specs.Shown.{Belongs, blocks_of, draws_of, number_of};
ghost use Rattle.split_run.specs.Causes.{SomeRefused};
ghost use Rattle.split_run.specs.Hands.{most};
ghost use Rattle.split_run.specs.Pieces.{AreAccepted, HaveColumns, drawn_rows};
ghost use Rattle.part_run.specs.Carrying.{spread};
ghost use Rattle.part_run.specs.Hands.{AreDone, AreNew, HasDone};
ghost use Rattle.part_run.specs.declared.hands.Hand.{Hand};

use crate::piece::spread_piece;
use par_model::BoundPlan;
use partial_agg::BlockAnswer;
use row_lists::PartLists;
use row_windows::Window;
use scan_claim::{ClaimSeat, Claims};
use std::alloc::{AllocError, Global};
use std::sync::Wait;
use std::thread::{Threads, for_each_mut};

/// A participant: its seat at the pieces of the batch, its lists, how many rows it has read, and why it stopped early, if
/// it did.
#[derive(Drop)]
pub(crate) struct Hand {
    pub(crate) claim: ClaimSeat,
    pub(crate) lists: PartLists,
    pub(crate) count: u64,
    pub(crate) stopped: Option<BlockAnswer>,
}

/// The participants, each with its seat and its lists.
pub(crate) fn hands_of(
    alloc: Global,
    seats: Vec<ClaimSeat>,
    mut lists: Vec<PartLists>,
) -> Result<Vec<Hand>, AllocError>
    requires same { length seats.items ≡ length lists.items }
    ensures seats { IfOk result (λ v. map_list (λ (h : Hand). h.claim) v.items ≡ seats.items) }
    ensures lists { IfOk result (λ v. map_list (λ (h : Hand). h.lists) v.items ≡ lists.items) }
{
    let mut hands = Vec::with_capacity(alloc, seats.len())?;
    lists.reverse();
    for claim in seats {
        let Some(lists) = lists.pop() else {
            return Err(AllocError);
        };
        hands.push(Hand {
            claim,
            lists,
            count: 0,
            stopped: None,
        })?;
    }
    Ok(hands)
}

/// All participants put the rows of the pieces that they draw into their lists.
pub(crate) fn work_all<R: Threads + Wait + Sync>(
    rt: &R,
    alloc: Global,
    pieces: &[Window],
    plan: &BoundPlan,
    claims: &Claims,
    hands: &mut Vec<Hand>,
)
    requires pieces { blocks_of claims.now ≡ length pieces.now }
    requires columns { HaveColumns plan.now pieces.now }
    requires new { AreNew claims.now hands.old.items }
    ensures { AreDone plan.now pieces.now claims.now hands.old.items hands.new.items }
{
    let threads = hands.len().max(1);
    for_each_mut(
        rt,
        hands.as_mut_slice(),
        threads,
        &|_, hand| { work(rt, alloc, pieces, plan, claims, hand) },
    );
}

/// What a participant does with a batch, from its beginning to its end.
fn work<R: Wait>(
    rt: &R,
    alloc: Global,
    pieces: &[Window],
    plan: &BoundPlan,
    claims: &Claims,
    hand: &mut Hand,
)
    requires seat { Belongs claims.now hand.old.claim }
    requires new { draws_of hand.old.claim ≡ [] }
    requires pieces { blocks_of claims.now ≡ length pieces.now }
    requires columns { HaveColumns plan.now pieces.now }
    ensures { HasDone plan.now pieces.now claims.now hand.old hand.new }
{
    match spread_drawn(
        rt,
        alloc,
        pieces,
        plan,
        claims,
        &mut hand.claim,
        &mut hand.lists,
    ) {
        Ok(count) => {
            hand.count = count;
            hand.stopped = None;
        }
        Err(why) => hand.stopped = Some(why),
    }
}

/// Draws pieces until there are no more, puts their rows into lists, and gives their number.
fn spread_drawn<R: Wait>(
    rt: &R,
    alloc: Global,
    pieces: &[Window],
    plan: &BoundPlan,
    claims: &Claims,
    claim: &mut ClaimSeat,
    lists: &mut PartLists,
) -> Result<u64, BlockAnswer>
    requires seat { Belongs claims.now claim.old }
    requires new { draws_of claim.old ≡ [] }
    requires pieces { blocks_of claims.now ≡ length pieces.now }
    requires columns { HaveColumns plan.now pieces.now }
    ensures seat { Belongs claims.now claim.new }
    ensures number { number_of claim.new ≡ number_of claim.old }
    ensures spent { OnOk result (IsTrue (is_spent (blocks_of claims.now) (draws_of claim.new))) }
    ensures spread { OnOk result (lists.new ≡ spread plan.now lists.old (drawn_rows pieces.now (draws_of claim.new))) }
    ensures accepted { OnOk result (AreAccepted plan.now pieces.now (drawn_rows pieces.now (draws_of claim.new))) }
    ensures count { IfOk result (λ count. count ≡ min (length (drawn_rows pieces.now (draws_of claim.new))) most) }
    ensures stopped { IfErr result (SomeRefused plan.now pieces.now) }
{
    let mut count = 0u64;
    for _ in rt.forever() {
        let Some(number) = claim.claim(claims) else {
            return Ok(count);
        };
        match spread_piece(alloc, &pieces[number as usize], plan, lists) {
            Ok(more) => count = count.saturating_add(more),
            Err(why) => return Err(why),
        }
    }
    unreachable!()
}
