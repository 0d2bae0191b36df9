//! What a participant does with a batch: it draws pieces until there are no more, and adds their rows to its map.

ghost use Rattle.std.specs.Prelude.{◌≡◌, IfErr, IfOk, IsTrue, OnOk, [], length, min};
ghost use Rattle.scan_claim.specs.Drawing.{is_spent};
ghost use Rattle.scan_claim.specs.Shown.{Belongs, blocks_of, draws_of, number_of};
ghost use Rattle.partial_agg.specs.Groups.{with_rows};
ghost use Rattle.split_run.specs.Causes.{SomeRefused};
ghost use Rattle.split_run.specs.Hands.{HasDone, most};
ghost use Rattle.split_run.specs.Pieces.{AreAccepted, HaveColumns, drawn_rows};

use crate::piece::add_piece;
use par_model::BoundPlan;
use partial_agg::{BlockAnswer, GroupMap};
use row_windows::Window;
use scan_claim::{ClaimSeat, Claims};
use std::alloc::Global;
use std::sync::Wait;

/// A participant: its seat at the pieces of the batch, its map, how many rows it has added, and why it stopped early, if
/// it did.
#[derive(Drop)]
pub(crate) struct Hand {
    pub(crate) claim: ClaimSeat,
    pub(crate) groups: GroupMap,
    pub(crate) count: u64,
    pub(crate) stopped: Option<BlockAnswer>,
}

/// Draws pieces until there are no more, adds their rows, and gives their number.
fn add_drawn<R: Wait>(
    rt: &R,
    alloc: Global,
    pieces: &[Window],
    plan: &BoundPlan,
    claims: &Claims,
    claim: &mut ClaimSeat,
    groups: &mut GroupMap,
) -> Result<u64, BlockAnswer>
    requires seat { Belongs claims.now claim.old }
    requires new { draws_of claim.old ≡ [] }
    requires pieces { blocks_of claims.now ≡ length pieces.now }
    requires columns { HaveColumns plan.now pieces.now }
    ensures seat { Belongs claims.now claim.new }
    ensures number { number_of claim.new ≡ number_of claim.old }
    ensures spent { OnOk result (IsTrue (is_spent (blocks_of claims.now) (draws_of claim.new))) }
    ensures added { OnOk result (groups.new ≡ with_rows plan.now groups.old (drawn_rows pieces.now (draws_of claim.new))) }
    ensures accepted { OnOk result (AreAccepted plan.now pieces.now (drawn_rows pieces.now (draws_of claim.new))) }
    ensures count { IfOk result (λ count. count ≡ min (length (drawn_rows pieces.now (draws_of claim.new))) most) }
    ensures stopped { IfErr result (SomeRefused plan.now pieces.now) }
{
    let mut count = 0u64;
    for _ in rt.forever() {
        let Some(number) = claim.claim(claims) else {
            return Ok(count);
        };
        match add_piece(alloc, &pieces[number as usize], plan, groups) {
            Ok(more) => count = count.saturating_add(more),
            Err(why) => return Err(why),
        }
    }
    unreachable!()
}

/// What a participant does with a batch, from its beginning to its end.
pub(crate) fn work<R: Wait>(
    rt: &R,
    alloc: Global,
    pieces: &[Window],
    plan: &BoundPlan,
    claims: &Claims,
    hand: &mut Hand,
)
    requires seat { Belongs claims.now hand.old.claim }
    requires new { draws_of hand.old.claim ≡ [] }
    requires pieces { blocks_of claims.now ≡ length pieces.now }
    requires columns { HaveColumns plan.now pieces.now }
    ensures { HasDone plan.now pieces.now claims.now hand.old hand.new }
{
    match add_drawn(
        rt,
        alloc,
        pieces,
        plan,
        claims,
        &mut hand.claim,
        &mut hand.groups,
    ) {
        Ok(count) => {
            hand.count = count;
            hand.stopped = None;
        }
        Err(why) => hand.stopped = Some(why),
    }
}
