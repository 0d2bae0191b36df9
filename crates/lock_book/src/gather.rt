//! All passes become one seat. Before a seat is joined, it learns what the seats after it have seen, so that what the
//! last one has seen begins with what each had seen.

ghost use Rattle.std.specs.Prelude.{◌≡◌, ℕ, ◌+◌, ◌<◌, ◌≤◌, [], ◌++◌, length, map};
ghost use mathlib.Core.Option.{some};
ghost use lib.ListN.{get_elem?};
ghost use Rattle.lock_book.specs.declared.view.Stage.TheVariants.{Idle};
ghost use Rattle.lock_book.specs.History.{StartsWith, row_at};
ghost use Rattle.lock_book.specs.Ruled.{IsFree, seen_at, view_of};
ghost use Rattle.lock_book.specs.Shown.{seen_of};

use crate::Kept;
use crate::meet::{make_note, take_note};
use crate::shelf::Pass;
use crate::table::{Board, Callers, Place};

/// Joins the seat of the callers after one caller to that caller's, which has then seen as much as both.
pub(crate) fn join_behind<T: Kept>(board: &Board<T>, seat: &mut Place<T>, mut behind: Place<T>)
    requires own { (seat.old.table_id ≡ board.now.shared.table_id) × (behind.table_id ≡ board.now.shared.table_id) × (0 < board.now.shared.table_id.words) × (behind.me.1 ≡ []) }
    requires free { IsFree seat.old.me.0 × (behind.me.0.stage ≡ Idle) }
    requires next { behind.me.0.from ≡ seat.old.me.0.from + 1 }
    ensures own { (seat.new.table_id ≡ seat.old.table_id) × (seat.new.me.1 ≡ seat.old.me.1) }
    ensures view { (seat.new.me.0.opens ≡ seat.old.me.0.opens) × (seat.new.me.0.from ≡ seat.old.me.0.from) × (seat.new.me.0.stage ≡ Idle) }
    ensures owns { seat.new.me.0.owns ≡ seat.old.me.0.owns ++ behind.me.0.owns }
    ensures seen { (i : ℕ) → StartsWith (seen_at seat.new.me.0 i) (seen_at seat.old.me.0 i) × StartsWith (seen_at seat.new.me.0 i) (seen_at behind.me.0 i) }
{
    let note = make_note(board, &mut behind);
    take_note(board, seat, note);
    board.shared.join_seat::<Callers>(seat, behind);
}

/// Joins all passes, from the last to the first.
pub(crate) fn gather<T: Kept>(board: &Board<T>, mut passes: Vec<Pass<T>>) -> Place<T>
    requires words { 0 < board.now.shared.table_id.words }
    requires some_pass { 0 < length passes.items }
    requires passes { (k : ℕ) (p : _) → get_elem? passes.items k ≡ some p → (p.badge.table_id ≡ board.now.shared.table_id) × ((view_of p.badge.views).from ≡ k) × ((view_of p.badge.views).opens ≡ board.now.shared.key.0.value) × (length p.badge.views ≡ 1) }
    ensures own { (result.table_id ≡ board.now.shared.table_id) × (result.me.1 ≡ []) }
    ensures view { (result.me.0.from ≡ 0) × (result.me.0.stage ≡ Idle) × (result.me.0.opens ≡ board.now.shared.key.0.value) }
    ensures owns { result.me.0.owns ≡ map (λ p. row_at (view_of p.badge.views).owns 0) passes.items }
    ensures seen { (k : ℕ) (p : _) → get_elem? passes.items k ≡ some p → (i : ℕ) → StartsWith (seen_at result.me.0 i) (seen_of p i) }
{
    let Some(last) = passes.pop() else {
        unreachable!()
    };
    let mut whole = last.into_seat();
    while let Some(one) = passes.pop() {
        let mut seat = one.into_seat();
        join_behind(board, &mut seat, whole);
        whole = seat;
    }
    whole
}
