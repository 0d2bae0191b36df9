//! A whole turn at one value, from taking it to giving it back.
//! The invariant is `IsPass` of specs/Told: what is always true of a pass holds again after its call.

ghost use Rattle.std.specs.Prelude.{◌≡◌, ◌<◌, ◌^◌, [], length, unwrap_or};
ghost use mathlib.Core.Option.{some};
ghost use lib.ListN.{get_elem?};
ghost use Rattle.lock_book.specs.Ruled.{IsFree, IsSame, mine_at, seen_at, sleep_at};
ghost use Rattle.lock_book.specs.Told.{Adds, IsPass};

use crate::Kept;
use crate::steps::{acquire, begin, release, serve};
use crate::table::{Board, Place};
use std::sync::Wait;

/// Takes a turn of the caller `number` at the value `at`, and applies the call.
#[inline(always)]
pub(crate) fn take_turn<T: Kept, R: Wait>(
    rt: &R,
    board: &Board<T>,
    seat: &mut Place<T>,
    number: u32,
    at: usize,
    env: &T::Env,
    input: T::In,
) -> T::Out
    requires own { (seat.old.table_id ≡ board.now.shared.table_id) × (seat.old.me.1 ≡ []) × (seat.old.me.0.from ≡ number) }
    requires opened { seat.old.me.0.opens ≡ board.now.shared.key.0.value }
    requires place { (at < length seat.old.me.0.opens) × (sleep_at at < board.now.shared.table_id.words) × (sleep_at at < 2 ^ 64) × (at < board.now.shared.table_id.slots) }
    requires free { IsFree seat.old.me.0 }
    requires stands { IsPass T.legal seat.old.me.0.opens seat.old.me.0.callers seat.old.me.0.from (seen_at seat.old.me.0) (mine_at seat.old.me.0 0) }
    requires input { (o : _) → get_elem? seat.old.me.0.opens at ≡ some o → T.env_fits o.0 env.now × T.in_fits o.0 seat.old.me.0.from input }
    ensures own { (seat.new.table_id ≡ seat.old.table_id) × (seat.new.me.1 ≡ []) }
    ensures same { IsSame seat.old.me.0 seat.new.me.0 }
    ensures called { Adds T.legal seat.old.me.0.opens seat.old.me.0.from (seen_at seat.old.me.0) (mine_at seat.old.me.0 0) (seen_at seat.new.me.0) (mine_at seat.new.me.0 0) at (unwrap_or (T.chosen input result) (T.call input)) (T.reply result) }
    ensures stands { IsPass T.legal seat.old.me.0.opens seat.old.me.0.callers seat.old.me.0.from (seen_at seat.new.me.0) (mine_at seat.new.me.0 0) }
    ensures output { (o : _) → get_elem? seat.old.me.0.opens at ≡ some o → T.out_fits o.0 input result }
{
    acquire(rt, board, seat, number, at);
    begin(board, seat, at);
    let output = serve(board, seat, number, at, env, input);
    release(board, seat, at);
    output
}
