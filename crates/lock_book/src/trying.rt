//! A call that will not wait: it is made at once, or not at all.
//!
//! Only one step knows whether a value was with another caller: the compare-and-exchange on the lock's word. So the
//! seat counts the tries that found it taken (`misses`), and a call that gives its input back has counted one: a body
//! that gives up by itself has not.

ghost use Rattle.std.specs.Prelude.{◌≡◌, ◌<◌, ◌^◌, [], length, IfOk, IfErr, true, false, unwrap_or};
ghost use mathlib.Core.Option.{some};
ghost use lib.ListN.{get_elem?};
ghost use Rattle.lock_book.specs.Ruled.{IsFree, IsSame, Taken, mine_at, missing, seen_at, sleep_at};
ghost use Rattle.lock_book.specs.Told.{Adds, IsPass};

use crate::Kept;
use crate::shelf::{Pass, Shelf, give_back, lend};
use crate::steps::{FREE, begin, free_value, lock_word, serve};
use crate::table::{Board, Place, TakeOnce};

/// Whether the value `at` was free. The seat then has it; else the try is counted.
#[inline(always)]
fn try_once<T: Kept>(board: &Board<T>, seat: &mut Place<T>, number: u32, at: usize) -> bool
    requires own { (seat.old.table_id ≡ board.now.shared.table_id) × (seat.old.me.0.from ≡ number) }
    requires place { at < length board.now.shared.key.0.value }
    requires word { (sleep_at at < board.now.shared.table_id.words) × (sleep_at at < 2 ^ 64) }
    requires free { IsFree seat.old.me.0 }
    ensures own { seat.new.table_id ≡ seat.old.table_id }
    ensures taken { result ≡ true → Taken (λ x. T.name x.value) (λ x. T.state x.value) T.legal seat.old.me at seat.new.me }
    ensures missed { result ≡ false → seat.new.me ≡ (missing seat.old.me.0, seat.old.me.1) }
{
    let name = u64::from(number) + 1;
    let found = board
        .shared
        .compare_exchange::<TakeOnce>(seat, lock_word(at), FREE, name);
    found == FREE
}

/// Takes a turn if the value is free at once, and else gives the input back.
#[inline(always)]
fn try_turn<T: Kept>(
    board: &Board<T>,
    seat: &mut Place<T>,
    number: u32,
    at: usize,
    env: &T::Env,
    input: T::In,
) -> Result<T::Out, T::In>
    requires own { (seat.old.table_id ≡ board.now.shared.table_id) × (seat.old.me.1 ≡ []) × (seat.old.me.0.from ≡ number) }
    requires opened { seat.old.me.0.opens ≡ board.now.shared.key.0.value }
    requires place { (at < length seat.old.me.0.opens) × (sleep_at at < board.now.shared.table_id.words) × (sleep_at at < 2 ^ 64) × (at < board.now.shared.table_id.slots) }
    requires free { IsFree seat.old.me.0 }
    requires stands { IsPass T.legal seat.old.me.0.opens seat.old.me.0.callers seat.old.me.0.from (seen_at seat.old.me.0) (mine_at seat.old.me.0 0) }
    requires input { (o : _) → get_elem? seat.old.me.0.opens at ≡ some o → T.env_fits o.0 env.now × T.in_fits o.0 seat.old.me.0.from input }
    ensures own { (seat.new.table_id ≡ seat.old.table_id) × (seat.new.me.1 ≡ []) }
    ensures same { IsSame seat.old.me.0 seat.new.me.0 }
    ensures stands { IsPass T.legal seat.old.me.0.opens seat.old.me.0.callers seat.old.me.0.from (seen_at seat.new.me.0) (mine_at seat.new.me.0 0) }
    ensures called { IfOk result (λ out. Adds T.legal seat.old.me.0.opens seat.old.me.0.from (seen_at seat.old.me.0) (mine_at seat.old.me.0 0) (seen_at seat.new.me.0) (mine_at seat.new.me.0 0) at (unwrap_or (T.chosen input out) (T.call input)) (T.reply out)) }
    ensures output { IfOk result (λ out. (o : _) → get_elem? seat.old.me.0.opens at ≡ some o → T.out_fits o.0 input out) }
    ensures busy { IfErr result (λ back. (back ≡ input) × (seat.new.me ≡ (missing seat.old.me.0, seat.old.me.1))) }
    ensures free { IfOk result (λ out. seat.new.me.0.misses ≡ seat.old.me.0.misses) }
{
    if !try_once(board, seat, number, at) {
        return Err(input);
    }
    begin(board, seat, at);
    let output = serve(board, seat, number, at, env, input);
    free_value(board, seat, at);
    Ok(output)
}

impl<T: Kept> Shelf<T> {
    ghost use Rattle.lock_book.specs.Shown.{Belongs, Called, Missed, count_of, misses_of, number_of, opens_of};

    /// As `call` if the value `at` is free at this moment; else another caller had it, the input comes back, and the
    /// pass has seen nothing new. It waits for nobody and takes no memory.
    pub fn try_call(
        &self,
        env: &T::Env,
        pass: &mut Pass<T>,
        at: usize,
        input: T::In,
    ) -> Result<T::Out, T::In>
        requires own { Belongs self.now pass.old }
        requires place { at < count_of self.now }
        requires input { (o : _) → get_elem? (opens_of self.now) at ≡ some o → T.env_fits o.0 env.now × T.in_fits o.0 (number_of pass.old) input }
        ensures own { Belongs self.now pass.new × (number_of pass.new ≡ number_of pass.old) }
        ensures called { IfOk result (λ out. Called self.now pass.old pass.new at (unwrap_or (T.chosen input out) (T.call input)) (T.reply out)) }
        ensures output { IfOk result (λ out. (o : _) → get_elem? (opens_of self.now) at ≡ some o → T.out_fits o.0 input out) }
        ensures free { IfOk result (λ out. misses_of pass.new ≡ misses_of pass.old) }
        ensures busy { IfErr result (λ back. (back ≡ input) × Missed pass.old pass.new) }
    {
        let mut seat = lend(&mut pass.badge);
        let output = try_turn(&self.board, &mut seat, pass.number, at, env, input);
        give_back(&mut pass.badge, seat);
        output
    }
}
