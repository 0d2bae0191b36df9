//! The shelf, its passes, and a call.
//!
//! A pass keeps its seat in a badge, which names no slot, so that it may go to another thread. Between two calls the
//! seat represents the pass's one caller and has no value. While a turn has the seat (`several`), the badge is blank.

ghost use Rattle.std.specs.Prelude.{◌≡◌, ℕ, ◌+◌, ◌*◌, ◌^◌, ◌<◌, ◌≤◌, [], ◌∷◌, length, unwrap_or};
ghost use mathlib.Core.Option.{some};
ghost use lib.ListN.{get_elem?};
ghost use Rattle.lock_book.specs.declared.view.Stage.TheVariants.{Idle};
ghost use Rattle.lock_book.specs.Ruled.{IsFree, stage_number, view_of};

use crate::Kept;
use crate::table::{Board, Known, Place};
use crate::turn::take_turn;
use atomic_table::Badge;
use std::mem;
use std::sync::Wait;

/// Locked values of one kind, in a row. Threads share it by reference.
#[derive(Drop)]
pub struct Shelf<T: Kept> {
    pub(crate) board: Board<T>,
    pub(crate) count: usize,
    pub(crate) callers: u32,
    pub ghost sized: { (board.shared.table_id.words ≡ 8 * count) × (board.shared.table_id.slots ≡ count) × (length board.shared.key.0.value ≡ count) × (0 < count) × (8 * count < 2 ^ 64) },
    pub ghost called_by: { board.shared.key.1 ≡ callers },
    pub ghost some_caller: { 0 < callers },
}

/// One caller's token, which may go to another thread. For each value it shows the history seen, and its own calls in
/// it.
#[derive(Drop)]
pub struct Pass<T: Kept> {
    pub(crate) badge: Badge<Known<T>>,
    pub(crate) number: u32,
    pub ghost one: { length badge.views ≤ 1 },
    pub ghost alone: { length (view_of badge.views).owns ≡ length badge.views },
    pub ghost idle: { stage_number (view_of badge.views).stage ≡ 0 },
    pub ghost numbered: { (view_of badge.views).from ≡ number },
}

/// Takes the seat out of its badge, which is blank afterwards.
#[inline(always)]
pub(crate) fn lend<T: Kept>(badge: &mut Badge<Known<T>>) -> Place<T>
    requires here { length badge.old.views ≡ 1 }
    ensures { (result.table_id ≡ badge.old.table_id) × (result.me.0 ≡ view_of badge.old.views) × (result.me.1 ≡ []) × (badge.new.views ≡ []) }
{
    let whole = mem::replace(badge, Badge::blank());
    whole.into_seat()
}

/// Puts the seat back.
#[inline(always)]
pub(crate) fn give_back<T: Kept>(badge: &mut Badge<Known<T>>, seat: Place<T>)
    requires { seat.me.1 ≡ [] }
    ensures { (badge.new.table_id ≡ seat.table_id) × (badge.new.views ≡ seat.me.0 ∷ []) }
{
    *badge = seat.into_badge();
}

impl<T: Kept> Pass<T> {
    ghost use Rattle.lock_book.specs.Shown.{number_of};

    pub(crate) fn new(seat: Place<T>, number: u32) -> Pass<T>
        requires { (seat.me.1 ≡ []) × IsFree seat.me.0 × (seat.me.0.from ≡ number) }
        ensures { (result.badge.table_id ≡ seat.table_id) × (result.badge.views ≡ seat.me.0 ∷ []) }
    {
        Pass {
            badge: seat.into_badge(),
            number,
        }
    }

    /// The caller's number, from 0 on.
    pub fn number(&self) -> u32
        ensures { result ≡ number_of self.now }
    {
        self.number
    }

    pub(crate) fn into_seat(self) -> Place<T>
        requires here { length self.badge.views ≡ 1 }
        ensures { (result.table_id ≡ self.badge.table_id) × (result.me.0 ≡ view_of self.badge.views) × (result.me.1 ≡ []) × IsFree result.me.0 }
    {
        let Pass { badge, number: _ } = self;
        badge.into_seat()
    }
}

impl<T: Kept> Shelf<T> {
    ghost use Rattle.lock_book.specs.Shown.{Belongs, Called, count_of, number_of, opens_of};

    /// Takes a turn at the value `at`, and applies the call to it. The lock is held for `apply` only. It may wait for
    /// its turn, asleep after a few microseconds, and takes no memory.
    #[inline(always)]
    pub fn call<R: Wait>(
        &self,
        rt: &R,
        env: &T::Env,
        pass: &mut Pass<T>,
        at: usize,
        input: T::In,
    ) -> T::Out
        requires own { Belongs self.now pass.old }
        requires place { at < count_of self.now }
        requires input { (o : _) → get_elem? (opens_of self.now) at ≡ some o → T.env_fits o.0 env.now × T.in_fits o.0 (number_of pass.old) input }
        ensures own { Belongs self.now pass.new × (number_of pass.new ≡ number_of pass.old) }
        ensures called { Called self.now pass.old pass.new at (unwrap_or (T.chosen input result) (T.call input)) (T.reply result) }
        ensures output { (o : _) → get_elem? (opens_of self.now) at ≡ some o → T.out_fits o.0 input result }
    {
        let mut seat = lend(&mut pass.badge);
        let output = take_turn(rt, &self.board, &mut seat, pass.number, at, env, input);
        give_back(&mut pass.badge, seat);
        output
    }
}
