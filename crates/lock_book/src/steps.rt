//! The moves of the lock, one by one: take the value, apply calls to it, give it back with these calls in its history.
//! What is known between two of them is the stage of the seat and the value that it carries.
//!
//! A caller that waits too long sleeps on the word of advice. It stores `SOMEBODY` there and looks at the lock once
//! more before it sleeps; a caller that gives the value back frees the lock and then looks at the advice. All four are
//! sequentially consistent, so the one sees that the value is free or the other sees that somebody sleeps. Nothing is
//! proved of that.

ghost use Rattle.std.specs.Prelude.{◌≡◌, ℕ, ◌<◌, ◌^◌, true, false, [], ◌∷◌, ◌++◌, length, unwrap_or};
ghost use Rattle.lock_book.specs.declared.view.Stage.TheVariants.{Holding};
ghost use Rattle.lock_book.specs.Ruled.{Fits, IsFree, lock_at, served, sleep_at, Taken};
ghost use Rattle.lock_book.specs.History.{entry, made_of};

use crate::Kept;
use crate::noted::Noted;
use crate::table::{Advise, Board, Give, Held, Place, Take, WORDS_OF_VALUE};
use crossbeam_utils::Backoff;
use std::sync::Wait;
use std::time::Duration;

/// The lock's word of a value that is free. That of one that is taken is 1 + the number of the caller that has it.
pub(crate) const FREE: u64 = 0;

/// The word of advice while somebody may sleep, and while nobody does.
const SOMEBODY: u32 = 1;

const NOBODY: u64 = 0;

/// The longest sleep in milliseconds, after which a caller looks again: a turn that was tried for (`try_turn`) wakes
/// nobody, so that it can be part of a library for C, which may not wake threads.
const LONGEST_SLEEP: u64 = 1;

/// The word of the lock of the value `at`.
#[inline(always)]
pub(crate) fn lock_word(at: usize) -> usize
    requires { lock_at at < 2 ^ 64 }
    ensures { result ≡ lock_at at }
{
    at * WORDS_OF_VALUE
}

/// The word that shows that callers sleep until the value `at` is free, and on which they sleep.
#[inline(always)]
fn sleep_word(at: usize) -> usize
    requires { sleep_at at < 2 ^ 64 }
    ensures { result ≡ sleep_at at }
{
    at * WORDS_OF_VALUE + 1
}

/// Whether the value `at` was free. The seat of the caller `number` then has it, and the lock's word names that caller.
#[inline(always)]
fn try_take<T: Kept>(board: &Board<T>, seat: &mut Place<T>, number: u32, at: usize) -> bool
    requires own { (seat.old.table_id ≡ board.now.shared.table_id) × (seat.old.me.0.from ≡ number) }
    requires place { at < length board.now.shared.key.0.value }
    requires word { (sleep_at at < board.now.shared.table_id.words) × (sleep_at at < 2 ^ 64) }
    requires free { IsFree seat.old.me.0 }
    ensures own { seat.new.table_id ≡ seat.old.table_id }
    ensures taken { result ≡ true → Taken (λ x. T.name x.value) (λ x. T.state x.value) T.legal seat.old.me at seat.new.me }
    ensures not_free { result ≡ false → seat.new.me ≡ seat.old.me }
{
    let name = u64::from(number) + 1;
    let found = board
        .shared
        .compare_exchange::<Take>(seat, lock_word(at), FREE, name);
    found == FREE
}

/// Stores advice for the callers of the value `at`.
fn advise<T: Kept>(board: &Board<T>, seat: &mut Place<T>, at: usize, advice: u64)
    requires own { seat.old.table_id ≡ board.now.shared.table_id }
    requires word { (sleep_at at < board.now.shared.table_id.words) × (sleep_at at < 2 ^ 64) }
    ensures same { (seat.new.table_id ≡ seat.old.table_id) × (seat.new.me ≡ seat.old.me) }
{
    board.shared.store::<Advise>(seat, sleep_word(at), advice);
}

/// Whether the value `at` was free, by a look at the lock's word and, only if that was `FREE`, a try.
fn look_and_take<T: Kept>(board: &Board<T>, seat: &mut Place<T>, number: u32, at: usize) -> bool
    requires own { (seat.old.table_id ≡ board.now.shared.table_id) × (seat.old.me.0.from ≡ number) }
    requires place { at < length board.now.shared.key.0.value }
    requires word { (sleep_at at < board.now.shared.table_id.words) × (sleep_at at < 2 ^ 64) }
    requires free { IsFree seat.old.me.0 }
    ensures own { seat.new.table_id ≡ seat.old.table_id }
    ensures taken { result ≡ true → Taken (λ x. T.name x.value) (λ x. T.state x.value) T.legal seat.old.me at seat.new.me }
    ensures not_free { result ≡ false → seat.new.me ≡ seat.old.me }
{
    board.shared.peek(lock_word(at)) == FREE && try_take(board, seat, number, at)
}

/// Waits asleep until the seat has the value `at`. It says that somebody sleeps before each look at the lock, the last
/// one too: the caller that woke it may have left others asleep, and its own giving back wakes the next of them.
#[cold]
fn sleep_until_taken<T: Kept, R: Wait>(
    rt: &R,
    board: &Board<T>,
    seat: &mut Place<T>,
    number: u32,
    at: usize,
)
    requires own { (seat.old.table_id ≡ board.now.shared.table_id) × (seat.old.me.0.from ≡ number) }
    requires place { at < length board.now.shared.key.0.value }
    requires word { (sleep_at at < board.now.shared.table_id.words) × (sleep_at at < 2 ^ 64) }
    requires free { IsFree seat.old.me.0 }
    ensures own { seat.new.table_id ≡ seat.old.table_id }
    ensures taken { Taken (λ x. T.name x.value) (λ x. T.state x.value) T.legal seat.old.me at seat.new.me }
{
    for _ in rt.forever() {
        advise(board, seat, at, u64::from(SOMEBODY));
        if look_and_take(board, seat, number, at) {
            return;
        }
        board.shared.park_timeout(
            rt,
            sleep_word(at),
            SOMEBODY,
            Duration::from_millis(LONGEST_SLEEP),
        );
    }
    unreachable!()
}

/// Waits until the seat has the value `at`: it looks again and again, for a few microseconds, and then sleeps.
#[cold]
fn await_turn<T: Kept, R: Wait>(
    rt: &R,
    board: &Board<T>,
    seat: &mut Place<T>,
    number: u32,
    at: usize,
)
    requires own { (seat.old.table_id ≡ board.now.shared.table_id) × (seat.old.me.0.from ≡ number) }
    requires place { at < length board.now.shared.key.0.value }
    requires word { (sleep_at at < board.now.shared.table_id.words) × (sleep_at at < 2 ^ 64) }
    requires free { IsFree seat.old.me.0 }
    ensures own { seat.new.table_id ≡ seat.old.table_id }
    ensures taken { Taken (λ x. T.name x.value) (λ x. T.state x.value) T.legal seat.old.me at seat.new.me }
{
    let backoff = Backoff::new();
    for _ in rt.forever() {
        if backoff.is_completed() {
            sleep_until_taken(rt, board, seat, number, at);
            return;
        }
        backoff.snooze();
        if look_and_take(board, seat, number, at) {
            return;
        }
    }
    unreachable!()
}

/// Takes the value `at` for the caller `number` at once if it is free, and else waits until the seat has it.
#[inline(always)]
pub(crate) fn acquire<T: Kept, R: Wait>(
    rt: &R,
    board: &Board<T>,
    seat: &mut Place<T>,
    number: u32,
    at: usize,
)
    requires own { (seat.old.table_id ≡ board.now.shared.table_id) × (seat.old.me.0.from ≡ number) }
    requires place { at < length board.now.shared.key.0.value }
    requires word { (sleep_at at < board.now.shared.table_id.words) × (sleep_at at < 2 ^ 64) }
    requires free { IsFree seat.old.me.0 }
    ensures own { seat.new.table_id ≡ seat.old.table_id }
    ensures taken { Taken (λ x. T.name x.value) (λ x. T.state x.value) T.legal seat.old.me at seat.new.me }
{
    if try_take(board, seat, number, at) {
        return;
    }
    await_turn(rt, board, seat, number, at);
}

impl<T: Kept> Held<T> {
    /// No call of this turn was made yet.
    #[inline(always)]
    fn begin(&mut self)
        ensures { (self.new.value ≡ self.old.value) × (made_of self.new.made ≡ []) }
    {
        self.made = None;
    }

    #[inline(always)]
    fn apply(&mut self, number: u32, env: &T::Env, input: T::In) -> T::Out
        requires env { T.env_fits (T.name self.old.value) env.now }
        requires input { (n : ℕ) × T.in_fits (T.name self.old.value) n input }
        ensures legal { (n : ℕ) → T.in_fits (T.name self.old.value) n input → T.legal (T.name self.old.value) n (T.state self.old.value) (unwrap_or (T.chosen input result) (T.call input)) (T.reply result) (T.state self.new.value) }
        ensures name { T.name self.new.value ≡ T.name self.old.value }
        ensures output { T.out_fits (T.name self.old.value) input result }
        ensures noted { made_of self.new.made ≡ made_of self.old.made ++ entry number (unwrap_or (T.chosen input result) (T.call input)) (T.reply result) (T.state self.new.value) ∷ [] }
    {
        let asked: Noted<T::In> = Noted::of(&input);
        let output = self.value.apply(env, input);
        let told: Noted<T::Out> = Noted::of(&output);
        let after: Noted<T::State> = Noted::of(&self.value);
        let step = (self.made.take(), number, asked, told, after);
        self.made = Some(Noted::of(&step));
        output
    }
}

/// The turn begins with no call.
#[inline(always)]
pub(crate) fn begin<T: Kept>(board: &Board<T>, seat: &mut Place<T>, at: usize)
    requires own { seat.old.table_id ≡ board.now.shared.table_id }
    requires held { (x : _) × (seat.old.me.1 ≡ (at, x) ∷ []) }
    ensures own { (seat.new.table_id ≡ seat.old.table_id) × (seat.new.me.0 ≡ seat.old.me.0) }
    ensures begun { (x : _) × (y : _) × (seat.old.me.1 ≡ (at, x) ∷ []) × (seat.new.me.1 ≡ (at, y) ∷ []) × (y.value ≡ x.value) × (made_of y.made ≡ []) }
{
    seat.slot_mut(&board.shared, at).begin();
}

/// Applies a call of the caller `number` to the value that the seat has.
#[inline(always)]
pub(crate) fn serve<T: Kept>(
    board: &Board<T>,
    seat: &mut Place<T>,
    number: u32,
    at: usize,
    env: &T::Env,
    input: T::In,
) -> T::Out
    requires own { seat.old.table_id ≡ board.now.shared.table_id }
    requires held { (x : _) × (seat.old.me.1 ≡ (at, x) ∷ []) × T.env_fits (T.name x.value) env.now × T.in_fits (T.name x.value) number input }
    ensures own { (seat.new.table_id ≡ seat.old.table_id) × (seat.new.me.0 ≡ seat.old.me.0) }
    ensures served { (x : _) × (y : _) × (seat.old.me.1 ≡ (at, x) ∷ []) × (seat.new.me.1 ≡ (at, y) ∷ [])
        × T.legal (T.name x.value) number (T.state x.value) (unwrap_or (T.chosen input result) (T.call input)) (T.reply result) (T.state y.value) × (T.name y.value ≡ T.name x.value) × T.out_fits (T.name x.value) input result
        × (made_of y.made ≡ made_of x.made ++ entry number (unwrap_or (T.chosen input result) (T.call input)) (T.reply result) (T.state y.value) ∷ []) }
{
    seat.slot_mut(&board.shared, at).apply(number, env, input)
}

/// Wakes one of the callers that sleep until the value `at` is free.
#[cold]
fn wake_next<T: Kept>(board: &Board<T>, seat: &mut Place<T>, at: usize)
    requires own { seat.old.table_id ≡ board.now.shared.table_id }
    requires word { (sleep_at at < board.now.shared.table_id.words) × (sleep_at at < 2 ^ 64) }
    ensures same { (seat.new.table_id ≡ seat.old.table_id) × (seat.new.me ≡ seat.old.me) }
{
    advise(board, seat, at, NOBODY);
    board.shared.wake_one(sleep_word(at));
}

/// Wakes one of them, if there may be any.
#[inline(always)]
fn wake_if_asleep<T: Kept>(board: &Board<T>, seat: &mut Place<T>, at: usize)
    requires own { seat.old.table_id ≡ board.now.shared.table_id }
    requires word { (sleep_at at < board.now.shared.table_id.words) × (sleep_at at < 2 ^ 64) }
    ensures same { (seat.new.table_id ≡ seat.old.table_id) × (seat.new.me ≡ seat.old.me) }
{
    if board.shared.peek(sleep_word(at)) != NOBODY {
        wake_next(board, seat, at);
    }
}

/// Adds the turn's calls to the history of the value that the seat has, and gives the value back: one store. It wakes
/// nobody.
#[inline(always)]
pub(crate) fn free_value<T: Kept>(board: &Board<T>, seat: &mut Place<T>, at: usize)
    requires own { seat.old.table_id ≡ board.now.shared.table_id }
    requires word { (sleep_at at < board.now.shared.table_id.words) × (sleep_at at < 2 ^ 64) × (at < board.now.shared.table_id.slots) }
    requires holding { seat.old.me.0.stage ≡ Holding at }
    requires held { (x : _) × (seat.old.me.1 ≡ (at, x) ∷ []) × Fits (λ x. T.name x.value) (λ x. T.state x.value) T.legal (λ x. made_of x.made) seat.old.me.0 at x }
    ensures own { seat.new.table_id ≡ seat.old.table_id }
    ensures added { (x : _) → seat.old.me.1 ≡ (at, x) ∷ [] → (seat.new.me.1 ≡ []) × (seat.new.me.0 ≡ served seat.old.me.0 at (made_of x.made)) }
{
    board.shared.store::<Give>(seat, lock_word(at), FREE);
}

/// The same, and one load to see whether somebody sleeps, which has to come after the store.
#[inline(always)]
pub(crate) fn release<T: Kept>(board: &Board<T>, seat: &mut Place<T>, at: usize)
    requires own { seat.old.table_id ≡ board.now.shared.table_id }
    requires word { (sleep_at at < board.now.shared.table_id.words) × (sleep_at at < 2 ^ 64) × (at < board.now.shared.table_id.slots) }
    requires holding { seat.old.me.0.stage ≡ Holding at }
    requires held { (x : _) × (seat.old.me.1 ≡ (at, x) ∷ []) × Fits (λ x. T.name x.value) (λ x. T.state x.value) T.legal (λ x. made_of x.made) seat.old.me.0 at x }
    ensures own { seat.new.table_id ≡ seat.old.table_id }
    ensures added { (x : _) → seat.old.me.1 ≡ (at, x) ∷ [] → (seat.new.me.1 ≡ []) × (seat.new.me.0 ≡ served seat.old.me.0 at (made_of x.made)) }
{
    free_value(board, seat, at);
    wake_if_asleep(board, seat, at);
}
