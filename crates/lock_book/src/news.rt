//! News of a value: how callers wait, asleep, until another says that the value has changed, as at the end of a
//! barrier's phase.
//!
//! A caller that changed what others wait for announces it after its call: one of the value's words counts the
//! announcements. A caller that waits reads that count, makes its call, and if the call did not find what it waits for,
//! waits until the count is another. It needs no turn for that, and no entry of a history. All of this is advice: no
//! clause says what the count is, so a caller has to look again after each wait, and one that forgets to announce costs
//! others time, and never an answer.

ghost use Rattle.std.specs.Prelude.{◌≡◌, ℕ, ◌<◌, ◌^◌};
ghost use Rattle.lock_book.specs.Ruled.{news_at, readers_at};

use crate::Kept;
use crate::shelf::{Pass, Shelf, give_back, lend};
use crate::table::{Advise, Board, Place, WORDS_OF_VALUE};
use crossbeam_utils::Backoff;
use std::sync::Wait;

/// How many counts are distinguished: callers that sleep compare the low 32 bits of the word.
const COUNTS: u64 = 1 << 32;

/// The word that counts what was announced of the value `at`.
fn news_word(at: usize) -> usize
    requires { news_at at < 2 ^ 64 }
    ensures { result ≡ news_at at }
{
    at * WORDS_OF_VALUE + 2
}

/// The word that counts the callers that sleep until something is announced of it.
fn readers_word(at: usize) -> usize
    requires { readers_at at < 2 ^ 64 }
    ensures { result ≡ readers_at at }
{
    at * WORDS_OF_VALUE + 3
}

/// Counts one announcement.
fn count_news<T: Kept>(board: &Board<T>, seat: &mut Place<T>, at: usize)
    requires own { seat.old.table_id ≡ board.now.shared.table_id }
    requires word { (readers_at at < board.now.shared.table_id.words) × (readers_at at < 2 ^ 64) }
    ensures same { (seat.new.table_id ≡ seat.old.table_id) × (seat.new.me ≡ seat.old.me) }
{
    board.shared.fetch_add::<Advise>(seat, news_word(at), 1);
}

/// One more caller sleeps.
fn begin_sleep<T: Kept>(board: &Board<T>, seat: &mut Place<T>, at: usize)
    requires own { seat.old.table_id ≡ board.now.shared.table_id }
    requires word { (readers_at at < board.now.shared.table_id.words) × (readers_at at < 2 ^ 64) }
    ensures same { (seat.new.table_id ≡ seat.old.table_id) × (seat.new.me ≡ seat.old.me) }
{
    board.shared.fetch_add::<Advise>(seat, readers_word(at), 1);
}

/// One caller fewer sleeps.
fn end_sleep<T: Kept>(board: &Board<T>, seat: &mut Place<T>, at: usize)
    requires own { seat.old.table_id ≡ board.now.shared.table_id }
    requires word { (readers_at at < board.now.shared.table_id.words) × (readers_at at < 2 ^ 64) }
    ensures same { (seat.new.table_id ≡ seat.old.table_id) × (seat.new.me ≡ seat.old.me) }
{
    board.shared.fetch_sub::<Advise>(seat, readers_word(at), 1);
}

/// Counts one announcement, and then wakes the callers that sleep, if there are any.
fn tell<T: Kept>(board: &Board<T>, seat: &mut Place<T>, at: usize)
    requires own { seat.old.table_id ≡ board.now.shared.table_id }
    requires word { (readers_at at < board.now.shared.table_id.words) × (readers_at at < 2 ^ 64) }
    ensures same { (seat.new.table_id ≡ seat.old.table_id) × (seat.new.me ≡ seat.old.me) }
{
    count_news(board, seat, at);
    if board.shared.peek(readers_word(at)) != 0 {
        board.shared.wake_all(news_word(at));
    }
}

/// Sleeps while the low 32 bits of the count are `seen`. It may also return for no reason.
fn sleep_while<T: Kept, R: Wait>(
    rt: &R,
    board: &Board<T>,
    seat: &mut Place<T>,
    at: usize,
    seen: u32,
)
    requires own { seat.old.table_id ≡ board.now.shared.table_id }
    requires word { (readers_at at < board.now.shared.table_id.words) × (readers_at at < 2 ^ 64) }
    ensures same { (seat.new.table_id ≡ seat.old.table_id) × (seat.new.me ≡ seat.old.me) }
{
    begin_sleep(board, seat, at);
    board.shared.park(rt, news_word(at), seen);
    end_sleep(board, seat, at);
}

impl<T: Kept> Shelf<T> {
    ghost use Rattle.lock_book.specs.Shown.{Belongs, count_of, mine_of, number_of, seen_of};

    /// How many times something was announced of the value `at`, modulo 2^32: read it before the call whose answer
    /// decides whether to wait. One load.
    pub fn news(&self, at: usize) -> u32
        requires place { at < count_of self.now }
    {
        (self.board.shared.peek(news_word(at)) % COUNTS) as u32
    }

    /// Wakes all that wait for news of the value `at`. A locked instruction and a load; a system call only if somebody
    /// sleeps.
    pub fn announce(&self, pass: &mut Pass<T>, at: usize)
        requires own { Belongs self.now pass.old }
        requires place { at < count_of self.now }
        ensures own { Belongs self.now pass.new × (number_of pass.new ≡ number_of pass.old) }
        ensures seen { (i : ℕ) → seen_of pass.new i ≡ seen_of pass.old i }
        ensures mine { (i : ℕ) → mine_of pass.new i ≡ mine_of pass.old i }
    {
        let mut seat = lend(&mut pass.badge);
        tell(&self.board, &mut seat, at);
        give_back(&mut pass.badge, seat);
    }

    /// Waits until something was announced of the value `at` since `seen` was read, by loads for a few microseconds and
    /// then asleep. It may also return for no reason.
    pub fn await_news<R: Wait>(&self, rt: &R, pass: &mut Pass<T>, at: usize, seen: u32)
        requires own { Belongs self.now pass.old }
        requires place { at < count_of self.now }
        ensures own { Belongs self.now pass.new × (number_of pass.new ≡ number_of pass.old) }
        ensures seen { (i : ℕ) → seen_of pass.new i ≡ seen_of pass.old i }
        ensures mine { (i : ℕ) → mine_of pass.new i ≡ mine_of pass.old i }
    {
        let backoff = Backoff::new();
        for _ in rt.forever() {
            if self.news(at) != seen || backoff.is_completed() {
                break;
            }
            backoff.snooze();
        }
        if self.news(at) != seen {
            return;
        }
        let mut seat = lend(&mut pass.badge);
        sleep_while(rt, &self.board, &mut seat, at, seen);
        give_back(&mut pass.badge, seat);
    }
}
