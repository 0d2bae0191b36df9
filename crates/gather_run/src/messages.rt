//! What the leader takes off the workers' queues. It reads them in turn and waits for none of them: of each worker
//! first its notices, so that a refused row is known as soon as can be, and then its tuples, whose groups it adds to
//! its map. A worker is over when its tuple queue is, and its last notice is read: it sends that before it detaches its
//! tuple queue, so this wait is short.

ghost use Rattle.std.specs.Prelude.{◌≡◌, All, false};
ghost use Rattle.std.specs.List.{AllZip};
ghost use Rattle.parallel_ctx.specs.Tokens.{SameQueues};
ghost use Rattle.gather_run.specs.Looks.{Hears, HearsAll, HearsEnd, HearsOut, IsOpen, LooksOnce};

use crate::GatherAnswer;
use crossbeam_utils::Backoff;
use mq_handle::{ReceiveAnswer, Receiver};
use par_model::AggState;
use parallel_ctx::LeaderEnds;
use partial_agg::{GroupMap, empty};
use region_words::Region;
use std::sync::Wait;
use tuple_codec::decode_into;
use worker_run::{News, hear_last, hear_notices};

/// How many tuples are taken of a worker before the next one is heard: as many as its queue holds at most, at two words
/// for each. So a worker that sends as fast as the leader takes holds up nobody.
const MOST_AT_ONCE: u32 = 4096;

/// What came of one look at a worker's tuple queue.
#[derive(Clone, Copy)]
enum Look {
    /// More may come. Says whether a tuple was taken, whose group is added.
    More { took: bool },
    /// None will come.
    Over,
    /// The map had no room for it.
    Lost,
}

/// What came of hearing a worker, or all of them.
#[derive(Clone, Copy)]
pub(crate) enum Hearing {
    /// More may come. Says whether something was taken.
    More { took: bool },
    /// All is taken, the last notice too.
    Ended,
    /// The map had no room.
    NoRoom,
    /// A notice names this row, which is refused.
    Names { row: u64, cause: u8, item: u32 },
}

/// Takes one tuple, if one is there, and adds its group to the map. Its aggregates are read into a state that is there,
/// and its key stays where it lies in the message.
fn take_tuple(
    r: &Region,
    tuples: &mut Receiver,
    state: &mut AggState,
    groups: &mut GroupMap,
) -> Look
    requires here { tuples.old.region ≡ r.now }
    requires stays { tuples.old.end.gone ≡ false }
    ensures region { tuples.new.region ≡ tuples.old.region }
    ensures ring { tuples.new.end.ring ≡ tuples.old.end.ring }
    ensures stays { tuples.new.end.gone ≡ false }
    ensures look { LooksOnce tuples.old.end tuples.new.end groups.old groups.new result }
{
    match tuples.try_receive(r) {
        ReceiveAnswer::WouldBlock => Look::More { took: false },
        ReceiveAnswer::Detached => Look::Over,
        ReceiveAnswer::Message => {
            let Ok(key) = decode_into(tuples.message(), state) else {
                return Look::Lost;
            };
            if groups.add_bytes(key, state).is_err() {
                return Look::Lost;
            }
            Look::More { took: true }
        }
    }
}

/// The same, and it wakes the worker if that sleeps until there is room for its next tuple.
fn take_next(r: &Region, tuples: &mut Receiver, state: &mut AggState, groups: &mut GroupMap) -> Look
    requires here { tuples.old.region ≡ r.now }
    requires stays { tuples.old.end.gone ≡ false }
    ensures region { tuples.new.region ≡ tuples.old.region }
    ensures ring { tuples.new.end.ring ≡ tuples.old.end.ring }
    ensures stays { tuples.new.end.gone ≡ false }
    ensures look { LooksOnce tuples.old.end tuples.new.end groups.old groups.new result }
{
    let look = take_tuple(r, tuples, state, groups);
    tuples.wake_sender(r);
    look
}

/// Takes the tuples that are there, up to as many as the queue holds, all through one state.
fn take_tuples(r: &Region, tuples: &mut Receiver, groups: &mut GroupMap) -> Look
    requires here { tuples.old.region ≡ r.now }
    requires stays { tuples.old.end.gone ≡ false }
    ensures region { tuples.new.region ≡ tuples.old.region }
    ensures ring { tuples.new.end.ring ≡ tuples.old.end.ring }
    ensures stays { tuples.new.end.gone ≡ false }
    ensures look { LooksOnce tuples.old.end tuples.new.end groups.old groups.new result }
{
    let mut state = empty();
    let mut took = false;
    for _ in 0..MOST_AT_ONCE {
        match take_next(r, tuples, &mut state, groups) {
            Look::More { took: true } => took = true,
            Look::More { took: false } => return Look::More { took },
            Look::Over => return Look::Over,
            Look::Lost => return Look::Lost,
        }
    }
    Look::More { took }
}

/// Hears the last notice of a worker that sends no more tuples.
fn hear_end<R: Wait>(rt: &R, r: &Region, errors: &mut Receiver) -> Hearing
    requires here { errors.old.region ≡ r.now }
    requires stays { errors.old.end.gone ≡ false }
    ensures region { errors.new.region ≡ errors.old.region }
    ensures ring { errors.new.end.ring ≡ errors.old.end.ring }
    ensures stays { errors.new.end.gone ≡ false }
    ensures heard { HearsEnd errors.new.end result }
{
    match hear_last(rt, r, errors) {
        News::Refused { row, cause, item } => Hearing::Names { row, cause, item },
        News::Over => Hearing::Ended,
        News::Nothing => unreachable!(),
    }
}

/// Hears a worker: its notices, and then its tuples. If it sends no more tuples, its last notice is waited for.
fn hear<R: Wait>(rt: &R, r: &Region, queue: &mut LeaderEnds, groups: &mut GroupMap) -> Hearing
    requires { IsOpen r.now queue.old }
    ensures same { SameQueues queue.old queue.new }
    ensures open { IsOpen r.now queue.new }
    ensures heard { Hears queue.old queue.new groups.old groups.new result }
{
    if let News::Refused { row, cause, item } = hear_notices(rt, r, &mut queue.errors) {
        return Hearing::Names { row, cause, item };
    }
    match take_tuples(r, &mut queue.tuples, groups) {
        Look::Lost => Hearing::NoRoom,
        Look::More { took } => Hearing::More { took },
        Look::Over => hear_end(rt, r, &mut queue.errors),
    }
}

/// Hears all workers in turn.
pub(crate) fn hear_all<R: Wait>(
    rt: &R,
    r: &Region,
    queues: &mut [LeaderEnds],
    groups: &mut GroupMap,
) -> Hearing
    requires { All (IsOpen r.now) queues.old }
    ensures same { AllZip SameQueues queues.old queues.new }
    ensures open { All (IsOpen r.now) queues.new }
    ensures heard { HearsAll queues.old queues.new groups.old groups.new result }
{
    let mut over = true;
    let mut took_any = false;
    for at in 0..queues.len() {
        match hear(rt, r, &mut queues[at], groups) {
            Hearing::Ended => {}
            Hearing::More { took } => {
                over = false;
                took_any |= took;
            }
            Hearing::NoRoom => return Hearing::NoRoom,
            Hearing::Names { row, cause, item } => return Hearing::Names { row, cause, item },
        }
    }
    if over {
        return Hearing::Ended;
    }
    Hearing::More { took: took_any }
}

/// Hears all workers until none has more to say. It backs off while nothing comes.
pub(crate) fn hear_out<R: Wait>(
    rt: &R,
    r: &Region,
    queues: &mut [LeaderEnds],
    groups: &mut GroupMap,
) -> Option<GatherAnswer>
    requires { All (IsOpen r.now) queues.old }
    ensures same { AllZip SameQueues queues.old queues.new }
    ensures heard { HearsOut queues.old queues.new groups.old groups.new result }
{
    let backoff = Backoff::new();
    for _ in rt.forever() {
        match hear_all(rt, r, queues, groups) {
            Hearing::More { took: true } => backoff.reset(),
            Hearing::More { took: false } => backoff.snooze(),
            Hearing::Ended => return None,
            Hearing::NoRoom => return Some(GatherAnswer::Memory),
            Hearing::Names { row, cause, item } => {
                return Some(GatherAnswer::Row { row, cause, item });
            }
        }
    }
    unreachable!()
}
