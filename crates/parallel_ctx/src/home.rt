//! The way home: both ends of each queue come together again, and the seats at the counter of blocks are gathered in
//! order.

ghost use Rattle.std.specs.Prelude.{◌≡◌, ◌≤◌, ◌<◌, ◌+◌, ◌++◌, [], ◌∷◌, count_by, is_some, map, true, vec_capacity, vec_len, None, IfSome, IsSomeAnd, MatchOption};
ghost use Rattle.std.specs.List.{AllZip};
ghost use Rattle.agg_table.specs.Ending.{AreSeats, IsClosed};
ghost use Rattle.agg_table.specs.Shown.{IsPart};
ghost use Rattle.dshash_parts.specs.Ending.{IsOf, left_of, whole_of};
ghost use Rattle.parallel_ctx.specs.Accounts.{heard, heard_of};
ghost use Rattle.parallel_ctx.specs.Queues.{IsQueue};
ghost use Rattle.parallel_ctx.specs.Returns.{CanSettle, IsReturned, claim_of, hash_of, there};

use crate::start::Back;
use crate::tokens::{Hand, LeaderEnds, Seats, WorkerEnds};
use agg_cell::AggObject;
use agg_table::{HashPart, HashSeat};
use dsa_area::AreaPass;
use dshash_parts::{ClosedTable, DsPass};
use mq_handle::{MqDone, Receiver, Sender, home};
use region_words::Region;
use scan_claim::{ClaimSeat, Drawn};

/// What a worker brought home.
#[derive(Drop)]
pub struct Returned<E> {
    /// The worker's number, from 1 on.
    pub number: u32,
    /// What the worker answered, or `None` if its thread did not start.
    pub end: Option<E>,
    /// Both ends of its error queue, home.
    pub errors: MqDone,
    /// Both ends of its tuple queue, home.
    pub tuples: MqDone,
}

/// What all participants brought home.
#[derive(Drop)]
pub struct Finished<E> {
    /// How many workers started.
    pub launched: u32,
    /// One for each worker asked for, in order.
    pub workers: Vec<Returned<E>>,
    /// The numbers that each participant drew, the lead's first.
    pub drawn: Drawn,
    /// The region of the context; the queues' words are home.
    pub region: Region,
    /// The table of groups, closed, if there was one. It shows each participant's turns.
    pub table: Option<ClosedTable<AggObject>>,
    /// The participants' passes of the table's area, in order, and none if there was no table.
    pub areas: Vec<AreaPass>,
}

/// Brings both ends of a queue home, which are detached.
fn bring_home(r: &Region, s: Sender, q: Receiver) -> MqDone
    requires here { s.region ≡ r.now }
    requires q_here { q.region ≡ r.now }
    requires one_ring { s.end.ring ≡ q.end.ring }
    requires sender_left { s.end.gone ≡ true }
    requires receiver_left { q.end.gone ≡ true }
    ensures sender { result.sender ≡ s.end }
    ensures receiver { result.receiver ≡ q.end }
    ensures queue { IsQueue result }
{
    home(s, q, r)
}

/// What a worker brought home, its seat at the counter of blocks, and its passes of the table of groups.
#[derive(Drop)]
struct Settled<E> {
    /// Its number, its end, and its queues, both ends together.
    worker: Returned<E>,
    /// Its seat at the counter of blocks, with all that it drew.
    claim: ClaimSeat,
    /// Its passes of the table of groups, if there is one.
    hash: Option<HashSeat>,
}

/// Brings a worker's tokens home.
fn settle<E: Drop>(r: &Region, back: Back<E>, queues: LeaderEnds) -> Settled<E>
    requires { CanSettle r.now back queues }
    ensures is { IsReturned back result.worker }
    ensures claim { result.claim ≡ back.hand.seats.claim }
    ensures hash { result.hash ≡ back.hand.seats.hash }
    ensures heard { heard_of result.worker ≡ heard queues }
{
    let Back { end, hand } = back;
    let Hand { seats, ends } = hand;
    let Seats {
        number,
        toc: _,
        claim,
        hash,
    } = seats;
    let WorkerEnds { errors, tuples } = ends;
    let LeaderEnds {
        errors: error_receiver,
        tuples: tuple_receiver,
    } = queues;
    Settled {
        worker: Returned {
            number,
            end,
            errors: bring_home(r, errors, error_receiver),
            tuples: bring_home(r, tuples, tuple_receiver),
        },
        claim,
        hash,
    }
}

/// What all workers brought home, the seats of all claims in order, and the passes of the table of groups in order.
#[derive(Drop)]
pub(crate) struct AllSettled<E> {
    pub(crate) workers: Vec<Returned<E>>,
    pub(crate) claims: Vec<ClaimSeat>,
    pub(crate) hashes: Vec<HashSeat>,
}

/// Puts passes after others, if there are any.
pub(crate) fn keep_seat(hashes: &mut Vec<HashSeat>, hash: Option<HashSeat>)
    requires room { vec_len hashes.old < vec_capacity hashes.old }
    ensures kept { hashes.new.items ≡ hashes.old.items ++ there (hash ∷ []) }
    ensures few { vec_len hashes.new ≤ vec_len hashes.old + 1 }
    ensures capacity { vec_capacity hashes.new ≡ vec_capacity hashes.old }
{
    if let Some(seat) = hash {
        hashes.push_reserved(seat);
    }
}

/// Brings the tokens of all workers home, in order.
pub(crate) fn settle_all<E: Drop>(
    r: &Region,
    backs: Vec<Back<E>>,
    receivers: Vec<LeaderEnds>,
    mut workers: Vec<Returned<E>>,
    mut claims: Vec<ClaimSeat>,
    mut hashes: Vec<HashSeat>,
) -> AllSettled<E>
    requires queues { AllZip (CanSettle r.now) backs.items receivers.items }
    requires workers { workers.items ≡ [] }
    requires room { vec_len backs ≤ vec_capacity workers }
    requires claims_room { vec_len claims + vec_len backs ≤ vec_capacity claims }
    requires hashes_room { vec_len hashes + vec_len backs ≤ vec_capacity hashes }
    ensures workers { AllZip IsReturned backs.items result.workers.items }
    ensures heard { map heard_of result.workers.items ≡ map heard receivers.items }
    ensures claims { result.claims.items ≡ claims.items ++ map claim_of backs.items }
    ensures hashes { result.hashes.items ≡ hashes.items ++ there (map hash_of backs.items) }
{
    let mut rest = receivers.into_iter();
    for back in backs {
        let Some(receiver) = rest.next() else {
            unreachable!()
        };
        let Settled {
            worker,
            claim,
            hash,
        } = settle(r, back, receiver);
        workers.push_reserved(worker);
        claims.push_reserved(claim);
        keep_seat(&mut hashes, hash);
    }
    AllSettled {
        workers,
        claims,
        hashes,
    }
}

/// Ends the table of groups, if there is one, with the passes of all participants in order of their numbers, and gives
/// those of its area. The two lists that it fills have room.
pub(crate) fn close_table(
    hash: Option<HashPart>,
    hashes: Vec<HashSeat>,
    tables: Vec<DsPass<AggObject>>,
    areas: Vec<AreaPass>,
) -> (Option<ClosedTable<AggObject>>, Vec<AreaPass>)
    requires seats { MatchOption hash (hashes.items ≡ []) (λ p. (region : _) × IsPart region p × AreSeats p hashes.items) }
    requires tables { (tables.items ≡ []) × (vec_len hashes ≤ vec_capacity tables) }
    requires areas { (areas.items ≡ []) × (vec_len hashes ≤ vec_capacity areas) }
    ensures none { hash ≡ None → result.0 ≡ None }
    ensures closed { IfSome hash (λ p. IsSomeAnd result.0 (λ c. IsClosed p hashes.items (whole_of c) × (left_of c ≡ 128) × ((region : _) → IsPart region p → IsOf region p.table c))) }
    ensures areas { result.1.items ≡ map (λ s. s.area) hashes.items }
{
    match hash {
        None => (None, areas),
        Some(part) => {
            let (table, areas) = part.close(hashes, tables, areas);
            (Some(table), areas)
        }
    }
}

/// How many workers started.
pub(crate) fn count_ends<E>(workers: &[Returned<E>]) -> usize
    ensures { result ≡ count_by (λ w. is_some w.end) workers.now }
{
    workers.iter().filter(|w| w.end.is_some()).count()
}
