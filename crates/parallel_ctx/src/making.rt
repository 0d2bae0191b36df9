//! The parts of a context. The region is one segment with a table of contents at its start; the plan's descriptor and
//! the rings of the queues are chunks of it, each under its own key:
//!
//! | key | chunk |
//! |---|---|
//! | 1 | the plan's descriptor |
//! | 2 | the table of groups with its area, if there is one |
//! | 16 + 2w | the error queue of worker w, from 1 on |
//! | 17 + 2w | its tuple queue |
//!
//! The segment has just the bytes for these (`IsMaking` counts what is left), so no chunk and no key is ever refused.

ghost use Rattle.std.specs.Prelude.{◌≡◌, ◌≤◌, ◌<◌, ◌*◌, ◌+◌, ◌-◌, ◌%◌, ◌^◌, ℕ, All, IfOk, None, OnOk, Some, [], ◌∷◌, length, map, vec_capacity, true};
ghost use Rattle.par_model.specs.Plain.{is_plain};
ghost use Rattle.std.specs.List.{AllZip};
ghost use Rattle.plan_descriptor.specs.Planned.{HasPlan};
ghost use Rattle.parallel_ctx.specs.Making.{AreRings, AreUnheardIn, AreUnused, IsMaking, claim_in, ends_in, firsts, hash_in, with_queue, with_queues};
ghost use Rattle.parallel_ctx.specs.Tokens.{AreNumbered, IsUnheard, IsUnused, number_in};
ghost use Rattle.shm_toc.specs.Table.{free_bytes_of, place_of, rounded, table_of};
ghost use Rattle.word_map.specs.WordMap.{HasJust};

use crate::hashing::next_seat;
use crate::tokens::{Hand, LeaderEnds, Seats, WorkerEnds};
use agg_table::HashSeat;
use mq_handle::{Receiver, Sender, attach};
use mq_ring::Ring;
use par_model::BoundPlan;
use plan_descriptor::{PLAN_KEY, write_plan};
use region_words::{Chunk, Part, Region};
use scan_claim::ClaimSeat;
use shm_toc::{FrozenToc, Toc};
use std::alloc::{AllocError, Global};

/// Begins the table of contents.
const MAGIC: u64 = 1601;

/// The keys of the queues, each with twice its worker's number added.
const ERRORS_KEY: u64 = 16;

const TUPLES_KEY: u64 = 17;

/// The bytes of the plan's chunk.
const PLAN_BYTES: u64 = 256;

/// The words of the rings: 16,384 and 65,536 bytes.
const ERRORS_WORDS: u64 = 2048;

const TUPLES_WORDS: u64 = 8192;

/// The longest message of an error queue, and of a tuple queue, in bytes.
pub const LONGEST_NOTICE: u32 = 64;

pub const LONGEST_TUPLE: u32 = 1024;

/// How many words the segment of a context for this many workers has, besides those of its table of groups.
pub(crate) fn words_for(workers: u32, hash: u64) -> u64
    requires workers { workers ≤ 64 }
    requires hash { (hash ≤ 40000000) × (hash % 4 ≡ 0) }
    ensures size { (40 ≤ result) × (result % 4 ≡ 0) }
    ensures few { result ≤ 2 ^ 26 }
    ensures room { 304 + 82016 * workers + 8 * hash ≤ 8 * result }
{
    40 + 10252 * u64::from(workers) + hash
}

/// A table of contents, and the chunk of it that the plan is to be written into, under its key.
#[derive(Drop)]
pub(crate) struct Planned {
    pub(crate) toc: Toc,
    pub(crate) chunk: Chunk,
}

/// Makes a table of contents with a chunk for the plan.
pub(crate) fn new_toc(r: &Region, part: Part, words: u64) -> Planned
    requires here { part.region ≡ r.now }
    requires owns { HasJust part.words 0 words }
    requires size { (40 ≤ words) × (words % 4 ≡ 0) }
    ensures here { result.toc.region ≡ r.now }
    ensures chunk_here { result.chunk.part.region ≡ r.now }
    ensures room { result.chunk.bytes ≡ 256 }
    ensures entry { place_of (table_of result.toc.words).entries 1 ≡ Some result.chunk.at }
    ensures making { IsMaking (table_of result.toc.words) 2 (8 * words - 304) }
{
    let mut toc = Toc::create(r, part, words, MAGIC);
    let Ok(chunk) = toc.allocate(r, PLAN_BYTES) else {
        unreachable!()
    };
    let Ok(()) = toc.insert(r, PLAN_KEY, chunk.at) else {
        unreachable!()
    };
    Planned { toc, chunk }
}

/// Makes a queue whose ring is a chunk of the table of contents, under this key.
fn new_queue(
    alloc: Global,
    r: &Region,
    toc: &mut Toc,
    key: u64,
    words: u64,
    max: u32,
) -> Result<(Sender, Receiver), AllocError>
    requires here { toc.old.region ≡ r.now }
    requires power { (e : ℕ) × (words ≡ 2 ^ e) × (e ≤ 20) }
    requires small { words ≤ 2 ^ 20 }
    requires max { max ≤ 1048576 }
    requires room { rounded (8 * (words + 3)) + 16 ≤ free_bytes_of (table_of toc.old.words) }
    requires unused { place_of (table_of toc.old.words).entries key ≡ None }
    ensures here { toc.new.region ≡ toc.old.region }
    ensures entered { IfOk result (λ q. table_of toc.new.words ≡ with_queue (table_of toc.old.words) key (8 * (words + 3)) q.0.end.ring.base) }
    ensures sender { IfOk result (λ q. IsUnused r.now max q.0) }
    ensures receiver { IfOk result (λ q. IsUnheard r.now max q.1) }
    ensures ring { IfOk result (λ q. q.0.end.ring ≡ q.1.end.ring) }
{
    let Ok(chunk) = toc.allocate(r, 8 * (words + 3)) else {
        unreachable!()
    };
    let Ok(()) = toc.insert(r, key, chunk.at) else {
        unreachable!()
    };
    let (tx, rx) = Ring::create(r, chunk, words, 0, max);
    match attach(alloc, tx, rx) {
        Ok(ends) => Ok(ends),
        Err(_) => Err(AllocError),
    }
}

/// Makes the two queues of a worker.
fn new_ends(
    alloc: Global,
    r: &Region,
    toc: &mut Toc,
    number: u64,
) -> Result<(WorkerEnds, LeaderEnds), AllocError>
    requires here { toc.old.region ≡ r.now }
    requires number { number ≤ 64 }
    requires room { 82016 ≤ free_bytes_of (table_of toc.old.words) }
    requires unused { (k : ℕ) → 16 + 2 * number ≤ k → place_of (table_of toc.old.words).entries k ≡ None }
    ensures here { toc.new.region ≡ toc.old.region }
    ensures entered { IfOk result (λ q. table_of toc.new.words ≡ with_queues (table_of toc.old.words) number q.0) }
    ensures unused { IfOk result (λ q. AreUnused r.now q.0) }
    ensures unheard { IfOk result (λ q. AreUnheardIn r.now q.1) }
    ensures rings { IfOk result (λ q. AreRings q.0 q.1) }
{
    let (errors, error_receiver) = new_queue(
        alloc,
        r,
        toc,
        ERRORS_KEY + 2 * number,
        ERRORS_WORDS,
        LONGEST_NOTICE,
    )?;
    let (tuples, tuple_receiver) = new_queue(
        alloc,
        r,
        toc,
        TUPLES_KEY + 2 * number,
        TUPLES_WORDS,
        LONGEST_TUPLE,
    )?;
    let receivers = LeaderEnds {
        errors: error_receiver,
        tuples: tuple_receiver,
    };
    Ok((WorkerEnds { errors, tuples }, receivers))
}

/// The ends of all queues.
#[derive(Drop)]
pub(crate) struct Queues {
    pub(crate) ends: Vec<WorkerEnds>,
    pub(crate) receivers: Vec<LeaderEnds>,
}

/// Makes the queues of this many workers, in order.
pub(crate) fn new_queues(
    alloc: Global,
    r: &Region,
    toc: &mut Toc,
    workers: u32,
    mut ends: Vec<WorkerEnds>,
    mut receivers: Vec<LeaderEnds>,
) -> Result<Queues, AllocError>
    requires here { toc.old.region ≡ r.now }
    requires few { workers ≤ 64 }
    requires making { IsMaking (table_of toc.old.words) 16 (82016 * workers) }
    requires ends { (ends.items ≡ []) × (workers ≤ vec_capacity ends) }
    requires receivers { (receivers.items ≡ []) × (workers ≤ vec_capacity receivers) }
    ensures here { toc.new.region ≡ toc.old.region }
    ensures plan { OnOk result (place_of (table_of toc.new.words).entries 1 ≡ place_of (table_of toc.old.words).entries 1) }
    ensures magic { OnOk result ((table_of toc.new.words).magic ≡ 1601) }
    ensures asked { IfOk result (λ q. length q.ends.items ≡ workers) }
    ensures unused { IfOk result (λ q. All (AreUnused r.now) q.ends.items) }
    ensures unheard { IfOk result (λ q. All (AreUnheardIn r.now) q.receivers.items) }
    ensures rings { IfOk result (λ q. AllZip AreRings q.ends.items q.receivers.items) }
{
    for at in 0..workers {
        let (mine, theirs) = new_ends(alloc, r, toc, u64::from(at) + 1)?;
        ends.push_reserved(mine);
        receivers.push_reserved(theirs);
    }
    Ok(Queues { ends, receivers })
}

/// Writes the plan into its chunk and freezes the table of contents with it.
pub(crate) fn keep_plan(r: &Region, mut toc: Toc, mut chunk: Chunk, plan: &BoundPlan) -> FrozenToc
    requires here { toc.region ≡ r.now }
    requires chunk_here { chunk.part.region ≡ r.now }
    requires room { chunk.bytes ≡ 256 }
    requires plain { is_plain plan.now ≡ true }
    requires entry { place_of (table_of toc.words).entries 1 ≡ Some chunk.at }
    ensures here { result.region ≡ r.now }
    ensures magic { (table_of result.words).magic ≡ (table_of toc.words).magic }
    ensures plan { HasPlan result.words plan.now }
{
    write_plan(plan, r, &mut chunk);
    toc.keep(r, chunk);
    toc.freeze(r)
}

/// A participant's share of the table of contents.
fn share_toc(r: &Region, toc: &mut FrozenToc) -> FrozenToc
    requires here { toc.old.region ≡ r.now }
    requires magic { (table_of toc.old.words).magic ≡ 1601 }
    ensures same { toc.new ≡ toc.old }
    ensures copy { result ≡ toc.old }
{
    let Ok(share) = FrozenToc::attach(toc.share(r), r, MAGIC) else {
        unreachable!()
    };
    share
}

/// What the participants are given.
#[derive(Drop)]
pub(crate) struct Dealt {
    pub(crate) leader: Seats,
    pub(crate) hands: Vec<Hand>,
}

/// Gives each participant its number, its share of the table of contents, its seat and its passes of the table of
/// groups, if there is one, and each worker its ends.
pub(crate) fn deal(
    r: &Region,
    mut toc: FrozenToc,
    seats: Vec<ClaimSeat>,
    hash_seats: Vec<HashSeat>,
    ends: Vec<WorkerEnds>,
    mut hands: Vec<Hand>,
) -> Dealt
    requires here { toc.region ≡ r.now }
    requires magic { (table_of toc.words).magic ≡ 1601 }
    requires seats { length seats.items ≡ length ends.items + 1 }
    requires few { length ends.items ≤ 64 }
    requires empty { hands.items ≡ [] }
    requires room { length ends.items ≤ vec_capacity hands }
    ensures leader { (result.leader.toc ≡ toc) × (result.leader.number ≡ 0) }
    ensures tocs { All (λ h. h.seats.toc ≡ toc) result.hands.items }
    ensures numbers { AreNumbered 1 (map number_in result.hands.items) }
    ensures claims { result.leader.claim ∷ map claim_in result.hands.items ≡ seats.items }
    ensures hashes { result.leader.hash ∷ map hash_in result.hands.items ≡ firsts hash_seats.items (length ends.items + 1) }
    ensures ends { map ends_in result.hands.items ≡ ends.items }
{
    let mut rest = seats.into_iter();
    let mut hash_rest = hash_seats.into_iter();
    let Some(own) = rest.next() else {
        unreachable!()
    };
    let leader = Seats {
        number: 0,
        toc: share_toc(r, &mut toc),
        claim: own,
        hash: next_seat(&mut hash_rest),
    };
    let mut number = 1;
    for mine in ends {
        let Some(claim) = rest.next() else {
            unreachable!()
        };
        let seats = Seats {
            number,
            toc: share_toc(r, &mut toc),
            claim,
            hash: next_seat(&mut hash_rest),
        };
        hands.push_reserved(Hand { seats, ends: mine });
        number += 1;
    }
    Dealt { leader, hands }
}
