//! The counter and its seats.
//!
//! The counter is one word, the number of draws made. Any seat may change it, at any time and in one way: a draw adds 1
//! and gives the number found. A seat whose number was not below the blocks never draws again, so the word is at most
//! the blocks and the callers together, and does not wrap. Splits and joins of seats load the word. The rule is
//! `Counts`.

ghost use Rattle.std.specs.Prelude.{◌≡◌, ◌≢◌, ℕ, ◌+◌, ◌<◌, ◌≤◌, ◌++◌, ◌⊎◌, ◌↔◌, ◌^◌, IsTrue, IsNone, List, Bool, true, false, [], ◌∷◌, length, map, IfOk, IfSome, IfNone, slice_index_or, EachIndex, ltb, if◌then◌else◌};
ghost use mathlib.Core.Option.{some};
ghost use lib.ListN.{get_elem?};
ghost use Rattle.atomic_table.specs.Seated.{TableId, table_id_coded};
ghost use Rattle.scan_claim.specs.Drawing.{Counts, newcomers, drew, counted, first_caller, other_callers, together, nobody, late, flat, times, below, EndsOnce, IsDrawn, is_spent, Drew};

use crate::Draws;
use atomic_table::{Join, Play, Seat, Split, Table, TableRule};
use std::alloc::{AllocError, Global};

struct Once;

impl TableRule<(), Draws, (u64, u64)> for Once {
    ghost holds = { λ k s. Counts k.0 k.1 s };

    ghost first = { newcomers };
}

struct Draw;

impl Play<(), Draws> for Draw {
    ghost then = { drew };
}

struct Count;

impl Play<(), Draws> for Count {
    ghost then = { counted };
}

struct Callers;

impl Split<Draws> for Callers {
    ghost left = { first_caller };

    ghost right = { other_callers };
}

impl Join<Draws> for Callers {
    ghost both = { together };

    ghost spent = { nobody };
}

type Counter = Table<(), Draws, (u64, u64), Once, Global>;

/// The counter of draws, made for a number of blocks and of callers. Threads share it by reference.
#[derive(Drop)]
pub struct Claims {
    table: Counter,
    blocks: u64,
    callers: u32,
    ghost words: { table.shared.table_id.words ≡ 1 },
    ghost some_caller: { 0 < callers },
    ghost key: { table.shared.key ≡ (blocks, callers) },
}

/// One caller's seat, which may go to another thread. A contract sees its number and the list of its draws.
#[derive(Drop)]
pub struct ClaimSeat {
    seat: Seat<(), Draws>,
    done: bool,
    ghost free: { seat.me.1 ≡ [] },
    ghost one: { length seat.me.0.lists ≡ 1 },
    ghost in_order: { seat.me.0.callers ≡ 1 → flat seat.me.0.lists ≡ below (length (flat seat.me.0.lists)) },
    ghost ended: { done ≡ is_spent seat.me.0.blocks (flat seat.me.0.lists) },
    ghost few: { length (flat seat.me.0.lists) ≤ seat.me.0.blocks + seat.me.0.callers },
}

/// All seats, joined: it shows the draws of each by its number.
#[derive(Drop)]
pub struct Drawn {
    seat: Seat<(), Draws>,
}

/// One draw of a seat that has not yet drawn a number past the blocks.
fn draw_one(table: &Counter, seat: &mut Seat<(), Draws>) -> u64
    requires own { (seat.old.table_id ≡ table.now.shared.table_id) × (table.now.shared.table_id.words ≡ 1) }
    requires early { (length seat.old.me.0.lists ≡ 1) × (late seat.old.me.0.blocks (flat seat.old.me.0.lists) ≡ 0) }
    ensures own { seat.new.table_id ≡ seat.old.table_id }
    ensures slots { seat.new.me.1 ≡ seat.old.me.1 }
    ensures view { Drew seat.old.me.0 result seat.new.me.0 }
{
    table.shared.fetch_add::<Draw>(seat, 0, 1)
}

impl ClaimSeat {
    ghost use Rattle.scan_claim.specs.Shown.{Belongs, blocks_of, callers_of, draws_of, number_of};

    fn new(seat: Seat<(), Draws>) -> ClaimSeat
        requires { (seat.me.1 ≡ []) × (seat.me.0.lists ≡ [] ∷ []) }
        ensures { (result.seat ≡ seat) × (result.done ≡ false) }
    {
        ClaimSeat { seat, done: false }
    }

    fn into_seat(self) -> Seat<(), Draws>
        ensures { (result ≡ self.seat) × (result.me.1 ≡ []) × (length result.me.0.lists ≡ 1) }
    {
        let ClaimSeat { seat, done: _ } = self;
        seat
    }

    /// Draws the next number, by one fetch-and-add. Once a draw was not below the blocks it answers None and draws no
    /// more. It never waits.
    pub fn claim(&mut self, claims: &Claims) -> Option<u64>
        requires { Belongs claims.now self.old }
        ensures same { Belongs claims.now self.new × (number_of self.new ≡ number_of self.old) }
        ensures drawn { IfSome result (λ n. (n < blocks_of claims.now) × (draws_of self.new ≡ draws_of self.old ++ n ∷ [])) }
        ensures none { IsNone result ↔ IsTrue (is_spent (blocks_of claims.now) (draws_of self.new)) }
        ensures too_many { IfNone result ((draws_of self.new ≡ draws_of self.old) ⊎ ((n : ℕ) × (blocks_of claims.now ≤ n) × (draws_of self.new ≡ draws_of self.old ++ n ∷ []))) }
        ensures over { IsTrue (is_spent (blocks_of claims.now) (draws_of self.old)) → draws_of self.new ≡ draws_of self.old }
        ensures few { length (draws_of self.new) ≤ blocks_of claims.now + callers_of claims.now }
        ensures in_order { callers_of claims.now ≡ 1 → draws_of self.new ≡ below (length (draws_of self.new)) }
    {
        if self.done {
            return None;
        }
        let number = draw_one(&claims.table, &mut self.seat);
        if number < claims.blocks {
            Some(number)
        } else {
            self.done = true;
            None
        }
    }
}

impl Claims {
    ghost use Rattle.scan_claim.specs.Shown.{AreSeats, Belongs, blocks_of, callers_of, draws_of, number_of, lists_of};

    /// A counter at 0, and a seat for each caller, numbered from 0. It takes memory for the word and the list of seats.
    pub fn new(
        alloc: Global,
        blocks: u64,
        callers: u32,
    ) -> Result<(Claims, Vec<ClaimSeat>), AllocError>
        requires blocks { blocks ≤ 2 ^ 32 }
        requires callers { 0 < callers }
        ensures counts { IfOk result (λ r. (blocks_of r.0 ≡ blocks) × (callers_of r.0 ≡ callers)) }
        ensures seats { IfOk result (λ r. AreSeats r.0 r.1.items) }
        ensures draws { IfOk result (λ r. (k : ℕ) (s : _) → get_elem? r.1.items k ≡ some s → draws_of s ≡ []) }
    {
        let (table, mut rest) = Table::of_words(alloc, &[0], &(blocks, u64::from(callers)))?;
        let mut seats = Vec::new(alloc);
        for _i in 0..callers {
            let next = table.shared.split_seat::<Callers>(&mut rest);
            seats.push(ClaimSeat::new(rest))?;
            rest = next;
        }
        let claims = Claims {
            table,
            blocks,
            callers,
        };
        Ok((claims, seats))
    }

    /// Joins all seats, given in order of their numbers: a load for each, and one for the word.
    pub fn close(self, mut seats: Vec<ClaimSeat>) -> Drawn
        requires { AreSeats self seats.items }
        ensures lists { lists_of result ≡ map draws_of seats.items }
        ensures drawn { (n : ℕ) × IsDrawn (blocks_of self) (lists_of result) n }
        ensures once { (x : ℕ) → times x (flat (lists_of result)) ≤ 1 }
        ensures all { (k : ℕ) (s : _) → get_elem? seats.items k ≡ some s → IsTrue (is_spent (blocks_of self) (draws_of s)) → (x : ℕ) → x < blocks_of self → times x (flat (lists_of result)) ≡ 1 }
    {
        let Claims {
            table,
            blocks: _,
            callers: _,
        } = self;
        let Some(last) = seats.pop() else {
            unreachable!()
        };
        let mut whole = last.into_seat();
        while let Some(one) = seats.pop() {
            let mut seat = one.into_seat();
            table.shared.join_seat::<Callers>(&mut seat, whole);
            whole = seat;
        }
        table.shared.load::<Count>(&mut whole, 0);
        Drawn { seat: whole }
    }
}
