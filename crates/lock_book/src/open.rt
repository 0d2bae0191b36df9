//! How a shelf is made: each value goes into a slot, and a pass is cut off for each caller.

ghost use Rattle.std.specs.Prelude.{◌≡◌, ℕ, ◌+◌, ◌-◌, ◌*◌, ◌^◌, ◌<◌, ◌≤◌, List, [], ◌∷◌, length, map, replicate, vec_capacity, vec_len, IfOk, None};
ghost use mathlib.Core.Option.{some};
ghost use lib.ListN.{get_elem?};
ghost use Rattle.lock_book.specs.Ruled.{fresh_pass, view_of};
ghost use Rattle.lock_book.specs.Shown.{AreAll, callers_of, count_of, mine_of, opens_of, seen_of};

use crate::Kept;
use crate::noted::Noted;
use crate::shelf::{Pass, Shelf};
use crate::steps::FREE;
use crate::table::{Board, Callers, Held, Opens, Place, Slot, WORDS_OF_VALUE};
use atomic_table::{Refused, Table};
use std::alloc::{AllocError, Global};

/// Each value in a separate slot.
fn shelved<T: Kept>(alloc: Global, values: Vec<T>) -> Result<Vec<Held<T>>, AllocError>
    ensures { IfOk result (λ v. v.items ≡ map (λ x. record { value = x; made = None }) values.items) }
{
    values
        .into_iter()
        .map(|value| Slot { value, made: None })
        .collect(alloc)
}

/// The words of this many values that are free, and for which nobody waits.
fn free_words(alloc: Global, count: usize) -> Result<Vec<u64>, AllocError>
    ensures words { IfOk result (λ v. v.items ≡ replicate (8 * count) 0) }
    ensures fits { IfOk result (λ v. 8 * count < 2 ^ 64) }
{
    let Some(width) = count.checked_mul(WORDS_OF_VALUE) else {
        return Err(AllocError);
    };
    vec![in alloc; FREE; width]
}

/// A pass for each caller, in a list that has room for them.
fn deal<T: Kept>(
    board: &Board<T>,
    whole: Place<T>,
    callers: u32,
    room: Vec<Pass<T>>,
) -> Vec<Pass<T>>
    requires own { (whole.table_id ≡ board.now.shared.table_id) × (0 < board.now.shared.table_id.words) × (whole.me.1 ≡ []) }
    requires view { whole.me.0 ≡ fresh_pass whole.me.0.opens callers 0 callers }
    requires room { (room.items ≡ []) × (vec_len room + callers ≤ vec_capacity room) }
    ensures count { length result.items ≡ callers }
    ensures each { (k : ℕ) (p : _) → get_elem? result.items k ≡ some p → (p.badge.table_id ≡ board.now.shared.table_id) × (view_of p.badge.views ≡ fresh_pass whole.me.0.opens callers k 1) × (k < callers) }
{
    let mut passes = room;
    let mut rest = whole;
    for number in 0..callers {
        let next = board.shared.split_seat::<Callers>(&mut rest);
        passes.push_reserved(Pass::new(rest, number));
        rest = next;
    }
    drop(rest.into_badge());
    passes
}

impl<T: Kept> Shelf<T> {
    /// A shelf of these values, in their order, and a pass for each caller, numbered from 0. If there is no memory, the
    /// values are dropped.
    pub fn new(
        alloc: Global,
        values: Vec<T>,
        callers: u32,
    ) -> Result<(Shelf<T>, Vec<Pass<T>>), AllocError>
        requires values { 0 < length values.items }
        requires callers { 0 < callers }
        ensures counts { IfOk result (λ r. (count_of r.0 ≡ length values.items) × (callers_of r.0 ≡ callers)) }
        ensures opens { IfOk result (λ r. opens_of r.0 ≡ map (λ x. (T.name x, T.state x)) values.items) }
        ensures passes { IfOk result (λ r. AreAll r.0 r.1.items) }
        ensures fresh { IfOk result (λ r. (k : ℕ) (p : _) → get_elem? r.1.items k ≡ some p → (i : ℕ) → (seen_of p i ≡ []) × (mine_of p i ≡ [])) }
    {
        let count = values.len();
        let opens: Noted<Opens<T>> = Noted::of(&values);
        let slots = shelved(alloc, values)?;
        let words = free_words(alloc, count)?;
        let room = Vec::with_capacity(alloc, callers as usize)?;
        let about = (opens, callers);
        let (board, whole) = match Table::new(alloc, words.as_slice(), slots, &about) {
            Ok(made) => made,
            Err(Refused { slots: _ }) => return Err(AllocError),
        };
        let passes = deal(&board, whole, callers, room);
        let shelf = Shelf {
            board,
            count,
            callers,
        };
        Ok((shelf, passes))
    }
}
