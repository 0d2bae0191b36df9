//! How a shelf ends: all passes are joined, and the values come home, from the last to the first.
//! What the joined seat has seen is each value's whole history, and the closed shelf keeps a note of it.

ghost use Rattle.std.specs.Prelude.{◌≡◌, ℕ, ◌+◌, ◌<◌, ◌≤◌, true, false, List, [], ◌∷◌, length, IfSome, IsNone, ◌↔◌, slice_index_or};
ghost use Rattle.std.specs.Mem.Slots.{slots_items, slots_filled, slots_len};
ghost use mathlib.Core.Option.{some};
ghost use lib.ListN.{get_elem?};
ghost use Rattle.lock_book.specs.History.{last_of};
ghost use Rattle.lock_book.specs.Ruled.{seen_at};

use crate::Kept;
use crate::gather::gather;
use crate::joined::Joined;
use crate::shelf::{Pass, Shelf};
use crate::table::{Held, Note, Place, Slot};
use std::alloc::Global;

/// A shelf that was closed. It shows each value's whole history, and gives the values from the last to the first. What
/// was not taken is dropped with it.
pub struct Closed<T: Kept> {
    slots: atomic_table::Closed<Held<T>, Global>,
    left: usize,
    note: Place<T>,
    pub ghost inside: { (left ≤ slots_len slots.slots) × (slots_len slots.slots ≡ length note.me.0.opens) },
    pub ghost there: { (k : ℕ) → k < left → slice_index_or (slots_filled slots.slots) k false ≡ true },
    pub ghost gone: { (k : ℕ) → left ≤ k → k < slots_len slots.slots → slice_index_or (slots_filled slots.slots) k false ≡ false },
    pub ghost last: { (k : ℕ) (x : _) (o : _) → get_elem? (slots_items slots.slots) k ≡ some x → get_elem? note.me.0.opens k ≡ some o → (T.name x.value ≡ o.0) × (T.state x.value ≡ last_of o.1 (seen_at note.me.0 k)) },
}

impl<T: Kept> Shelf<T> {
    ghost use Rattle.lock_book.specs.declared.view.Stage.TheVariants.{Idle};
    ghost use Rattle.lock_book.specs.Ruled.{AllSeen};
    ghost use Rattle.lock_book.specs.Shown.{AreAll, Ended, IsJoined, callers_of, count_of, first_of, left_of, opened_of, opens_of, whole_of};

    /// Ends a shelf whose callers' seats are all joined into one.
    fn finish(self, whole: Place<T>) -> Closed<T>
        requires own { (whole.table_id ≡ self.board.shared.table_id) × (whole.me.1 ≡ []) }
        requires view { (whole.me.0.from ≡ 0) × (whole.me.0.stage ≡ Idle) × (whole.me.0.opens ≡ opens_of self) }
        requires all { length whole.me.0.owns ≡ callers_of self }
        ensures left { left_of result ≡ count_of self }
        ensures opens { opened_of result ≡ opens_of self }
        ensures seen { (i : ℕ) → whole_of result i ≡ seen_at whole.me.0 i }
        ensures all_seen { AllSeen T.legal (opens_of self) (callers_of self) whole.me.0 }
    {
        let Shelf {
            board,
            count,
            callers: _,
        } = self;
        let mut whole = whole;
        let note = board.shared.split_seat::<Note>(&mut whole);
        let slots = board.close_with(whole);
        Closed {
            slots,
            left: count,
            note,
        }
    }

    /// Ends the shelf. It takes all passes, in order of their numbers, makes a few loads for each, and takes no memory.
    pub fn close(self, passes: Vec<Pass<T>>) -> Closed<T>
        requires all { AreAll self passes.items }
        ensures left { left_of result ≡ count_of self }
        ensures opens { opened_of result ≡ opens_of self }
        ensures ended { Ended self passes.items result }
    {
        let whole = gather(&self.board, passes);
        self.finish(whole)
    }

    /// Ends the shelf, if its passes were joined one by one. It takes no memory.
    pub fn close_joined(self, joined: Joined<T>) -> Closed<T>
        requires joined { (passes : List _) × IsJoined self passes joined }
        requires all { first_of joined ≡ 0 }
        ensures left { left_of result ≡ count_of self }
        ensures opens { opened_of result ≡ opens_of self }
        ensures ended { (passes : List _) → IsJoined self passes joined → Ended self passes result }
    {
        let Joined { whole } = joined;
        self.finish(whole)
    }
}

impl<T: Kept> Closed<T> {
    ghost use Rattle.lock_book.specs.Shown.{left_of, opened_of, whole_of};

    /// The last value that is left, with its name and the last state of its history. None exactly if none is left.
    pub fn take_last(&mut self) -> Option<T>
        ensures none { IsNone result ↔ (left_of self.old ≡ 0) }
        ensures some { IfSome result (λ _. left_of self.old ≡ left_of self.new + 1) }
        ensures value { IfSome result (λ x. (o : _) × (get_elem? (opened_of self.old) (left_of self.new) ≡ some o) × (T.name x ≡ o.0) × (T.state x ≡ last_of o.1 (whole_of self.old (left_of self.new)))) }
        ensures end { left_of self.old ≡ 0 → left_of self.new ≡ 0 }
        ensures history { (opened_of self.new ≡ opened_of self.old) × ((i : ℕ) → whole_of self.new i ≡ whole_of self.old i) }
    {
        if self.left == 0 {
            return None;
        }
        let slot = self.slots.take(self.left - 1);
        self.left -= 1;
        let Slot { value, made: _ } = slot;
        Some(value)
    }
}

impl<T: Kept> Drop for Closed<T> {
    fn drop(self) {
        let Self {
            mut slots,
            mut left,
            note: _,
        } = self;
        while left > 0 {
            drop(slots.take(left - 1));
            left -= 1;
        }
        slots.free();
    }
}
