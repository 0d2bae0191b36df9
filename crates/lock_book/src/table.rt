//! The table of a shelf: its words, its slots and the steps on them.
//!
//! Each value has one slot, which has the value while it is free, and a separate cache line of words, of which four are
//! used: the lock's (`lock_word`) and three of advice, `sleep_word` and the two of `news`. The lock's word is 0 while
//! the value is free, and else 1 + the number of the caller that has it, so that it names its holder. Who may change
//! which, and when:
//!
//! - the lock's word from 0 to 1 + a caller's number: only that caller, while it has no value, by a
//!   compare-and-exchange, which takes the value out of its slot (`Take`); if it finds another number it changes
//!   nothing (`TakeOnce` is the same step of a caller that will not wait);
//! - the value: only the caller that has it reads or writes it;
//! - the lock's word from that number to 0: only the caller that has the value, by a store after it applied its calls,
//!   which adds them to the history, each as one entry, and puts the value back (`Give`);
//! - the words of advice: anybody, by `Advise`. `sleep_word` is set to 1 before a caller sleeps on it, and to 0 before
//!   a caller wakes a sleeper; those of `news` are counts. No clause rests on them: a wrong one costs time, and never
//!   an answer.
//!
//! `named` of specs/Ruled says what a caller may store in a lock's word. There is no queue: a caller that found the
//! value taken reads the word until it is 0, backs off in between (`Backoff`), tries again, and after some rounds
//! sleeps. A look (`Look`) is a load that changes nothing but what the caller knows. Passes are cut off and joined by
//! `Callers`, and learn by `Note` what others have seen. The rule is `Ruled` of specs/Ruled.

ghost use Rattle.lock_book.specs.History.{made_of};
ghost use Rattle.lock_book.specs.Ruled.{Ruled, newcomers, tried, tried_once, given_back, advised, looked, first_caller, other_callers, note, informed, together, nobody};

use crate::Kept;
use crate::noted::Noted;
use crate::view::{Entry, View};
use atomic_table::{Join, Play, Seat, Split, Table, TableRule};
use std::alloc::Global;
use std::collections::LinkedList;

/// The calls of a turn so far, in order, each as the entry that it is going to be; None before the first. It is how the
/// store that gives a value back learns which calls it adds to the history, since a step on a word is given only
/// numbers, and sees the slot. The caller that has the value writes it, as it applies its calls; the step `Give` reads
/// the entries off it (`made_of`), and nothing else does. Only clauses read what is in it, so it has no bytes but the tag.
pub type ThisTurn<S, C, R> = Option<Noted<LinkedList<Entry<S, C, R>>>>;

/// A locked value, with its turn so far, or with the last one while nobody has it.
#[derive(Drop)]
pub struct Slot<T, S, C, R> {
    pub value: T,
    pub made: ThisTurn<S, C, R>,
}

/// The slot of a kept type.
pub type Held<T> = Slot<T, <T as Kept>::State, <T as Kept>::Call, <T as Kept>::Reply>;

/// The view of a kept type's seats.
pub type Known<T> = View<
    <T as Kept>::Name,
    <T as Kept>::State,
    <T as Kept>::Call,
    <T as Kept>::Reply,
>;

/// The name and the opening state of each value, in order.
pub type Opens<T> = LinkedList<(<T as Kept>::Name, <T as Kept>::State)>;

/// What the table is given when it is made: how the values open, and how many callers there are.
pub type About<T> = (Noted<Opens<T>>, u32);

/// The rule of the table.
pub struct Turns;

impl<T: Kept> TableRule<Held<T>, Known<T>, About<T>> for Turns {
    ghost holds = { λ k. Ruled (λ x. T.name x.value) (λ x. T.state x.value) T.legal k.0.value k.1 };

    ghost first = { λ k. newcomers k.0.value k.1 };
}

/// The value is taken, or was not free.
pub struct Take;

impl<T: Kept> Play<Held<T>, Known<T>> for Take {
    ghost then = { tried (λ x. T.name x.value) (λ x. T.state x.value) T.legal };
}

/// The value is taken, or was not free, and then the try is counted.
pub struct TakeOnce;

impl<T: Kept> Play<Held<T>, Known<T>> for TakeOnce {
    ghost then = { tried_once (λ x. T.name x.value) (λ x. T.state x.value) T.legal };
}

/// The calls of the turn go into the history, and the value goes back.
pub struct Give;

impl<T: Kept> Play<Held<T>, Known<T>> for Give {
    ghost then = { given_back (λ x. made_of x.made) };
}

/// A word of advice is stored, and nothing else is changed.
pub struct Advise;

impl<T: Kept> Play<Held<T>, Known<T>> for Advise {
    ghost then = { advised };
}

/// What was seen and what was learnt of are put together.
pub struct Look;

impl<T: Kept> Play<Held<T>, Known<T>> for Look {
    ghost then = { looked (λ x. T.name x.value) (λ x. T.state x.value) T.legal };
}

/// The first caller is cut off, or joined again.
pub struct Callers;

impl<N, S, C, R> Split<View<N, S, C, R>> for Callers {
    ghost left = { first_caller };

    ghost right = { other_callers };
}

impl<N, S, C, R> Join<View<N, S, C, R>> for Callers {
    ghost both = { together };

    ghost spent = { nobody };
}

/// A seat that knows as much and represents nobody.
pub struct Note;

impl<N, S, C, R> Split<View<N, S, C, R>> for Note {
    ghost left = { λ v. v };

    ghost right = { note };
}

impl<N, S, C, R> Join<View<N, S, C, R>> for Note {
    ghost both = { informed };

    ghost spent = { nobody };
}

/// How many words a value has: a cache line's, so that no two locks are on one line.
pub(crate) const WORDS_OF_VALUE: usize = 8;

/// The table of a shelf.
pub type Board<T> = Table<Held<T>, Known<T>, About<T>, Turns, Global>;

/// A seat at it.
pub type Place<T> = Seat<Held<T>, Known<T>>;
