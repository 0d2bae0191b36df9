//! The kinds of step, in the form that a table takes them: what the token learns by each, and what a cut and a join
//! leave.
//!
//! A word in a slot is loaded or stored in two steps of the table: `TakesOut` takes the slot, which is no step of the
//! region, and a second step gives it back, which is the region's load or store. Between the two the slot is plain
//! memory. `TakesRowOut` takes the slots of a row by one step, and a second one gives all of them back, which is as many
//! loads or stores.

ghost use Rattle.std.specs.Prelude.{◌≡◌, ℕ, suc, List, [], ◌∷◌, length};
ghost use Rattle.ring_rule.specs.Ring.{Ring};
ghost use Rattle.region_rule.specs.View.{Spent};
ghost use Rattle.region_rule.specs.Places.{idle, copying, taking, row_out, front_place, front_value, values, IsIdle};
ghost use Rattle.region_rule.specs.Tells.{TellsApart, TellsCount, TellsLoad, TellsStore, TellsLookRead, TellsPut, TellsPutRow, TellsPublish, TellsLookWritten, TellsTake, TellsTakeRow, TellsGiveBack, TellsFreeze, TellsFrozen, TellsDone, TellsEnd, TellsLeave, TellsFlag, sender_view, receiver_view, done_view, gathered_view, sender_again, receiver_again, rest_view, range_view, both_view};

use crate::rule::Known;
use atomic_table::{Join, Play, Split};
use std::marker::{Brand, PhantomData};

/// Which words are meant. A call chooses them.
pub trait Range {
    ghost from: { ℕ };

    ghost len: { ℕ };
}

impl Range for Brand {
    ghost from = { 0 };

    ghost len = { 0 };
}

/// A load that takes out the slot `from`, which is then the seat's.
pub struct TakesOut<J> {
    range: PhantomData<J>,
}

impl<J: Range> Play<u64, Known> for TakesOut<J> {
    ghost then = { λ step before found after. (x : ℕ) × (after ≡ (taking before.0.view J.from x before.0.from before.0.copied, (J.from, x) ∷ [])) };
}

/// A load that takes out the `len` slots from `from` on, which are then the seat's, the first of them in front.
pub struct TakesRowOut<J> {
    range: PhantomData<J>,
}

impl<J: Range> Play<u64, Known> for TakesRowOut<J> {
    ghost then = { λ step before found after. (xs : List ℕ) × (length xs ≡ J.len) × (after ≡ row_out before.0.view J.from xs xs) };
}

/// A load of a word by its owner: a step that gives its slot back as it was.
pub struct Loads;

impl Play<u64, Known> for Loads {
    ghost then = { λ step before found after. TellsLoad before.0.view (front_place before.1) (front_value before.1) after.0.view × IsIdle after after.0.view };
}

/// A store in a word by its owner: a step that gives its slot back with another value.
pub struct Stores;

impl Play<u64, Known> for Stores {
    ghost then = { λ step before found after. TellsStore before.0.view (front_place before.1) (front_value before.1) after.0.view × IsIdle after after.0.view };
}

/// A load by which a token begins to copy words, from the word `from` on.
pub struct Begins<J> {
    range: PhantomData<J>,
}

impl<J: Range> Play<u64, Known> for Begins<J> {
    ghost then = { λ step before found after. after ≡ (copying before.0.view J.from 0, []) };
}

/// A step by which a token that copies words has copied one more, and which gives the slot back: an owner stores the
/// slot's value in the table's word, joined ends have the word's value in the slot.
pub struct Copies;

impl Play<u64, Known> for Copies {
    ghost then = { λ step before found after. after ≡ (copying before.0.view before.0.from (suc before.0.copied), []) };
}

/// An owner keeps all but a range of its words, and a new token owns that range.
pub struct Cuts<J> {
    range: PhantomData<J>,
}

impl<J: Range> Split<Known> for Cuts<J> {
    ghost left = { λ t. idle (rest_view J.from J.len t.view) };

    ghost right = { λ t. idle (range_view J.from J.len t.view) };
}

/// An owner takes in another.
pub struct Glues;

impl Join<Known> for Glues {
    ghost both = { λ t u. idle (both_view t.view u.view) };

    ghost spent = { idle Spent };
}

/// A load by an owner that was joined to another: it learns that they had no word in common.
pub struct Learns;

impl Play<u64, Known> for Learns {
    ghost then = { λ step before found after. TellsApart before.0.view after.0.view × IsIdle after after.0.view };
}

/// A load of the read count by the sender.
pub struct LooksRead;

impl Play<u64, Known> for LooksRead {
    ghost then = { λ step before found after. TellsLookRead before.0.view found after.0.view × IsIdle after after.0.view };
}

/// A store of a word of the ring by the sender: a step that gives the slot of its cell back.
pub struct Puts;

impl Play<u64, Known> for Puts {
    ghost then = { λ step before found after. TellsPut before.0.view (front_value before.1) after.0.view × IsIdle after after.0.view };
}

/// A store of several words of the ring by the sender: a step that gives the slots of their cells back.
pub struct PutsRow;

impl Play<u64, Known> for PutsRow {
    ghost then = { λ step before found after. TellsPutRow before.0.view (values before.1) after.0.view × IsIdle after after.0.view };
}

/// A store of the written count by the sender.
pub struct Publishes;

impl Play<u64, Known> for Publishes {
    ghost then = { λ step before found after. TellsPublish before.0.view after.0.view × IsIdle after after.0.view };
}

/// A load of the written count by the receiver.
pub struct LooksWritten;

impl Play<u64, Known> for LooksWritten {
    ghost then = { λ step before found after. TellsLookWritten before.0.view found after.0.view × IsIdle after after.0.view };
}

/// A load of a word of the ring by the receiver: a step that gives the slot of its cell back as it was.
pub struct Takes;

impl Play<u64, Known> for Takes {
    ghost then = { λ step before found after. TellsTake before.0.view (front_value before.1) after.0.view × IsIdle after after.0.view };
}

/// A load of several words of the ring by the receiver: a step that gives the slots of their cells back as they were.
pub struct TakesRow;

impl Play<u64, Known> for TakesRow {
    ghost then = { λ step before found after. TellsTakeRow before.0.view (values before.1) after.0.view × IsIdle after after.0.view };
}

/// A store of the read count by the receiver.
pub struct GivesBack;

impl Play<u64, Known> for GivesBack {
    ghost then = { λ step before found after. TellsGiveBack before.0.view after.0.view × IsIdle after after.0.view };
}

/// A load by an owner that has copied its words, which freezes them.
pub struct Freezes;

impl Play<u64, Known> for Freezes {
    ghost then = { λ step before found after. TellsFreeze before.0.view after.0.view × IsIdle after after.0.view };
}

/// A load of a frozen word.
pub struct LoadsFrozen;

impl Play<u64, Known> for LoadsFrozen {
    ghost then = { λ step before found after. TellsFrozen before.0.view step.word found after.0.view × IsIdle after after.0.view };
}

/// Two tokens share frozen words.
pub struct Shares;

impl Split<Known> for Shares {
    ghost left = { λ t. t };

    ghost right = { λ t. t };
}

impl Join<Known> for Shares {
    ghost both = { λ t _. t };

    ghost spent = { idle Spent };
}

/// A token of frozen words takes in another.
pub struct Gathers;

impl Join<Known> for Gathers {
    ghost both = { λ t u. idle (gathered_view t.view u.view) };

    ghost spent = { idle Spent };
}

/// A load by joined ends.
pub struct LoadsDone;

impl Play<u64, Known> for LoadsDone {
    ghost then = { λ step before found after. TellsDone before.0.view after.0.view × IsIdle after after.0.view };
}

/// A load of a count or of the flag by joined ends.
pub struct LoadsCount;

impl Play<u64, Known> for LoadsCount {
    ghost then = { λ step before found after. TellsCount before.0.view step.word found × (after ≡ before) };
}

/// A load by joined ends that have copied their counts and their flag to the slots, after which they own the ring's
/// words.
pub struct Ends;

impl Play<u64, Known> for Ends {
    ghost then = { λ step before found after. TellsEnd before.0.view after.0.view × IsIdle after after.0.view };
}

/// A store of the flag by an end.
pub struct Leaves;

impl Play<u64, Known> for Leaves {
    ghost then = { λ step before found after. TellsLeave before.0.view after.0.view × IsIdle after after.0.view };
}

/// A load of the flag by an end.
pub struct LoadsFlag;

impl Play<u64, Known> for LoadsFlag {
    ghost then = { λ step before found after. TellsFlag before.0.view found after.0.view × IsIdle after after.0.view };
}

/// A store in the table's word of the number of a word that lies in its slot, such as a cell of a ring. It is no step of
/// the region: no token looks for a word there, and no rule says what is in it. So the ends of a ring may leave each
/// other advice there.
pub struct Advises;

impl Play<u64, Known> for Advises {
    ghost then = { λ step before found after. after ≡ before };
}

/// Which ring is made. A call chooses it.
pub trait Shape {
    ghost ring: { Ring };
}

impl Shape for Brand {
    ghost ring = { record { base = 0; size = 0; start = 0; max = 0 } };
}

/// An owner of just a ring, which has copied its counts and its flag, becomes its sender, and a new token its receiver.
pub struct Makes<J> {
    ring: PhantomData<J>,
}

impl<J: Shape> Split<Known> for Makes<J> {
    ghost left = { λ t. idle (sender_view J.ring t.view) };

    ghost right = { λ t. idle (receiver_view J.ring t.view) };
}

/// The two ends of a ring meet, and part again.
pub struct Meeting;

impl Join<Known> for Meeting {
    ghost both = { λ t u. idle (done_view t.view u.view) };

    ghost spent = { idle Spent };
}

impl Split<Known> for Meeting {
    ghost left = { λ t. idle (sender_again t.view) };

    ghost right = { λ t. idle (receiver_again t.view) };
}
