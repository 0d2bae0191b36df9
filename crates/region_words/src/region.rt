//! The region: the table that holds the words, and the only way to its steps. Its words and tokens are always those of
//! a run of the rule.
//!
//! The table has a slot and a word for each word of the region. A word that one token owns, and a cell of a ring, lies
//! in its slot, which is plain memory: a token takes the slot out by a load of word 0, reads or writes it, and gives it
//! back by another load. The same two loads do for a row of slots, however long it is. What several tokens read at once,
//! frozen words and the counts and flags of rings, lies in the table's words. Word 0 is hardly ever stored: it is no
//! ring's count, since a chunk begins at word 1 or later.

ghost use Rattle.std.specs.Prelude.{List, [], ◌∷◌, ◌++◌, ◌≡◌, ℕ, suc, ◌+◌, ◌<◌, ◌≤◌, ◌^◌, cond, length, Option, Some, None, IfOk, IsSome, replicate};
ghost use mathlib.Core.Option.{none};
ghost use Rattle.atomic_table.specs.Table.{step, rest, turned, Allows, Splits, Joins};
ghost use Rattle.word_map.specs.WordMap.{at as word_at, is_within};
ghost use Rattle.region_rule.specs.View.{Own};
ghost use Rattle.region_rule.specs.Places.{Ruled, MayTake, IsIdle, copying, out_of, row_out};
ghost use Rattle.region_words.specs.Parts.{own_map, IsSized};

use crate::part::Part;
use atomic_table::{Join, Play, Refused, Seat, Shared, Split, Table};
use region_rule::{Copies, Known, Range, RegionRule, TakesOut, TakesRowOut};
use std::alloc::{AllocError, Global};
use std::marker::{Brand, Model};
use std::sync::Wait;
use std::time::Duration;
use twin_table::Twin;

/// A fixed array of words that all threads see. Contracts see which one it is, with the number of its words.
#[derive(Drop)]
pub struct Region {
    place: Place,
}

/// Where a region's table lies: in memory that it allocated, or in memory that was given to it for good.
#[derive(Drop)]
pub(crate) enum Place {
    /// Its own memory, which is freed with it.
    Own(Table<u64, Known, usize, RegionRule, Global>),
    /// Given memory, at this process's address of it.
    Given(Twin<u64, Known, usize, RegionRule>),
}

impl Model for Region {
    ghost use Rattle.std.specs.Prelude.{◌≡◌};
    ghost use Rattle.atomic_table.specs.Seated.{TableId, table_id_coded};
    ghost use Rattle.region_words.specs.Parts.{IsSized};
    ghost use Rattle.region_words.specs.Places.{place_id, place_key};

    ghost Value = { TableId };

    ghost coded = { table_id_coded };

    ghost view = { λ r. place_id r.place };

    ghost invariant = { λ r. IsSized (place_id r.place) × (place_key r.place ≡ (place_id r.place).words) };
}

/// The given number of zeros.
fn zeros(alloc: Global, count: usize) -> Result<Vec<u64>, AllocError>
    ensures { IfOk result (λ v. v.items ≡ replicate count 0) }
{
    vec![in alloc; 0u64; count]
}

impl Region {
    /// The table.
    #[inline]
    fn shared(&self) -> &Shared<u64, Known, usize, RegionRule>
        ensures id { result.now.table_id ≡ self.now }
        ensures sized { IsSized result.now.table_id }
        ensures key { result.now.key ≡ result.now.table_id.words }
    {
        match &self.place {
            Place::Own(table) => &table.shared,
            Place::Given(twin) => twin.shared(),
        }
    }

    /// A region of the given number of words, all 0, and the part that owns all of them. It takes 16 bytes a word, and
    /// 16 more a word while it is made.
    pub fn new(alloc: Global, words: usize) -> Result<(Region, Part), AllocError>
        requires { (1 ≤ words) × (words ≤ 2 ^ 26) }
        ensures words { IfOk result (λ r. r.0.words ≡ words) }
        ensures region { IfOk result (λ r. r.1.region ≡ r.0) }
        ensures zeros { IfOk result (λ r. (k : ℕ) → word_at r.1.words k ≡ cond {A = Option ℕ} (is_within 0 words k) (Some 0) None) }
    {
        let row = zeros(alloc, words)?;
        let slots = zeros(alloc, words)?;
        let (table, seat) = match Table::new(alloc, row.as_slice(), slots, &words) {
            Ok(made) => made,
            Err(Refused { slots: _ }) => return Err(AllocError),
        };
        Ok((
            Region {
                place: Place::Own(table),
            },
            Part { seat },
        ))
    }

    /// The region whose words lie there. Letting it go changes nothing of them.
    pub fn at(table: Twin<u64, Known, usize, RegionRule>) -> Region
        requires sized { IsSized table.table_id }
        requires key { table.key ≡ table.table_id.words }
        ensures { result ≡ table.table_id }
    {
        Region {
            place: Place::Given(table),
        }
    }

    /// A load of the table's word by a token of any kind, for the crates that have their own kinds, such as the ends of
    /// a ring. The rule has to allow the step.
    #[inline]
    pub fn load_as<M: Play<u64, Known>>(&self, seat: &mut Seat<u64, Known>, at: u64) -> u64
        requires here { seat.old.table_id ≡ self.now }
        requires inside { at < self.now.words }
        requires allowed { Allows (Ruled self.now.words) self.now.slots seat.old.id seat.old.me at (λ n. n) (M.then (step self.now.slots at 0 0 none) seat.old.me) }
        ensures seat { (seat.new.table_id ≡ seat.old.table_id) × (seat.new.id ≡ seat.old.id) }
        ensures told { M.then (step self.now.slots at 0 0 none) seat.old.me result seat.new.me }
    {
        self.shared().load::<M>(seat, at as usize)
    }

    /// A store in the table's word by a token of any kind.
    #[inline]
    pub fn store_as<M: Play<u64, Known>>(&self, seat: &mut Seat<u64, Known>, at: u64, value: u64)
        requires here { seat.old.table_id ≡ self.now }
        requires inside { at < self.now.words }
        requires allowed { Allows (Ruled self.now.words) self.now.slots seat.old.id seat.old.me at (λ _. value) (λ _. M.then (step self.now.slots at value 0 none) seat.old.me value) }
        ensures seat { (seat.new.table_id ≡ seat.old.table_id) × (seat.new.id ≡ seat.old.id) }
        ensures told { M.then (step self.now.slots at value 0 none) seat.old.me value seat.new.me }
    {
        self.shared().store::<M>(seat, at as usize, value);
    }

    /// A load of the table's word by no token, which tells nothing.
    #[inline]
    pub fn peek(&self, at: u64) -> u64
        requires inside { at < self.now.words }
    {
        self.shared().peek(at as usize)
    }

    /// Sleeps if the low 32 bits of the table's word are `expected`, until a wake, and for no longer than `time`. It may
    /// also return for no reason.
    pub fn park_timeout<R: Wait>(&self, rt: &R, at: u64, expected: u32, time: Duration)
        requires inside { at < self.now.words }
    {
        self.shared().park_timeout(rt, at as usize, expected, time);
    }

    /// Wakes one thread that sleeps on the table's word, if there is one.
    pub fn wake_one(&self, at: u64)
        requires inside { at < self.now.words }
    {
        self.shared().wake_one(at as usize);
    }

    /// The value of a word that lies in its slot, by a token of any kind: two loads of word 0, of which the second
    /// gives the slot back as the step `M`, and a plain load between them. The token may take the slot, and has not
    /// copied the word.
    #[inline]
    pub fn load_slot_as<M: Play<u64, Known>>(&self, seat: &mut Seat<u64, Known>, at: u64) -> u64
        requires here { seat.old.table_id ≡ self.now }
        requires inside { at < self.now.words }
        requires rests { seat.old.me ≡ (copying seat.old.me.0.view seat.old.me.0.from seat.old.me.0.copied, []) }
        requires may { MayTake seat.old.me.0.view at }
        requires fresh { seat.old.me.0.from ≤ at → at < seat.old.me.0.from + seat.old.me.0.copied → ⊥ }
        requires allowed { (x : ℕ) → Allows (Ruled self.now.words) self.now.slots seat.old.id (out_of seat.old.me.0 at x x) 0 (λ n. n) (M.then (step self.now.slots 0 0 0 none) (out_of seat.old.me.0 at x x)) }
        ensures seat { (seat.new.table_id ≡ seat.old.table_id) × (seat.new.id ≡ seat.old.id) }
        ensures told { (n : ℕ) × M.then (step self.now.slots 0 0 0 none) (out_of seat.old.me.0 at result result) n seat.new.me }
    {
        self.load_slot_at::<M, Brand>(seat, at)
    }

    /// The same for the slot that `J` names, since a step can't take it as an argument.
    #[inline]
    fn load_slot_at<M: Play<u64, Known>, J: Range>(
        &self,
        seat: &mut Seat<u64, Known>,
        at: u64,
    ) -> u64
        requires here { seat.old.table_id ≡ self.now }
        requires inside { at < self.now.words }
        requires rests { seat.old.me ≡ (copying seat.old.me.0.view seat.old.me.0.from seat.old.me.0.copied, []) }
        requires may { MayTake seat.old.me.0.view at }
        requires fresh { seat.old.me.0.from ≤ at → at < seat.old.me.0.from + seat.old.me.0.copied → ⊥ }
        requires allowed { (x : ℕ) → Allows (Ruled self.now.words) self.now.slots seat.old.id (out_of seat.old.me.0 at x x) 0 (λ n. n) (M.then (step self.now.slots 0 0 0 none) (out_of seat.old.me.0 at x x)) }
        requires place { J.from ≡ at }
        ensures seat { (seat.new.table_id ≡ seat.old.table_id) × (seat.new.id ≡ seat.old.id) }
        ensures told { (n : ℕ) × M.then (step self.now.slots 0 0 0 none) (out_of seat.old.me.0 at result result) n seat.new.me }
    {
        let table = self.shared();
        table.load::<TakesOut<J>>(seat, 0);
        let value = *seat.slot_mut(table, at as usize);
        table.load::<M>(seat, 0);
        value
    }

    /// Changes a word that lies in its slot, by a token of any kind: two loads of word 0, of which the second gives the
    /// slot back as the step `M`, and a plain store between them.
    #[inline]
    pub fn store_slot_as<M: Play<u64, Known>>(
        &self,
        seat: &mut Seat<u64, Known>,
        at: u64,
        value: u64,
    )
        requires here { seat.old.table_id ≡ self.now }
        requires inside { at < self.now.words }
        requires rests { seat.old.me ≡ (copying seat.old.me.0.view seat.old.me.0.from seat.old.me.0.copied, []) }
        requires may { MayTake seat.old.me.0.view at }
        requires fresh { seat.old.me.0.from ≤ at → at < seat.old.me.0.from + seat.old.me.0.copied → ⊥ }
        requires allowed { (x : ℕ) → Allows (Ruled self.now.words) self.now.slots seat.old.id (out_of seat.old.me.0 at x value) 0 (λ n. n) (M.then (step self.now.slots 0 0 0 none) (out_of seat.old.me.0 at x value)) }
        ensures seat { (seat.new.table_id ≡ seat.old.table_id) × (seat.new.id ≡ seat.old.id) }
        ensures told { (n : ℕ) × (x : ℕ) × M.then (step self.now.slots 0 0 0 none) (out_of seat.old.me.0 at x value) n seat.new.me }
    {
        self.store_slot_at::<M, Brand>(seat, at, value);
    }

    /// The same for the slot that `J` names, since a step can't take it as an argument.
    #[inline]
    fn store_slot_at<M: Play<u64, Known>, J: Range>(
        &self,
        seat: &mut Seat<u64, Known>,
        at: u64,
        value: u64,
    )
        requires here { seat.old.table_id ≡ self.now }
        requires inside { at < self.now.words }
        requires rests { seat.old.me ≡ (copying seat.old.me.0.view seat.old.me.0.from seat.old.me.0.copied, []) }
        requires may { MayTake seat.old.me.0.view at }
        requires fresh { seat.old.me.0.from ≤ at → at < seat.old.me.0.from + seat.old.me.0.copied → ⊥ }
        requires allowed { (x : ℕ) → Allows (Ruled self.now.words) self.now.slots seat.old.id (out_of seat.old.me.0 at x value) 0 (λ n. n) (M.then (step self.now.slots 0 0 0 none) (out_of seat.old.me.0 at x value)) }
        requires place { J.from ≡ at }
        ensures seat { (seat.new.table_id ≡ seat.old.table_id) × (seat.new.id ≡ seat.old.id) }
        ensures told { (n : ℕ) × (x : ℕ) × M.then (step self.now.slots 0 0 0 none) (out_of seat.old.me.0 at x value) n seat.new.me }
    {
        let table = self.shared();
        table.load::<TakesOut<J>>(seat, 0);
        table.exchange(seat, at as usize, value);
        table.load::<M>(seat, 0);
    }

    /// Takes out a row of slots, by a token of any kind that has none out: one load of word 0, however many they are. The
    /// token may take them. The first is in front, and a step of the token's own gives them back.
    #[inline]
    pub fn take_row(&self, seat: &mut Seat<u64, Known>, at: u64, words: u64)
        requires here { seat.old.table_id ≡ self.now }
        requires inside { at + words ≤ self.now.words }
        requires rests { IsIdle seat.old.me seat.old.me.0.view }
        requires may { (k : ℕ) → at ≤ k → k < at + words → MayTake seat.old.me.0.view k }
        ensures seat { (seat.new.table_id ≡ seat.old.table_id) × (seat.new.id ≡ seat.old.id) }
        ensures out { (xs : List ℕ) × (length xs ≡ words) × (seat.new.me ≡ row_out seat.old.me.0.view at xs xs) }
    {
        self.take_row_at::<Brand>(seat, at, words);
    }

    /// The same for the row that `J` names, since a step can't take it as an argument.
    #[inline]
    fn take_row_at<J: Range>(&self, seat: &mut Seat<u64, Known>, at: u64, words: u64)
        requires here { seat.old.table_id ≡ self.now }
        requires inside { at + words ≤ self.now.words }
        requires rests { IsIdle seat.old.me seat.old.me.0.view }
        requires may { (k : ℕ) → at ≤ k → k < at + words → MayTake seat.old.me.0.view k }
        requires range { (J.from ≡ at) × (J.len ≡ words) }
        ensures seat { (seat.new.table_id ≡ seat.old.table_id) × (seat.new.id ≡ seat.old.id) }
        ensures out { (xs : List ℕ) × (length xs ≡ words) × (seat.new.me ≡ row_out seat.old.me.0.view at xs xs) }
    {
        let _ = (at, words);
        let table = self.shared();
        table.load::<TakesRowOut<J>>(seat, 0);
    }

    /// The value of the slot in front, which then goes behind the others: a plain load.
    #[inline]
    pub fn read_front(&self, seat: &mut Seat<u64, Known>, at: u64) -> u64
        requires here { seat.old.table_id ≡ self.now }
        requires front { (x : ℕ) × (seat.old.me.1 ≡ (at, x) ∷ rest seat.old.me.1) }
        ensures seat { (seat.new.table_id ≡ seat.old.table_id) × (seat.new.id ≡ seat.old.id) }
        ensures found { seat.old.me.1 ≡ (at, result) ∷ rest seat.old.me.1 }
        ensures turned { seat.new.me ≡ (seat.old.me.0, turned seat.old.me.1) }
    {
        let value = *seat.slot_mut(self.shared(), at as usize);
        seat.turn();
        value
    }

    /// Changes the slot in front, which then goes behind the others: a plain store.
    #[inline]
    pub fn write_front(&self, seat: &mut Seat<u64, Known>, at: u64, word: u64)
        requires here { seat.old.table_id ≡ self.now }
        requires front { (x : ℕ) × (seat.old.me.1 ≡ (at, x) ∷ rest seat.old.me.1) }
        ensures seat { (seat.new.table_id ≡ seat.old.table_id) × (seat.new.id ≡ seat.old.id) }
        ensures turned { seat.new.me ≡ (seat.old.me.0, rest seat.old.me.1 ++ (at, word) ∷ []) }
    {
        self.shared().exchange(seat, at as usize, word);
        seat.turn();
    }

    /// Copies the next word of an owner from its slot to the table's word of its number. `J` names the slot.
    #[inline]
    pub(crate) fn copy_word_at<J: Range>(&self, seat: &mut Seat<u64, Known>, at: u64)
        requires here { seat.old.table_id ≡ self.now }
        requires inside { at < self.now.words }
        requires owns { seat.old.me ≡ (copying (Own (own_map seat.old.me.0.view) None) seat.old.me.0.from seat.old.me.0.copied, []) }
        requires has { IsSome (word_at (own_map seat.old.me.0.view) at) }
        requires next { at ≡ seat.old.me.0.from + seat.old.me.0.copied }
        requires place { J.from ≡ at }
        ensures seat { (seat.new.table_id ≡ seat.old.table_id) × (seat.new.id ≡ seat.old.id) }
        ensures copied { seat.new.me ≡ (copying seat.old.me.0.view seat.old.me.0.from (suc seat.old.me.0.copied), []) }
    {
        let table = self.shared();
        table.load::<TakesOut<J>>(seat, 0);
        let value = *seat.slot_mut(table, at as usize);
        table.store::<Copies>(seat, at as usize, value);
    }

    /// Cuts a new token off one of any kind.
    #[inline]
    pub fn split_as<M: Split<Known>>(&self, seat: &mut Seat<u64, Known>) -> Seat<u64, Known>
        requires here { seat.old.table_id ≡ self.now }
        requires allowed { Splits (Ruled self.now.words) seat.old.id seat.old.me.0 (M.left seat.old.me.0) (M.right seat.old.me.0) }
        ensures seat { (seat.new.table_id ≡ seat.old.table_id) × (seat.new.id ≡ seat.old.id) }
        ensures left { seat.new.me ≡ (M.left seat.old.me.0, seat.old.me.1) }
        ensures right { (result.table_id ≡ seat.old.table_id) × (result.me ≡ (M.right seat.old.me.0, [])) }
    {
        self.shared().split_seat::<M>(seat)
    }

    /// Joins a token of any kind to another.
    #[inline]
    pub fn join_as<M: Join<Known>>(&self, seat: &mut Seat<u64, Known>, other: Seat<u64, Known>)
        requires here { seat.old.table_id ≡ self.now }
        requires other { (other.table_id ≡ self.now) × (other.me.1 ≡ []) }
        requires allowed { Joins (Ruled self.now.words) seat.old.id seat.old.me.0 other.id other.me.0 (M.both seat.old.me.0 other.me.0) M.spent }
        ensures seat { (seat.new.table_id ≡ seat.old.table_id) × (seat.new.id ≡ seat.old.id) }
        ensures both { seat.new.me ≡ (M.both seat.old.me.0 other.me.0, seat.old.me.1) }
    {
        self.shared().join_seat::<M>(seat, other);
    }
}
