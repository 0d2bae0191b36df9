//! A part: words that one holder owns. Only a `&mut Part` reads or changes them, so what it reads is what it stored.

ghost use Rattle.std.specs.Prelude.{[], None, ◌≡◌, ℕ, suc, ◌+◌, ◌*◌, ◌<◌, ◌≤◌, ◌^◌, Some, IsSome};
ghost use Rattle.std.specs.FinMap as fin;
ghost use Rattle.word_map.specs.WordMap.{at as word_at, range_of, rest_of, union, Disjoint, HasJust};
ghost use Rattle.region_rule.specs.View.{Own};
ghost use Rattle.region_rule.specs.Places.{idle, copying};
ghost use Rattle.region_words.specs.Parts.{owned, own_map, IsBelow, IsSized};

use crate::chunk::Chunk;
use crate::frozen::Frozen;
use crate::region::Region;
use atomic_table::Seat;
use region_rule::{Begins, Cuts, Freezes, Glues, Known, Learns, Loads, Range, Stores};
use std::marker::{Brand, Model};

/// A token that owns some words of a region. Contracts see its region and the map from its words' numbers to their
/// values. It has no bytes; if it is dropped nobody can reach its words any more.
#[derive(Drop)]
pub struct Part {
    pub(crate) seat: Seat<u64, Known>,
}

impl Model for Part {
    ghost use Rattle.region_words.specs.Parts.{Owned, owned_code, owned, own_map, IsPart};

    ghost Value = { Owned };

    ghost coded = { owned_code };

    ghost view = { λ p. owned p.seat.table_id (own_map p.seat.me.0.view) };

    ghost invariant = { λ p. IsPart p.seat.table_id p.seat.me };
}

impl Part {
    /// The value of a word: a plain load, between two loads of the table's word 0.
    #[inline]
    pub fn load(&mut self, r: &Region, at: u64) -> u64
        requires here { self.old.region ≡ r.now }
        requires owns { IsSome (word_at self.old.words at) }
        ensures found { word_at self.old.words at ≡ Some result }
        ensures same { self.new ≡ self.old }
    {
        r.load_slot_as::<Loads>(&mut self.seat, at)
    }

    /// Changes a word: a plain store, between two loads of the table's word 0.
    #[inline]
    pub fn store(&mut self, r: &Region, at: u64, value: u64)
        requires here { self.old.region ≡ r.now }
        requires owns { IsSome (word_at self.old.words at) }
        ensures { self.new ≡ owned self.old.region (fin.insert self.old.words at value) }
    {
        r.store_slot_as::<Stores>(&mut self.seat, at, value);
    }

    /// The new part has the `len` words from `from`, and this one keeps the others.
    pub fn split(&mut self, r: &Region, from: u64, len: u64) -> Part
        requires here { self.old.region ≡ r.now }
        requires owns { (k : ℕ) → from ≤ k → k < from + len → IsSome (word_at self.old.words k) }
        ensures rest { self.new ≡ owned self.old.region (rest_of self.old.words from len) }
        ensures range { result ≡ owned self.old.region (range_of self.old.words from len) }
    {
        self.cut::<Brand>(r, from, len)
    }

    /// The same for the range that `J` names, since a cut can't take it as an argument.
    fn cut<J: Range>(&mut self, r: &Region, from: u64, len: u64) -> Part
        requires here { self.old.region ≡ r.now }
        requires range { (J.from ≡ from) × (J.len ≡ len) }
        ensures rest { self.new ≡ owned self.old.region (rest_of self.old.words J.from J.len) }
        ensures range { result ≡ owned self.old.region (range_of self.old.words J.from J.len) }
    {
        let _ = (from, len);
        Part {
            seat: r.split_as::<Cuts<J>>(&mut self.seat),
        }
    }

    /// The chunk of the `len` words from the valid place `from`; this part keeps the others. It costs what a split
    /// does.
    pub fn split_chunk(&mut self, r: &Region, from: u64, len: u64) -> Chunk
        requires here { self.old.region ≡ r.now }
        requires valid { 0 < from }
        requires owns { (k : ℕ) → from ≤ k → k < from + len → IsSome (word_at self.old.words k) }
        ensures rest { self.new ≡ owned self.old.region (rest_of self.old.words from len) }
        ensures place { (result.at ≡ from) × (result.bytes ≡ 8 * len) }
        ensures words { result.part ≡ owned self.old.region (range_of self.old.words from len) }
    {
        Chunk::of(self.split(r, from, len), from, len)
    }

    /// This part has the words of both, which had none in common.
    pub fn join(&mut self, r: &Region, other: Part)
        requires here { self.old.region ≡ r.now }
        requires other_here { other.region ≡ r.now }
        ensures both { self.new ≡ owned self.old.region (union self.old.words other.words) }
        ensures apart { Disjoint self.old.words other.words }
    {
        let Part { seat } = other;
        r.join_as::<Glues>(&mut self.seat, seat);
        r.load_as::<Learns>(&mut self.seat, 0);
    }

    /// From now on no word of the part changes, and it can be shared. Its words lie in a row, the `len` from `from`: each
    /// is stored once, where many tokens can read it.
    pub fn freeze(self, r: &Region, from: u64, len: u64) -> Frozen
        requires here { self.region ≡ r.now }
        requires row { HasJust self.words from len }
        ensures { result ≡ self }
    {
        let mut seat = self.into_copied_seat(r, from, len);
        r.load_as::<Freezes>(&mut seat, 0);
        Frozen { seat }
    }

    /// Tells that each word's number is below 2^26, so that places can be added up. It does nothing.
    #[inline]
    pub fn is_small(&self)
        ensures { (k : ℕ) → IsSome (word_at self.now.words k) → k < 2 ^ 26 }
    {
        let _ = &self.seat;
    }

    /// The token of the part, for a crate that makes one of another kind of it.
    pub fn into_seat(self) -> Seat<u64, Known>
        ensures region { result.table_id ≡ self.region }
        ensures owns { result.me ≡ (idle (Own self.words None), []) }
        ensures below { IsBelow self.words self.region.words }
        ensures sized { IsSized self.region }
    {
        let Part { seat } = self;
        seat
    }

    /// The token of the part, which has copied the `len` words from `from` to the table's words, for a crate that makes
    /// one of a kind that looks for them there. A store a word.
    pub fn into_copied_seat(self, r: &Region, from: u64, len: u64) -> Seat<u64, Known>
        requires here { self.region ≡ r.now }
        requires owns { (k : ℕ) → from ≤ k → k < from + len → IsSome (word_at self.words k) }
        ensures region { result.table_id ≡ self.region }
        ensures copied { result.me ≡ (copying (Own self.words None) from len, []) }
        ensures below { IsBelow self.words self.region.words }
        ensures sized { IsSized self.region }
    {
        self.is_small();
        let mut seat = self.begin::<Brand>(r, from);
        for i in 0..len {
            copy_word(r, &mut seat, from + i);
        }
        seat
    }

    /// The token of the part, which is to copy words from the one that `J` names on.
    fn begin<J: Range>(self, r: &Region, from: u64) -> Seat<u64, Known>
        requires here { self.region ≡ r.now }
        requires range { J.from ≡ from }
        ensures region { result.table_id ≡ self.region }
        ensures begun { result.me ≡ (copying (Own self.words None) from 0, []) }
        ensures below { IsBelow self.words self.region.words }
        ensures sized { IsSized self.region }
    {
        let _ = from;
        let Part { mut seat } = self;
        r.load_as::<Begins<J>>(&mut seat, 0);
        seat
    }

    /// The part of a token that owns its words, for a crate that has made one.
    pub fn of_seat(seat: Seat<u64, Known>) -> Part
        requires owns { seat.me ≡ (idle (Own (own_map seat.me.0.view) None), []) }
        requires below { IsBelow (own_map seat.me.0.view) seat.table_id.words }
        requires sized { IsSized seat.table_id }
        ensures { result ≡ owned seat.table_id (own_map seat.me.0.view) }
    {
        Part { seat }
    }
}

/// Copies the next word.
#[inline]
fn copy_word(r: &Region, seat: &mut Seat<u64, Known>, at: u64)
    requires here { seat.old.table_id ≡ r.now }
    requires inside { at < r.now.words }
    requires owns { seat.old.me ≡ (copying (Own (own_map seat.old.me.0.view) None) seat.old.me.0.from seat.old.me.0.copied, []) }
    requires has { IsSome (word_at (own_map seat.old.me.0.view) at) }
    requires next { at ≡ seat.old.me.0.from + seat.old.me.0.copied }
    ensures seat { (seat.new.table_id ≡ seat.old.table_id) × (seat.new.id ≡ seat.old.id) }
    ensures copied { seat.new.me ≡ (copying seat.old.me.0.view seat.old.me.0.from (suc seat.old.me.0.copied), []) }
{
    r.copy_word_at::<Brand>(seat, at);
}
