//! Runs of words, which are bytes of a message. The cells of a run lie in a row, or in two rows if it wraps around the
//! ring's end. An end takes the cells of a row out of the table by one load, whatever their number, and gives them back
//! by another; between the two they are plain memory. Words go eight bytes at a time. The last word of a message goes by
//! itself if the message ends within it, and so does each of a few words.

ghost use Rattle.std.specs.Prelude.{◌≡◌, ◌+◌, ◌*◌, ◌^◌, ◌<◌, ◌≤◌, ◌++◌, List, ℕ, false, length, slice_index, cond};
ghost use Rattle.std.specs.List.{fold, AllByRecursion};
ghost use Rattle.rel_pointer.specs.Bytes.{word_count, packed, byte_of, is_of_word};
ghost use Rattle.ring_rule.specs.Frames.{IsFramed};
ghost use Rattle.ring_rule.specs.Ring.{cell_of};
ghost use Rattle.ring_rule.specs.Ends.{puts, takes};
ghost use Rattle.region_rule.specs.Places.{row};
ghost use Rattle.mq_ring.specs.Bursts.{words_from, HasWords};

use crate::place::{cells_ahead, place_at};
use crate::receiver::RingRx;
use crate::sender::RingTx;
use atomic_table::Seat;
use region_rule::{Known, PutsRow, TakesRow};
use region_words::Region;
use rel_pointer::{pack, unpack};

/// With fewer words a row costs more than each word by itself.
const SHORTEST_ROW: u64 = 4;

impl RingTx {
    /// Stores the given number of words of the bytes, from word `from` on, one after the other. The receiver may take
    /// them once they are published. A plain store a word, and two loads of the table's word 0 a row.
    pub fn put_words(&mut self, r: &Region, bytes: &[u8], from: u64, words: u64)
        requires here { self.old.region ≡ r.now }
        requires stays { self.old.end.gone ≡ false }
        requires inside { from + words ≤ word_count (length bytes.now) }
        requires room { length self.old.end.put + words ≤ self.old.end.room + self.old.end.ring.size }
        requires framed { IsFramed self.old.end.ring.max (self.old.end.put ++ words_from from words bytes.now) }
        ensures { self.new ≡ record self.old { end = fold puts self.old.end (words_from from words bytes.now) } }
    {
        let whole = whole_words(bytes, from, words);
        self.put_whole(r, bytes, from, whole);
        for k in whole..words {
            self.put(r, pack(bytes, from + k));
        }
    }

    /// The same of words all of whose bytes are there.
    fn put_whole(&mut self, r: &Region, bytes: &[u8], from: u64, words: u64)
        requires here { self.old.region ≡ r.now }
        requires stays { self.old.end.gone ≡ false }
        requires inside { from + words ≤ word_count (length bytes.now) }
        requires whole { 0 < words → 8 * (from + words) ≤ length bytes.now }
        requires room { length self.old.end.put + words ≤ self.old.end.room + self.old.end.ring.size }
        requires framed { IsFramed self.old.end.ring.max (self.old.end.put ++ words_from from words bytes.now) }
        ensures { self.new ≡ record self.old { end = fold puts self.old.end (words_from from words bytes.now) } }
    {
        let mut done = 0;
        while done < words {
            let run = self.cells_ahead().min(words - done);
            self.put_row(r, bytes, from + done, run);
            done += run;
        }
    }

    /// How many cells lie in a row, from the next word's on.
    fn cells_ahead(&self) -> u64
        ensures ahead { cell_of self.now.end.ring (length self.now.end.put) + result ≡ self.now.end.ring.size }
        ensures some { 0 < result }
    {
        cells_ahead(self.site.size, self.position)
    }

    /// Stores words whose cells lie in a row, and all of whose bytes are there.
    fn put_row(&mut self, r: &Region, bytes: &[u8], from: u64, words: u64)
        requires here { self.old.region ≡ r.now }
        requires stays { self.old.end.gone ≡ false }
        requires inside { from + words ≤ word_count (length bytes.now) }
        requires whole { 8 * (from + words) ≤ length bytes.now }
        requires room { length self.old.end.put + words ≤ self.old.end.room + self.old.end.ring.size }
        requires row { cell_of self.old.end.ring (length self.old.end.put) + words ≤ self.old.end.ring.size }
        requires framed { IsFramed self.old.end.ring.max (self.old.end.put ++ words_from from words bytes.now) }
        ensures { self.new ≡ record self.old { end = fold puts self.old.end (words_from from words bytes.now) } }
    {
        let place = place_at(self.site.base, self.site.size, self.position);
        r.take_row(&mut self.seat, place, words);
        fill_row(r, &mut self.seat, place, bytes, from, words);
        r.load_as::<PutsRow>(&mut self.seat, 0);
        self.position = self.position.wrapping_add(words);
    }
}

impl RingRx {
    /// Takes the given number of words that were put, one after the other, and writes their bytes to `out` from word
    /// `from` on, as far as it has room for them. A plain load a word, and two loads of the table's word 0 a row.
    pub fn take_words(&mut self, r: &Region, out: &mut [u8], from: u64, words: u64)
        requires here { self.old.region ≡ r.now }
        requires stays { self.old.end.gone ≡ false }
        requires inside { from + words ≤ word_count (length out.old) }
        requires ready { length self.old.end.taken + words ≤ self.old.end.avail }
        ensures taken { (xs : List ℕ) × (length xs ≡ words) × (self.new ≡ record self.old { end = fold takes self.old.end xs }) × HasWords out.old out.new from xs }
        ensures framed { 0 < words → IsFramed self.old.end.ring.max self.new.end.taken }
        ensures len { length out.new ≡ length out.old }
    {
        let whole = whole_words(out, from, words);
        self.take_whole(r, out, from, whole);
        for k in whole..words {
            let word = self.take(r);
            unpack(word, out, from + k);
        }
    }

    /// The same of words for all of whose bytes there is room.
    fn take_whole(&mut self, r: &Region, out: &mut [u8], from: u64, words: u64)
        requires here { self.old.region ≡ r.now }
        requires stays { self.old.end.gone ≡ false }
        requires inside { from + words ≤ word_count (length out.old) }
        requires whole { 0 < words → 8 * (from + words) ≤ length out.old }
        requires ready { length self.old.end.taken + words ≤ self.old.end.avail }
        ensures taken { (xs : List ℕ) × (length xs ≡ words) × (self.new ≡ record self.old { end = fold takes self.old.end xs }) × HasWords out.old out.new from xs }
        ensures framed { 0 < words → IsFramed self.old.end.ring.max self.new.end.taken }
        ensures len { length out.new ≡ length out.old }
    {
        let mut done = 0;
        while done < words {
            let run = self.cells_ahead().min(words - done);
            self.take_row(r, out, from + done, run);
            done += run;
        }
    }

    /// How many cells lie in a row, from the next word's on.
    fn cells_ahead(&self) -> u64
        ensures ahead { cell_of self.now.end.ring (length self.now.end.taken) + result ≡ self.now.end.ring.size }
        ensures some { 0 < result }
    {
        cells_ahead(self.size, self.position)
    }

    /// Takes words whose cells lie in a row, and for all of whose bytes there is room.
    fn take_row(&mut self, r: &Region, out: &mut [u8], from: u64, words: u64)
        requires here { self.old.region ≡ r.now }
        requires stays { self.old.end.gone ≡ false }
        requires inside { from + words ≤ word_count (length out.old) }
        requires whole { 8 * (from + words) ≤ length out.old }
        requires ready { length self.old.end.taken + words ≤ self.old.end.avail }
        requires row { cell_of self.old.end.ring (length self.old.end.taken) + words ≤ self.old.end.ring.size }
        ensures taken { (xs : List ℕ) × (length xs ≡ words) × (self.new ≡ record self.old { end = fold takes self.old.end xs }) × HasWords out.old out.new from xs }
        ensures framed { 0 < words → IsFramed self.old.end.ring.max self.new.end.taken }
        ensures len { length out.new ≡ length out.old }
    {
        let place = place_at(self.base, self.size, self.position);
        r.take_row(&mut self.seat, place, words);
        read_row(r, &mut self.seat, place, out, from, words);
        r.load_as::<TakesRow>(&mut self.seat, 0);
        self.position = self.position.wrapping_add(words);
    }
}

/// How many of these words go by rows: all of those that have all their bytes, or none, if they are too few to be worth
/// a row's two loads.
fn whole_words(bytes: &[u8], from: u64, words: u64) -> u64
    requires inside { from + words ≤ word_count (length bytes.now) }
    ensures few { result ≤ words }
    ensures whole { 0 < result → 8 * (from + result) ≤ length bytes.now }
{
    let whole = words.min((bytes.len() as u64 / 8).saturating_sub(from));
    if whole < SHORTEST_ROW { 0 } else { whole }
}

/// The word at a place of the bytes, all of whose bytes are there.
#[inline]
fn whole_word(bytes: &[u8], at: u64) -> u64
    requires { 8 * at + 8 ≤ length bytes.now }
    ensures { result ≡ packed bytes.now at }
{
    let start = at as usize * 8;
    match bytes[start..].first_chunk() {
        Some(word) => u64::from_le_bytes(*word),
        None => unreachable!(),
    }
}

/// Writes the word's bytes at a place, which has room for all of them.
#[inline]
fn write_whole(word: u64, out: &mut [u8], at: u64)
    requires { 8 * at + 8 ≤ length out.old }
    ensures bytes { (i : ℕ) → i < length out.old → slice_index out.new i ≡ cond (is_of_word at i) (byte_of word i) (slice_index out.old i) }
    ensures len { length out.new ≡ length out.old }
{
    let start = at as usize * 8;
    let bytes = word.to_le_bytes();
    out[start..start + 8].copy_from_slice(&bytes);
}

/// Stores words of the bytes, from word `from` on, in the row of slots that the token has out.
fn fill_row(r: &Region, seat: &mut Seat<u64, Known>, at: u64, bytes: &[u8], from: u64, words: u64)
    requires here { seat.old.table_id ≡ r.now }
    requires inside { from + words ≤ word_count (length bytes.now) }
    requires whole { 8 * (from + words) ≤ length bytes.now }
    requires small { at + words < 2 ^ 64 }
    requires out { (xs : List ℕ) × (length xs ≡ words) × (seat.old.me.1 ≡ row at xs) }
    ensures seat { (seat.new.table_id ≡ seat.old.table_id) × (seat.new.id ≡ seat.old.id) }
    ensures filled { seat.new.me ≡ (seat.old.me.0, row at (words_from from words bytes.now)) }
    ensures fits { AllByRecursion (λ y. y < 2 ^ 64) (words_from from words bytes.now) }
{
    for k in 0..words {
        let word = whole_word(bytes, from + k);
        r.write_front(seat, at + k, word);
    }
}

/// Writes the words in the row of slots that the token has out to `out`, from word `from` on.
fn read_row(r: &Region, seat: &mut Seat<u64, Known>, at: u64, out: &mut [u8], from: u64, words: u64)
    requires here { seat.old.table_id ≡ r.now }
    requires inside { from + words ≤ word_count (length out.old) }
    requires whole { 8 * (from + words) ≤ length out.old }
    requires small { at + words < 2 ^ 64 }
    requires slots { (xs : List ℕ) × (length xs ≡ words) × (seat.old.me.1 ≡ row at xs) }
    ensures seat { (seat.new.table_id ≡ seat.old.table_id) × (seat.new.id ≡ seat.old.id) }
    ensures same { seat.new.me ≡ seat.old.me }
    ensures read { (xs : List ℕ) × (length xs ≡ words) × (seat.old.me.1 ≡ row at xs) × HasWords out.old out.new from xs }
    ensures len { length out.new ≡ length out.old }
{
    for k in 0..words {
        let word = r.read_front(seat, at + k);
        write_whole(word, out, from + k);
    }
}
