//! How many words the keys of the table have: no more than the longest of them needs, since all items of a table have one
//! size and the area is not large.

ghost use Rattle.std.specs.Prelude.{◌≡◌, ◌<◌, ◌≤◌, ◌-◌, ◌∷◌, length, take};
ghost use Rattle.rel_pointer.specs.Bytes.{packed_words};
ghost use Rattle.join_pairs.specs.Join.{AllAccepted, width_of};
ghost use Rattle.hash_join.specs.Widths.{key_words, longest_of};

use csv_rows::RowStore;
use dshash_core::PACKED_WORDS;
use rel_pointer::pack;

/// The bytes of the longest field that a row has in this column.
fn longest_field(rows: &RowStore, column: u32) -> usize
    requires column { column < width_of rows.now }
    requires accepted { AllAccepted rows.now column }
    ensures { result ≡ longest_of rows.now column (length rows.now - 1) }
{
    let mut longest = 0;
    for at in 0..rows.count() {
        longest = longest.max(rows.field(at + 1, column).len());
    }
    longest
}

/// The words of a key of this column.
pub(crate) fn count_words(rows: &RowStore, column: u32) -> u32
    requires column { column < width_of rows.now }
    requires accepted { AllAccepted rows.now column }
    ensures words { result ≡ key_words rows.now column }
    ensures range { (1 ≤ result) × (result ≤ 32) }
{
    1 + longest_field(rows, column).div_ceil(8) as u32
}

/// A field as a key of this many words: its length, and its bytes in the words after it. Zeros fill the room.
pub(crate) fn pack_words(field: &[u8], words: u32) -> [u64; PACKED_WORDS]
    requires words { (1 ≤ words) × (words ≤ 32) }
    ensures { take words result ≡ length field.now ∷ packed_words (words - 1) field.now }
{
    let mut key = [0; PACKED_WORDS];
    key[0] = field.len() as u64;
    for i in 0..words as usize - 1 {
        key[1 + i] = pack(field, i as u64);
    }
    key
}

/// The words of a packed key, as many as the table's keys have.
pub(crate) fn cut_key(packed: &[u64; PACKED_WORDS], words: u32) -> &[u64]
    requires { words ≤ 32 }
    ensures { result.now ≡ take words packed.now }
{
    &packed[..words as usize]
}
