//! The table as both rounds ask it once it has ended: a look-up of its frozen partitions, for fields.

ghost use Rattle.std.specs.Prelude.{◌≡◌, ◌≤◌};

use crate::widths::{cut_key, pack_words};
use frozen_table::Lookup;
use join_pairs::{LastRow, Lasts};

/// The last rows of the keys that the table took. Threads share it by reference.
#[derive(Drop)]
pub(crate) struct Probe<'t> {
    pub(crate) lookup: &'t Lookup<LastRow>,
    /// The words of a key.
    pub(crate) key_words: u32,
    pub(crate) ghost short: { (1 ≤ key_words) × (key_words ≤ 32) },
}

impl<'t> Probe<'t> {
    pub(crate) fn of(lookup: &'t Lookup<LastRow>, key_words: u32) -> Probe<'t>
        requires words { (1 ≤ key_words) × (key_words ≤ 32) }
        ensures lookup { result.lookup.now ≡ lookup.now }
        ensures words { result.key_words ≡ key_words }
    {
        Probe { lookup, key_words }
    }
}

impl<'t> Lasts for Probe<'t> {
    ghost use Rattle.frozen_table.specs.Parts.{map_in};
    ghost use Rattle.hash_join.specs.Probes.{last_in};

    ghost last_of = { λ p field. last_in (map_in p.lookup.now) p.key_words field };

    /// A hash of the key, and a comparison with each key of its slot. It takes no lock.
    fn last(&self, key: &[u8]) -> u64 {
        // a field with more bytes than any of the left table has no row there
        if key.len().div_ceil(8) >= self.key_words as usize {
            return 0;
        }
        let packed = pack_words(key, self.key_words);
        self.lookup
            .get(cut_key(&packed, self.key_words))
            .unwrap_or(0)
    }
}
