//! A word as what is under a key of the table.

ghost use Rattle.std.specs.Prelude.{◌≡◌};
ghost use Rattle.c_table.specs.Words.{swapped};

use dshash_core::CellObject;

/// A 64-bit word under a key. It stands for no value; the states are `u64`.
pub struct Word;

/// What is asked of the word under a key. The reply is the word that was there, if any.
#[derive(Clone, Copy, Debug, PartialEq, Eq)]
pub enum WordCall {
    /// This word is put there.
    Put(u64),
    /// This is added to what is there, modulo 2^64; if nothing is there, it is put there.
    Add(u64),
    /// If nothing is there, this word is put there.
    PutAbsent(u64),
    /// If the first of the two is there, the second takes its place.
    CompareAndSwap(u64, u64),
    /// Nothing changes.
    Get,
    /// The key goes.
    Delete,
}

/// The word of a key that has `expected` becomes `word`; any other stays.
fn swapped(before: Option<u64>, expected: u64, word: u64) -> Option<u64>
    ensures { result ≡ swapped before expected word }
{
    match before {
        Some(found) => Some(if found == expected { word } else { found }),
        None => None,
    }
}

impl CellObject for Word {
    ghost use Rattle.std.specs.Prelude.{ℕ, ◌<◌, ◌^◌, [], ◌∷◌, slice_index, refl};
    ghost use Rattle.c_table.specs.Words.{stepped};

    const VALUE_WORDS: usize = 1;

    type State = u64;

    type Call = WordCall;

    type Reply = Option<u64>;

    ghost VALUE_WORDS = { 1 };

    ghost stepped = { stepped };

    ghost is_value = { λ n. n < 2 ^ 64 };

    ghost encoded = { λ n. n ∷ [] };

    ghost decoded = { λ words. slice_index words 0 };

    ghost reads_back = { λ n h. refl };

    fn step(state: Option<&u64>, call: &WordCall) -> (Option<u64>, Option<u64>) {
        let before = state.copied();
        let after = match call {
            WordCall::Put(n) => Some(*n),
            WordCall::Add(n) => Some(before.unwrap_or(0).wrapping_add(*n)),
            WordCall::PutAbsent(n) => Some(before.unwrap_or(*n)),
            WordCall::CompareAndSwap(expected, n) => swapped(before, *expected, *n),
            WordCall::Get => before,
            WordCall::Delete => None,
        };
        (after, before)
    }

    fn reads(call: &WordCall) -> bool {
        match call {
            WordCall::Get => true,
            WordCall::Put(_)
            | WordCall::Add(_)
            | WordCall::PutAbsent(_)
            | WordCall::CompareAndSwap(_, _)
            | WordCall::Delete => false,
        }
    }

    fn encode(state: &u64, out: &mut [u64]) {
        out[0] = *state;
    }

    fn decode(words: &[u64]) -> u64 {
        words[0]
    }
}
