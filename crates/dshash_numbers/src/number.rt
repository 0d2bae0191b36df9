//! A number as the value under a key of the table.

use dshash_core::CellObject;

/// A 64-bit number under a key. The type has no fields; the states are `u64`.
pub struct Number;

/// What is asked of the number under a key. The reply is the number that was there, if any.
#[derive(Clone, Copy, Debug, PartialEq, Eq)]
pub enum NumberCall {
    /// This number is put there.
    Put(u64),
    /// Nothing changes.
    Get,
    /// The key goes.
    Delete,
}

impl CellObject for Number {
    ghost use Rattle.std.specs.Prelude.{ℕ, ◌<◌, ◌^◌, [], ◌∷◌, slice_index, refl};
    ghost use Rattle.dshash_numbers.specs.Numbers.{stepped};

    const VALUE_WORDS: usize = 1;

    type State = u64;

    type Call = NumberCall;

    type Reply = Option<u64>;

    ghost VALUE_WORDS = { 1 };

    ghost stepped = { stepped };

    ghost is_value = { λ n. n < 2 ^ 64 };

    ghost encoded = { λ n. n ∷ [] };

    ghost decoded = { λ words. slice_index words 0 };

    ghost reads_back = { λ n h. refl };

    fn step(state: Option<&u64>, call: &NumberCall) -> (Option<u64>, Option<u64>) {
        let next = match call {
            NumberCall::Put(n) => Some(*n),
            NumberCall::Get => state.copied(),
            NumberCall::Delete => None,
        };
        (next, state.copied())
    }

    fn reads(call: &NumberCall) -> bool {
        match call {
            NumberCall::Get => true,
            NumberCall::Put(_) | NumberCall::Delete => false,
        }
    }

    fn encode(state: &u64, out: &mut [u64]) {
        out[0] = *state;
    }

    fn decode(words: &[u64]) -> u64 {
        words[0]
    }
}
