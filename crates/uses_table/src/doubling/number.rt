//! A number under a key. Each call answers the number of before, if any.

ghost use Rattle.std.specs.Prelude.{ℕ, ◌<◌, ◌^◌, [], ◌∷◌, Option, Some, None, slice_index, refl};

use dshash_core::CellObject;

pub struct Number;

#[derive(Clone, Copy)]
pub enum NumberCall {
    Put(u64),
    Get,
    Delete,
}

impl CellObject for Number {
    ghost use Rattle.uses_table.specs.declared.doubling.number.NumberCall.TheVariants.{Put, Get, Delete};

    const VALUE_WORDS: usize = 1;

    type State = u64;

    type Call = NumberCall;

    type Reply = Option<u64>;

    ghost VALUE_WORDS = { 1 };

    ghost stepped = { λ s call. (elim call as (λ _. Option ℕ) [ Put n ↦ Some n | Get ↦ s | Delete ↦ None ], s) };

    ghost is_value = { λ s. s < 2 ^ 64 };

    ghost encoded = { λ s. s ∷ [] };

    ghost decoded = { λ words. slice_index words 0 };

    ghost reads_back = { λ s h. refl };

    fn step(state: Option<&u64>, call: &NumberCall) -> (Option<u64>, Option<u64>) {
        let next = match call {
            NumberCall::Put(n) => Some(*n),
            NumberCall::Get => state.copied(),
            NumberCall::Delete => None,
        };
        (next, state.copied())
    }

    fn reads(_call: &NumberCall) -> bool {
        false
    }

    fn encode(state: &u64, out: &mut [u64]) {
        out[0] = *state;
    }

    fn decode(words: &[u64]) -> u64 {
        words[0]
    }
}
