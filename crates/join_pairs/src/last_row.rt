//! The cell that a key has in the table of the left rows: the last row that came with the key.

use dshash_core::CellObject;

/// The last row that came with a key. A call has a row, which becomes the last one; its reply is the row before, or 0
/// if there was none.
pub struct LastRow;

impl CellObject for LastRow {
    ghost use Rattle.std.specs.Prelude.{ℕ, ◌<◌, ◌^◌, [], ◌∷◌, slice_index, refl};
    ghost use Rattle.join_pairs.specs.Chains.{last_step};

    const VALUE_WORDS: usize = 1;

    type State = u64;

    type Call = u64;

    type Reply = u64;

    ghost VALUE_WORDS = { 1 };

    ghost stepped = { last_step };

    ghost is_value = { λ row. row < 2 ^ 64 };

    ghost encoded = { λ row. row ∷ [] };

    ghost decoded = { λ words. slice_index words 0 };

    ghost reads_back = { λ row h. refl };

    fn step(state: Option<&u64>, call: &u64) -> (Option<u64>, u64) {
        (Some(*call), state.copied().unwrap_or(0))
    }

    fn reads(_call: &u64) -> bool {
        false
    }

    fn encode(state: &u64, out: &mut [u64]) {
        out[0] = *state;
    }

    fn decode(words: &[u64]) -> u64 {
        words[0]
    }
}
