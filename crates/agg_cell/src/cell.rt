//! The object of the shared table: a group's state, to which each call adds another.

use crate::words::{STATE_WORDS, read_state, write_state};
use dshash_core::CellObject;
use par_model::AggState;
use partial_agg::combine;

/// The state of a group. A call has a state of other rows of the group, which is combined into the cell; if there is no
/// cell, it becomes the cell's state. There is nothing to reply.
pub struct AggObject;

impl CellObject for AggObject {
    ghost use Rattle.agg_cell.specs.declared.words.TheConstants.{STATE_WORDS};
    ghost use Rattle.agg_cell.specs.Cell.{stepped};
    ghost use Rattle.agg_cell.specs.StateWords.{IsState, state_of_words, state_words};
    ghost use Rattle.agg_cell.specs.ReadBack.{reads_back};

    const VALUE_WORDS: usize = STATE_WORDS;

    type State = AggState;

    type Call = AggState;

    type Reply = ();

    ghost VALUE_WORDS = { STATE_WORDS };

    ghost stepped = { stepped };

    ghost is_value = { IsState };

    ghost encoded = { state_words };

    ghost decoded = { state_of_words };

    ghost reads_back = { reads_back };

    fn step(state: Option<&AggState>, call: &AggState) -> (Option<AggState>, ()) {
        let next = match state {
            None => *call,
            Some(before) => {
                let mut both = *before;
                combine(&mut both, call);
                both
            }
        };
        (Some(next), ())
    }

    fn reads(_call: &AggState) -> bool {
        false
    }

    fn encode(state: &AggState, out: &mut [u64]) {
        write_state(state, out);
    }

    fn decode(words: &[u64]) -> AggState {
        read_state(words)
    }
}
