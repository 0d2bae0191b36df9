//! A group is put into the table.

ghost use Rattle.std.specs.Prelude.{◌≡◌, ◌≤◌, MatchBool, length};
ghost use Rattle.dshash_core.specs.Key.{packed_key};
ghost use Rattle.par_model.specs.declared.refusal.TheConstants.{LONGEST_KEY};
ghost use Rattle.rel_pointer.specs.Bytes.{AllBytes};
ghost use Rattle.agg_table.specs.Calls.{IsLeft, IsPut};
ghost use Rattle.agg_table.specs.Shown.{Grew, IsPart, IsSeat, use_of};

use crate::part::{HashPart, HashSeat};
use dshash_core::pack_key;
use par_model::AggState;
use partial_agg::GroupKey;
use region_words::Region;
use std::sync::Wait;

/// A chain with this many items takes no new key: whoever chooses the keys can't make a longer one.
const LONGEST_CHAIN: u32 = 64;

/// A key's bytes as the words of a packed key.
fn words_of(bytes: &[u8]) -> [u64; 32]
    requires { length bytes.now ≤ LONGEST_KEY }
    ensures packed { result ≡ packed_key bytes.now }
    ensures bytes { AllBytes bytes.now }
{
    let Some(words) = pack_key(bytes) else {
        unreachable!()
    };
    words
}

impl HashPart {
    /// Combines a group's state into the cell of its key, by one call of the table. False if the area has no room for a
    /// new cell, or for the table to grow, or if the chain of a new cell has 64 items already: the group is then left to
    /// the caller. It takes no memory, and may wait for the locks of the table and of the area, one after another.
    pub fn put<R: Wait>(
        &self,
        rt: &R,
        r: &Region,
        seat: &mut HashSeat,
        key: &GroupKey,
        state: &AggState,
    ) -> bool
        requires part { IsPart r.now self.now }
        requires seat { IsSeat self.now seat.old }
        ensures seat { IsSeat self.now seat.new }
        ensures grew { Grew seat.old seat.new }
        ensures put { MatchBool result (IsPut (use_of seat.old) (use_of seat.new) (key.now, state.now)) (IsLeft (use_of seat.old) (use_of seat.new) (key.now, state.now)) }
    {
        let words = words_of(key.bytes());
        match self.table.call_within(
            rt,
            r,
            &self.area,
            &mut seat.table,
            &mut seat.area,
            &words,
            state,
            LONGEST_CHAIN,
        ) {
            Ok(()) => true,
            Err(_) => false,
        }
    }
}
