//! Groups where they lie, for a caller that reads each of them once.
//!
//! A key is lent, and of a state only the slots are read that the caller asks for, into a state of the caller's. So
//! nothing is copied that a plan has no use for.

ghost use Rattle.std.specs.Prelude.{◌≡◌, ◌<◌, ◌≤◌, Some, drop, length, map, slice_get, take};
ghost use Rattle.par_model.specs.declared.refusal.TheConstants.{LONGEST_KEY};
ghost use Rattle.partial_agg.specs.Listed.{listed_at, state_at};
ghost use Rattle.partial_agg.specs.Placed.{AreListed};

use crate::states::StateList;
use key_index::KeyTable;
use par_model::AggState;
use std::marker::Model;

/// Groups where they lie: a list of them.
#[derive(Drop)]
pub struct LentGroups<'a> {
    keys: &'a KeyTable,
    /// The state of the key at each place.
    states: &'a StateList,
    /// The places of the groups.
    places: &'a [usize],
}

impl<'a> Model for LentGroups<'a> {
    ghost use Rattle.std.specs.Prelude.{List, length};
    ghost use Rattle.partial_agg.specs.Listed.{listed_at};
    ghost use Rattle.partial_agg.specs.Placed.{AreListed};
    ghost use Rattle.partial_agg.specs.declared.groups.Group.{Group};

    ghost Value = { List Group };

    ghost view = { λ g. listed_at g.keys.now g.states.now g.places.now };

    ghost invariant = { λ g. AreListed g.keys.now (length g.states.now) g.places.now };
}

impl<'a> LentGroups<'a> {
    /// The groups at these places.
    pub(crate) fn of_parts(
        keys: &'a KeyTable,
        states: &'a StateList,
        places: &'a [usize],
    ) -> LentGroups<'a>
        requires { AreListed keys.now (length states.now) places.now }
        ensures { result ≡ listed_at keys.now states.now places.now }
    {
        LentGroups {
            keys,
            states,
            places,
        }
    }

    /// The number of groups.
    pub fn len(&self) -> usize
        ensures { result ≡ length self.now }
    {
        self.places.len()
    }

    /// The key of the group at a place.
    pub fn key(&self, at: usize) -> &'a [u8]
        requires { at < length self.now }
        ensures key { slice_get (map (λ group. group.key) self.now) at ≡ Some result.now }
        ensures fits { length result.now ≤ LONGEST_KEY }
    {
        self.keys.get(self.places[at])
    }

    /// Reads the aggregates of the group at a place: the number of rows and this many slots. The other slots of `state`
    /// stay as they are.
    pub fn read_state(&self, at: usize, state: &mut AggState, count: u32)
        requires place { at < length self.now }
        requires few { count ≤ 8 }
        ensures rows { state.new.rows ≡ (state_at self.now at).rows }
        ensures front { take count state.new.slots ≡ take count (state_at self.now at).slots }
        ensures rest { drop count state.new.slots ≡ drop count state.old.slots }
    {
        self.states.read(self.places[at], state, count as usize);
    }
}
