//! What the history of an area is made of: its name, and the states, the calls and the replies of `specs/Legal.antt`,
//! as types. They appear only in contracts and proofs; no value of them is made.

use region_words::Region;
use std::marker::Model;

/// What is fixed of an area: the region of its words, the first word of page 0, and how many pages there are.
pub struct AreaName {
    /// The region of the words.
    pub region: Region,
    /// The first word of page 0.
    pub first: u64,
    /// How many pages there are.
    pub pages: u64,
}

/// A state of an area: its pages, and the pool of each size class.
pub struct AreaStates;

impl Model for AreaStates {
    ghost use Rattle.std.specs.Prelude.{[]};
    ghost use Rattle.c_area.specs.States.{AreaState, area_state_code};

    ghost Value = { AreaState };

    ghost coded = { area_state_code };

    ghost view = { λ _. record { pages = record { pages = 0; granted = [] }; pools = [] } };
}

/// A call of an area.
pub struct AreaCalls;

impl Model for AreaCalls {
    ghost use Rattle.c_area.specs.States.{AreaCall, LookAt};

    ghost Value = { AreaCall };

    ghost view = { λ _. LookAt };
}

/// A reply of an area.
pub struct AreaReplies;

impl Model for AreaReplies {
    ghost use Rattle.c_area.specs.States.{AreaReply, TakenBack};

    ghost Value = { AreaReply };

    ghost view = { λ _. TakenBack };
}
