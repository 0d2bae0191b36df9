//! What the history of an area's pages is made of: the states, the calls and the replies of `specs/Legal.antt`, as
//! types.
//!
//! They appear only in contracts and proofs, if a layer above keeps a history; no value of them need be made.

use std::marker::Model;

/// A state of the pages: how many there are, and which runs are granted.
pub struct PagesStates;

impl Model for PagesStates {
    ghost use Rattle.std.specs.Prelude.{[]};
    ghost use Rattle.free_pages.specs.Legal.{PagesState};
    ghost use Rattle.free_pages.specs.PagesView.{pages_state_code};

    ghost Value = { PagesState };

    ghost coded = { pages_state_code };

    ghost view = { λ _. record { pages = 0; granted = [] } };
}

/// A call of the pages.
pub struct PagesCalls;

impl Model for PagesCalls {
    ghost use Rattle.std.specs.Prelude.{false};
    ghost use Rattle.free_pages.specs.Legal.{PagesCall, Take};

    ghost Value = { PagesCall };

    ghost view = { λ _. Take 0 false };
}

/// A reply of the pages.
pub struct PagesReplies;

impl Model for PagesReplies {
    ghost use Rattle.free_pages.specs.Legal.{PagesReply, Accepts};

    ghost Value = { PagesReply };

    ghost view = { λ _. Accepts };
}
