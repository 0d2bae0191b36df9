//! What the history of a pool is made of: its name, and the states, the calls and the replies of `specs/Legal.antt`, as
//! types.
//!
//! They appear only in contracts and proofs, if a layer above keeps a history; no value of them need be made.

use crate::layout::Layout;
use region_words::Region;
use std::marker::Model;

/// What is fixed of a pool: the region of its words, and where they lie.
pub struct PoolName {
    /// The region of the words.
    pub region: Region,
    /// Where they lie.
    pub layout: Layout,
}

/// A state of a pool: its superblocks with their live objects, and which of them is active.
pub struct PoolStates;

impl Model for PoolStates {
    ghost use Rattle.std.specs.Prelude.{[], None};
    ghost use Rattle.span_pools.specs.Legal.{PoolState};
    ghost use Rattle.span_pools.specs.PoolView.{pool_state_code};

    ghost Value = { PoolState };

    ghost coded = { pool_state_code };

    ghost view = { λ _. record { spans = []; active = None } };
}

/// A call of a pool.
pub struct PoolCalls;

impl Model for PoolCalls {
    ghost use Rattle.span_pools.specs.Legal.{PoolCall, Alloc};

    ghost Value = { PoolCall };

    ghost view = { λ _. Alloc };
}

/// A reply of a pool.
pub struct PoolReplies;

impl Model for PoolReplies {
    ghost use Rattle.span_pools.specs.Legal.{PoolReply, Full};

    ghost Value = { PoolReply };

    ghost view = { λ _. Full };
}
