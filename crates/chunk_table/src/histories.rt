//! What the history of a partition is made of, besides what it shares with other tables. The type appears only in the
//! proofs: no value of it is made.

use std::marker::Model;

/// The size of a partition, and its map from keys to chunks.
pub struct ChunkStates {
    nothing: (),
}

impl Model for ChunkStates {
    ghost use Rattle.dshash_parts.specs.States.{PartitionState, state_code, fresh};
    ghost use Rattle.dshash_chunks.specs.declared.held.Held.{Held};
    ghost use Rattle.dshash_chunks.specs.Held.{held_code};

    ghost Value = { PartitionState Held };

    ghost coded = { state_code held_code };

    ghost view = { λ _. fresh };
}
