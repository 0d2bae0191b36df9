//! The laws of a table's keys and sizes, over every legal history of a partition.

ghost use Rattle.dshash_parts.specs.Callers.{CallersMakeAll, CellsFold};
ghost use Rattle.dshash_parts.specs.Owners.{OwnersHaveCells};
ghost use Rattle.dshash_parts.specs.Replays.{KeysAreCells, StaysRoomy, SizesGrow};

use dshash_core::CellObject;

/// The calls of each key are, in the one history of its partition, those of one cell, which was absent first.
pub fn keys_are_cells<S, C, R>()
    ensures { KeysAreCells S C R }
{}

/// Between two turns a partition never has more keys than its size allows, so doubling can't be left out.
pub fn stays_roomy<S, C, R>()
    ensures { StaysRoomy S C R }
{}

/// A partition never shrinks.
pub fn sizes_grow<S, C, R>()
    ensures { SizesGrow S C R }
{}

/// The calls of a key that belongs to a caller are, if others only read, those of that caller's cell: what it put is
/// what it gets.
pub fn owners_have_cells<O: CellObject>()
    ensures { OwnersHaveCells O.stepped O.may }
{}

/// The calls of a key are those of all callers, each once.
pub fn callers_make_all<S, C, R>()
    ensures { CallersMakeAll S C R }
{}

/// If steps add up by a commutative monoid, as counters, sums, sets and greatest values do, the order of the callers
/// doesn't matter: a cell's last value is what all of them added.
pub fn cells_fold<S, C, R, M>()
    ensures { CellsFold S C R M }
{}
