//! The laws of a join, as plain facts about lists.

ghost use Rattle.join_pairs.specs.Law.{CellsAreChains, PairsAreJoin};

/// Whatever rows came to a cell, and in which order, the links from its last row on lead through all of them. A law: it
/// does nothing when it runs.
pub fn cells_are_chains()
    ensures { CellsAreChains }
{}

/// The pairs of all right rows, in whichever order these came, are in order the pairs of the two tables. A law: it does
/// nothing when it runs.
pub fn pairs_are_join()
    ensures { PairsAreJoin }
{}
