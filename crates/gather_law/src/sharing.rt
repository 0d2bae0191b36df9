//! The laws by which the work on a table may be shared out: its rows to participants, and its keys to parts.
//!
//! They speak only of plain lists and maps. Each participant keeps a map of the rows that it took; taken together these
//! are all rows in some order, and aggregates do not depend on the order of rows. So the maps, put together in any way,
//! are the map of one pass. The same holds for only the rows of some keys, so each part of the keys may have separate
//! maps.

ghost use Rattle.gather_law.specs.Sharing.{BlocksCover, PartsJoin, PartsTogether, PiecesCover, SharesBegin, SharesGrow, SharesJoin};

/// Blocks that were drawn each once have all rows, and these are accepted if those of each participant are. A law: it
/// does nothing when it runs.
pub fn blocks_cover()
    ensures { BlocksCover }
{}

/// Pieces of a table that were drawn each once have all its rows. A law: it does nothing when it runs.
pub fn pieces_cover()
    ensures { PiecesCover }
{}

/// Participants that have empty maps share no rows. A law: it does nothing when it runs.
pub fn shares_begin()
    ensures { SharesBegin }
{}

/// If each participant adds rows to its map, and these together are more rows in some order, the maps are those of
/// shares of the rows and of the more. A law: it does nothing when it runs.
pub fn shares_grow()
    ensures { SharesGrow }
{}

/// The maps of shares of some rows, put together, are the map of all of them. A law: it does nothing when it runs.
pub fn shares_join()
    ensures { SharesJoin }
{}

/// If the keys are parted, and there is a map for the rows of each part, the state of a key is only in the map of its
/// part, and is that of all its rows. A law: it does nothing when it runs.
pub fn parts_together()
    ensures { PartsTogether }
{}

/// The groups of one part of the keys, added up over the maps of all participants, are the map of the rows of that part. A
/// law: it does nothing when it runs.
pub fn parts_join()
    ensures { PartsJoin }
{}
