//! That a file that `partial` made is one of those of which the laws of partial states speak.

ghost use Rattle.state_partial.specs.Law.{PartIsMade};

/// What comes of a run whose source brings its own text, all of it or a tile after the header's line, came about of the sources, wherever
/// the tile was to begin and to end. A law: it does nothing when it runs.
pub fn part_is_made()
    ensures { PartIsMade }
{}
