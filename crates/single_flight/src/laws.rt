//! The laws of a key's cell, over every legal history.

ghost use Rattle.single_flight.specs.Laws.{GetsWhatWasPut, LoadsAlone, LoadsOnce};

/// Between two values that were put, one was removed.
pub fn loads_once<V>()
    ensures { LoadsOnce V }
{}

/// Of two callers that were told to load, the first has ended its load before the second was told so.
pub fn loads_alone<V>()
    ensures { LoadsAlone V }
{}

/// A value that a caller gets is the one that was put last, and it was not removed since.
pub fn gets_what_was_put<V>()
    ensures { GetsWhatWasPut V }
{}
