//! The laws of an exchange's phases, over every legal history.

ghost use Rattle.par_exchange.specs.Phases.{EndsWithAll, GathersEach, GivesEach};

/// In each phase, what the parties brought is what the elected got, each once, and what was given to them was taken, each
/// once.
pub fn gathers_each<T>()
    ensures { GathersEach T }
{}

/// What a party takes is what was given to it in the phase, once.
pub fn gives_each<T>()
    ensures { GivesEach T }
{}

/// A phase ends once all have brought a token but those that have left.
pub fn ends_with_all<T>()
    ensures { EndsWithAll T }
{}
