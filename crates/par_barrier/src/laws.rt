//! The laws of a barrier's phases, over every legal history.

ghost use Rattle.par_barrier.specs.Phases.{ArrivesOnce, ElectsOne, TellsElected, TellsPhases};

/// The phase in a call's answer is the number of ends of a phase up to that call, modulo 2^64. So no call of a later
/// phase comes before the end of the one before it.
pub fn tells_phases()
    ensures { TellsPhases }
{}

/// Each end of a phase elects exactly one caller, which takes part at that moment and has arrived in that phase, unless
/// nobody takes part any more.
pub fn elects_one()
    ensures { ElectsOne }
{}

/// Until the next end no other caller is answered that it is elected.
pub fn tells_elected()
    ensures { TellsElected }
{}

/// Between two ends a caller arrives again only after it detached.
pub fn arrives_once()
    ensures { ArrivesOnce }
{}
