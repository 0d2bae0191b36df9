//! The definitions at a worked value.

ghost use Rattle.join_kinds.specs.Worked.{WorkedJoins};

/// What each kind of join of two small tables is. A law: it does nothing when it runs.
pub fn joins_of_small_tables()
    ensures { WorkedJoins }
{}
