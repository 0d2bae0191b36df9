//! That lanes tell the states of groups, as laws of the definitions.

ghost use Rattle.state_lanes.specs.Rows.{LanesComeBack, RowsAreTold};

/// The state of some rows is told by the slots of its lanes over these rows.
pub fn rows_are_told()
    ensures { RowsAreTold }
{}

/// The slots of the lanes come back from a state that they tell.
pub fn lanes_come_back()
    ensures { LanesComeBack }
{}
