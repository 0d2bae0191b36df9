//! The aggregates of a group over the rows that were added so far.

/// The aggregates of one item. Sum, least and greatest number are 0 if the item reads no numbers or `count` is 0; they
/// are in units of 10^-places of the item.
#[derive(Clone, Copy, Debug, PartialEq, Eq)]
pub struct SlotState {
    /// How many fields are not empty.
    pub count: u64,
    pub sum: i128,
    pub least: i64,
    pub greatest: i64,
}

/// The slot of an aggregate that has no values.
pub const NO_VALUES: SlotState = SlotState {
    count: 0,
    sum: 0,
    least: 0,
    greatest: 0,
};

/// The aggregates of one group.
#[derive(Clone, Copy, Debug, PartialEq, Eq)]
pub struct AggState {
    /// How many rows the group has.
    pub rows: u64,
    /// A slot for each item of the plan. That of an item that reads no column, and each past the items, is all zeros.
    pub slots: [SlotState; 8],
}
