//! The laws of merging, as plain facts about lists.

ghost use Rattle.gather_merge.specs.Law.{MergesAll, OneOrder};

/// If each block was drawn once, the merge of the participants' sorted streams is an order of all rows, no matter which
/// participant drew which block. A law: it does nothing when it runs.
pub fn merges_all()
    ensures { MergesAll }
{}

/// There is only one order of the rows. A law: it does nothing when it runs.
pub fn one_order()
    ensures { OneOrder }
{}
