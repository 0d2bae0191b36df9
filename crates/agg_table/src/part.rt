//! The table with its area, and a participant's passes.

use agg_cell::AggObject;
use dsa_area::{Area, AreaPass};
use dshash_parts::{DsPass, Dshash};

/// What all participants see: a table of keys of 32 words, and the area that its items come from.
#[derive(Drop)]
pub struct HashPart {
    pub area: Area,
    pub table: Dshash<AggObject>,
}

/// One participant's passes. They show what it has seen of the table and of the area, and its own calls.
#[derive(Drop)]
pub struct HashSeat {
    pub area: AreaPass,
    pub table: DsPass<AggObject>,
}
