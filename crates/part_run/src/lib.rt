//! The rows of a table of many groups, parted by their keys before they are grouped, so that each group is in one map.
//!
//! Where each participant keeps its own map (`split_run`), a group that all meet is in all maps. That is cheap as long as
//! there are few groups. With many the maps are far memory, and in the end each group is looked up once more for each
//! participant. So from some number of groups on there are 256 maps, one for each part of the keys, by their hashes. The
//! groups of the participants go into them ([`Parts::begin`]), and from then on a participant that has read a row puts it
//! into one of its lists, that of the row's part ([`Parts::add_pieces`]). When enough rows wait, the rows of each part are
//! added to the map of the part, by one participant for each part, while that map is near ([`Parts::group`]); then the
//! lists are empty again. So memory is that of the groups, and of rows up to a bound.

#![tactic(auto)]

mod found;
mod hands;
mod moving;
mod parts;
mod piece;

pub use parts::Parts;
