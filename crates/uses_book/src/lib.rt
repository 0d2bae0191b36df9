//! Callers of `lock_book`, kept so that its surface is proved where it is used: a counter that two threads add to, and
//! that many adds of one turn go to, a drawer that holds a part of a region, in a generic wrapper, and a user's object
//! in another. The crate also has the tests of `par_barrier`, and of `par_exchange` three threads that trade and two
//! that leave.

#![tactic(auto)]

mod asks;
#[cfg(test)]
mod barriers;
#[cfg(test)]
mod batch;
#[cfg(test)]
mod counter;
#[cfg(test)]
mod crossing;
mod drawer;
#[cfg(test)]
mod guarded;
#[cfg(test)]
mod leaving;
#[cfg(test)]
mod numbered;
#[cfg(test)]
mod round;
#[cfg(test)]
mod tests;
mod trade;
#[cfg(test)]
mod trades;
#[cfg(test)]
mod turns;
#[cfg(test)]
mod twice;

pub use asks::{Answer, Ask, Call, DrawerName, Reply};
#[cfg(test)]
pub use batch::{add_in_one_turn, added_in_one_turn};
#[cfg(test)]
pub use counter::Counter;
#[cfg(test)]
pub use crossing::{Cabinet, CabinetPass, Lent, One, cross, end_two};
pub use drawer::Drawer;
#[cfg(test)]
pub use guarded::{Guarded, Object, advance, called_by_two, called_once};
#[cfg(test)]
pub use leaving::{Numbers, one_goes_on, rounds};
#[cfg(test)]
pub use numbered::{Numbered, Tag};
#[cfg(test)]
pub use round::{put_in, round_trip, take_out};
pub use trade::Parts;
#[cfg(test)]
pub use trades::{Hand, for_three, party, three_parties};
#[cfg(test)]
pub use twice::{added_by_two, closed_by_two};
