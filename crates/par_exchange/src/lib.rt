//! An exchange: parties bring a token each, one of them gets the tokens of all, and gives each party one again. A party
//! may leave; the others go on without it.
//!
//! `trade` says what is exchanged. `tokens` has the tokens, with a function for each call over the `places` in which
//! they lie; `desk` is the locked value, and `asks` what it is asked and answers. `history` says what its history is
//! made of. `exchange` has the calls, `waiting` the one that waits for a token, `close` how an exchange ends, and
//! `laws` what is true of every history. It is one shelf of `lock_book` with one value, as a barrier is.

#![tactic(auto)]

mod asks;
mod close;
mod desk;
mod exchange;
mod history;
mod laws;
mod places;
mod tokens;
mod trade;
mod waiting;

pub use asks::{Departure, Gathered, Stays};
pub use close::ClosedExchange;
pub use exchange::{Exchange, ExchangePass};
pub use history::{ExchangeCall, ExchangeReply, ExchangeState, PartyStage};
pub use laws::{ends_with_all, gathers_each, gives_each};
pub use trade::Trade;
