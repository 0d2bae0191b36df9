//! How an exchange ends: all passes come home, and its whole history is known.

ghost use Rattle.par_exchange.specs.Shown.{AreAll, IsExchange};
ghost use Rattle.par_exchange.specs.Ending.{Ended};

use crate::desk::Desk;
use crate::exchange::{Exchange, ExchangePass};
use crate::trade::Trade;
use lock_book::Closed;

/// An exchange that was closed. It shows the whole history. Tokens that nobody took are dropped with it.
pub type ClosedExchange<X> = Closed<Desk<X>>;

impl<X: Trade + Send> Exchange<X>
where
    X::Token: Send,
    X::Sign: Send,
{
    /// Ends the exchange. It takes all passes, in order of their numbers, makes a few loads for each, and takes no
    /// memory.
    pub fn close(self, passes: Vec<ExchangePass<X>>) -> ClosedExchange<X>
        requires exchange { (sign : _) × IsExchange sign self }
        requires all { AreAll self passes.items }
        ensures ended { Ended self passes.items result }
    {
        let Exchange { shelf } = self;
        shelf.close(passes)
    }
}
