//! The call that waits for a token.

ghost use Rattle.std.specs.Prelude.{◌≡◌};
ghost use Rattle.lock_book.specs.Shown.{number_of};
ghost use Rattle.par_exchange.specs.Phases.{HasTaken};
ghost use Rattle.par_exchange.specs.Shown.{Belongs, IsExchange, history_of, stage_of};
ghost use Rattle.par_exchange.specs.declared.history.PartyStage.TheVariants as stage;

use crate::exchange::{Exchange, ExchangePass};
use crate::trade::Trade;
use std::sync::Wait;

impl<X: Trade + Send> Exchange<X>
where
    X::Token: Send,
    X::Sign: Send,
{
    /// Takes the token that was given to the party, and waits until there is one: it tries each time that tokens were
    /// given, and sleeps in between. It may wait forever, if a party brings no token or the elected gives none.
    pub fn receive<R: Wait>(&self, rt: &R, pass: &mut ExchangePass<X>) -> X::Token
        requires exchange { (sign : _) × IsExchange sign self.now }
        requires own { Belongs self.now pass.old }
        ensures own { Belongs self.now pass.new × (number_of pass.new ≡ number_of pass.old) }
        ensures stage { stage_of pass.new ≡ stage.Free }
        ensures taken { HasTaken (number_of pass.old) (history_of pass.new) result }
        ensures token { (sign : _) → IsExchange sign self.now → X.gives sign (number_of pass.old) result }
    {
        for _ in rt.forever() {
            let seen = self.shelf.news(0);
            match self.take(rt, pass) {
                Some(token) => return token,
                None => self.shelf.await_news(rt, pass, 0, seen),
            }
        }
        unreachable!()
    }
}
