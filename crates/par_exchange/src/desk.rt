//! The kept value of an exchange: its tokens, and what the facts about them may name.

ghost use Rattle.std.specs.Prelude.{◌≡◌, ◌<◌};
ghost use Rattle.par_exchange.specs.Legal.{CallFits, MayCall};
ghost use Rattle.par_exchange.specs.Answers.{AnswerFits, call_of, reply_of};

use crate::asks::{Answer, Ask, Wish};
use crate::history::{ExchangeCall, ExchangeName, ExchangeReply, ExchangeState};
use crate::tokens::Tokens;
use crate::trade::Trade;
use lock_book::Kept;

/// The tokens of a trade's parties.
#[derive(Drop)]
pub struct Desk<X: Trade> {
    pub sign: X::Sign,
    pub tokens: Tokens<X::Token>,
}

impl<X: Trade + Send> Kept for Desk<X>
where
    X::Token: Send,
    X::Sign: Send,
{
    type Env = ();

    type In = Ask<X::Token>;

    type Out = Answer<X::Token>;

    type Name = ExchangeName<X::Sign>;

    type State = ExchangeState<X::Token>;

    type Call = ExchangeCall<X::Token>;

    type Reply = ExchangeReply<X::Token>;

    ghost name = { λ d. record { parties = d.tokens.parties; sign = d.sign } };

    ghost state = { λ d. d.tokens.state };

    ghost call = { λ ask. call_of ask.wish };

    ghost reply = { reply_of };

    ghost env_fits = { λ _ _. Unit {0} };

    // an ask is the caller's own
    ghost in_fits = { λ e n ask. (ask.by ≡ n) × (n < e.parties) × CallFits (X.brings e.sign) (X.gives e.sign) (X.leaves e.sign) n (call_of ask.wish) };

    ghost out_fits = { λ _ ask answer. AnswerFits ask.wish answer };

    ghost legal = { λ e n s c r t. MayCall (X.brings e.sign) (X.gives e.sign) (X.leaves e.sign) n s c r t };

    fn apply(&mut self, _env: &(), ask: Ask<X::Token>) -> Answer<X::Token> {
        let n = ask.by;
        match ask.wish {
            Wish::Bring(token) => self.tokens.bring(n, token),
            Wish::Give(tokens) => self.tokens.give(n, tokens),
            Wish::Take => self.tokens.take(n),
            Wish::Leave => self.tokens.leave(n),
        }
    }
}
