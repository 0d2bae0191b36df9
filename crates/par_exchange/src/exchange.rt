//! The exchange, its passes, and its calls.
//!
//! An exchange is a shelf of one desk, and each call is one turn at it: what a call did is the last entry of the
//! history that its pass has seen then (`Called`). All callers are parties.

ghost use Rattle.std.specs.Prelude.{◌≡◌, ◌<◌, ℕ, [], length, IfOk, IfErr, IsOk, IfSome};
ghost use mathlib.Core.Option.{some};
ghost use lib.ListN.{get_elem?};
ghost use Rattle.lock_book.specs.Shown.{number_of};
ghost use Rattle.par_exchange.specs.Legal.{AreMissing, CallFits, Each};
ghost use Rattle.par_exchange.specs.Phases.{HasCollected, HasTaken, HasToGive, IsOfAllLeft, stage_after};
ghost use Rattle.par_exchange.specs.States.{who};
ghost use Rattle.par_exchange.specs.Answers.{AnswerFits, call_of, reply_of};
ghost use Rattle.par_exchange.specs.Shown.{AreAll, Belongs, Called, IfElected, IfLeaving, IsExchange, gather_reply, history_of, leave_reply, own_of, parties_of, scatter_reply, stage_of, take_reply};
ghost use Rattle.par_exchange.specs.Turns.{Turned};
ghost use Rattle.par_exchange.specs.declared.history.ExchangeCall.TheVariants.{Bring, Give, Leave, Take};
ghost use Rattle.par_exchange.specs.declared.history.PartyStage.TheVariants as stage;

use crate::asks::{Answer, Ask, Departure, Gathered, Stays, Wish};
use crate::desk::Desk;
use crate::tokens::Tokens;
use crate::trade::Trade;
use lock_book::{Pass, Shelf};
use std::alloc::{AllocError, Global};
use std::sync::Wait;

/// An exchange of tokens between parties. Threads share it by reference.
#[derive(Drop)]
pub struct Exchange<X: Trade + Send>
where
    X::Token: Send,
    X::Sign: Send,
{
    pub(crate) shelf: Shelf<Desk<X>>,
}

/// One party's token at an exchange, which may go to another thread. It shows the history that the party has seen, and
/// its own calls.
pub type ExchangePass<X> = Pass<Desk<X>>;

impl<X: Trade + Send> Exchange<X>
where
    X::Token: Send,
    X::Sign: Send,
{
    /// An exchange for the given number of parties, and a pass for each, numbered from 0. It takes room for three
    /// tokens of each party and a mark; no other call takes memory.
    pub fn new(
        alloc: Global,
        parties: u32,
        sign: X::Sign,
    ) -> Result<(Exchange<X>, Vec<ExchangePass<X>>), AllocError>
        requires parties { 0 < parties }
        ensures exchange { IfOk result (λ r. IsExchange sign r.0) }
        ensures parties { IfOk result (λ r. parties_of r.0 ≡ parties) }
        ensures passes { IfOk result (λ r. AreAll r.0 r.1.items) }
        ensures fresh { IfOk result (λ r. (k : ℕ) (p : _) → get_elem? r.1.items k ≡ some p → (history_of p ≡ []) × (own_of p ≡ [])) }
    {
        let mut desks = Vec::new(alloc);
        let tokens = Tokens::new(alloc, parties)?;
        desks.push(Desk { sign, tokens })?;
        let (shelf, passes) = Shelf::new(alloc, desks, parties)?;
        Ok((Exchange { shelf }, passes))
    }

    /// One turn at the desk.
    fn call<R: Wait>(
        &self,
        rt: &R,
        pass: &mut ExchangePass<X>,
        wish: Wish<X::Token>,
    ) -> Answer<X::Token>
        requires exchange { (sign : _) × IsExchange sign self.now }
        requires own { Belongs self.now pass.old }
        requires fits { (sign : _) → IsExchange sign self.now → CallFits (X.brings sign) (X.gives sign) (X.leaves sign) (number_of pass.old) (call_of wish) }
        ensures own { Belongs self.now pass.new × (number_of pass.new ≡ number_of pass.old) }
        ensures turned { (sign : _) → IsExchange sign self.now → Turned (X.brings sign) (X.gives sign) (X.leaves sign) (parties_of self.now) (number_of pass.old) (history_of pass.old) (own_of pass.old) (history_of pass.new) (own_of pass.new) (call_of wish) (reply_of result) }
        ensures fits { AnswerFits wish result }
    {
        let by = pass.number();
        self.shelf.call(rt, &(), pass, 0, Ask { by, wish })
    }

    /// One turn at the desk that parties may wait for, and news of it.
    fn call_with_news<R: Wait>(
        &self,
        rt: &R,
        pass: &mut ExchangePass<X>,
        wish: Wish<X::Token>,
    ) -> Answer<X::Token>
        requires exchange { (sign : _) × IsExchange sign self.now }
        requires own { Belongs self.now pass.old }
        requires fits { (sign : _) → IsExchange sign self.now → CallFits (X.brings sign) (X.gives sign) (X.leaves sign) (number_of pass.old) (call_of wish) }
        ensures own { Belongs self.now pass.new × (number_of pass.new ≡ number_of pass.old) }
        ensures turned { (sign : _) → IsExchange sign self.now → Turned (X.brings sign) (X.gives sign) (X.leaves sign) (parties_of self.now) (number_of pass.old) (history_of pass.old) (own_of pass.old) (history_of pass.new) (own_of pass.new) (call_of wish) (reply_of result) }
        ensures fits { AnswerFits wish result }
    {
        let answer = self.call(rt, pass, wish);
        self.shelf.announce(pass, 0);
        answer
    }

    /// Brings a token. The party that is the last to do so, of those that take part, is elected, and gets what each has
    /// brought, in its place; the others wait for what it gives them, as by `receive`. The token comes back if the party
    /// has brought one already, has one to take or to give, or has left. It may wait for its turn, and not for the
    /// others.
    pub fn gather<R: Wait>(
        &self,
        rt: &R,
        pass: &mut ExchangePass<X>,
        token: X::Token,
    ) -> Result<Gathered<X::Token>, X::Token>
        requires exchange { (sign : _) × IsExchange sign self.now }
        requires own { Belongs self.now pass.old }
        requires token { (sign : _) → IsExchange sign self.now → X.brings sign (number_of pass.old) token }
        ensures own { Belongs self.now pass.new × (number_of pass.new ≡ number_of pass.old) }
        ensures called { Called self.now pass.old pass.new (Bring token) (gather_reply result) }
        ensures stage { stage_of pass.new ≡ stage_after (stage_of pass.old) (gather_reply result) }
        ensures free { stage_of pass.old ≡ stage.Free → IsOk result }
        ensures back { IfErr result (λ x. x ≡ token) }
        ensures one_each { IfElected result (λ places. length places ≡ parties_of self.now) }
        ensures collected { IfElected result (λ places. HasCollected (parties_of self.now) (history_of pass.new) places) }
        ensures all { IfElected result (λ places. IsOfAllLeft (parties_of self.now) (history_of pass.new) places) }
        ensures tokens { IfElected result (λ places. (sign : _) → IsExchange sign self.now → Each (X.brings sign) places) }
        ensures absent { IfElected result (λ places. (sign : _) → IsExchange sign self.now → AreMissing (X.leaves sign) (parties_of self.now) places) }
    {
        match self.call(rt, pass, Wish::Bring(token)) {
            Answer::Waiting => Ok(Gathered::Waiting),
            Answer::Collected(places) => Ok(Gathered::Elected(places)),
            Answer::Back(token) => Err(token),
            _ => unreachable!(),
        }
    }

    /// The elected gives a token to each party that takes part, in its place, itself too unless it has left. The tokens
    /// come back if the party is not elected, or if they are not for exactly those whose tokens it got. It may wait for
    /// its turn.
    pub fn scatter<R: Wait>(
        &self,
        rt: &R,
        pass: &mut ExchangePass<X>,
        places: Vec<Option<X::Token>>,
    ) -> Result<(), Vec<Option<X::Token>>>
        requires exchange { (sign : _) × IsExchange sign self.now }
        requires own { Belongs self.now pass.old }
        requires tokens { (sign : _) → IsExchange sign self.now → Each (X.gives sign) places.items }
        ensures own { Belongs self.now pass.new × (number_of pass.new ≡ number_of pass.old) }
        ensures called { Called self.now pass.old pass.new (Give places.items) (scatter_reply result) }
        ensures stage { stage_of pass.new ≡ stage_after (stage_of pass.old) (scatter_reply result) }
        ensures elected { HasToGive (stage_of pass.old) (who places.items) → IsOk result }
        ensures back { IfErr result (λ v. v ≡ places) }
    {
        match self.call_with_news(rt, pass, Wish::Give(places)) {
            Answer::Given => Ok(()),
            Answer::AllBack(places) => Err(places),
            _ => unreachable!(),
        }
    }

    /// Takes the token that was given to the party, and returns None if there is none yet. It may wait for its turn.
    pub fn take<R: Wait>(&self, rt: &R, pass: &mut ExchangePass<X>) -> Option<X::Token>
        requires exchange { (sign : _) × IsExchange sign self.now }
        requires own { Belongs self.now pass.old }
        ensures own { Belongs self.now pass.new × (number_of pass.new ≡ number_of pass.old) }
        ensures called { Called self.now pass.old pass.new Take (take_reply result) }
        ensures stage { stage_of pass.new ≡ stage_after (stage_of pass.old) (take_reply result) }
        ensures taken { IfSome result (λ x. HasTaken (number_of pass.old) (history_of pass.new) x) }
        ensures token { IfSome result (λ x. (sign : _) → IsExchange sign self.now → X.gives sign (number_of pass.old) x) }
    {
        match self.call(rt, pass, Wish::Take) {
            Answer::Taken(token) => Some(token),
            Answer::Nothing => None,
            _ => unreachable!(),
        }
    }

    /// The party takes part no more, and later phases end without it. If all others had brought a token, the phase ends
    /// now: the party gets what each brought, and gives to each, as by `gather` and `scatter`, and is given nothing
    /// itself. Busy if it has a token to take or tokens to give, and Gone if it has left before; nothing changes then.
    /// It may wait for its turn, and not for the others.
    pub fn leave<R: Wait>(
        &self,
        rt: &R,
        pass: &mut ExchangePass<X>,
    ) -> Result<Departure<X::Token>, Stays>
        requires exchange { (sign : _) × IsExchange sign self.now }
        requires own { Belongs self.now pass.old }
        requires may { (sign : _) → IsExchange sign self.now → X.leaves sign (number_of pass.old) }
        ensures own { Belongs self.now pass.new × (number_of pass.new ≡ number_of pass.old) }
        ensures called { Called self.now pass.old pass.new Leave (leave_reply result) }
        ensures stage { stage_of pass.new ≡ stage_after (stage_of pass.old) (leave_reply result) }
        ensures free { stage_of pass.old ≡ stage.Free → IsOk result }
        ensures one_each { IfLeaving result (λ places. length places ≡ parties_of self.now) }
        ensures collected { IfLeaving result (λ places. HasCollected (parties_of self.now) (history_of pass.new) places) }
        ensures all { IfLeaving result (λ places. IsOfAllLeft (parties_of self.now) (history_of pass.new) places) }
        ensures tokens { IfLeaving result (λ places. (sign : _) → IsExchange sign self.now → Each (X.brings sign) places) }
        ensures absent { IfLeaving result (λ places. (sign : _) → IsExchange sign self.now → AreMissing (X.leaves sign) (parties_of self.now) places) }
    {
        match self.call(rt, pass, Wish::Leave) {
            Answer::Left(false) => Ok(Departure::Left),
            Answer::Left(true) => Ok(Departure::Last),
            Answer::Leaving(places) => Ok(Departure::Elected(places)),
            Answer::Busy => Err(Stays::Busy),
            Answer::Gone => Err(Stays::Gone),
            _ => unreachable!(),
        }
    }
}
