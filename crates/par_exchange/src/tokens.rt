//! The tokens of an exchange: a place for what each party brought, and one for what was given to it.
//!
//! All memory is taken when it is made. The places go to the elected with the tokens of all, and other ones come back
//! with what it gives; the third list of places is for the parties in between.

ghost use Rattle.std.specs.Prelude.{◌≡◌, ◌≢◌, ◌<◌, IfOk, None, Some, true, false, length, slice_set};
ghost use Rattle.std.specs.List.{list_any};
ghost use Rattle.par_exchange.specs.States.{cleared, fresh, is_busy, is_elected, takes_part, who};
ghost use Rattle.par_exchange.specs.Legal.{Brings, Gives, Leaves, Takes};
ghost use Rattle.par_exchange.specs.Answers.{AnswerFits, reply_of};
ghost use Rattle.par_exchange.specs.declared.asks.Wish.TheVariants as wish;

use crate::asks::Answer;
use crate::places::{all_marked, any_marked, are_of, clear_all, empty_places};
use std::alloc::{AllocError, Global};
use std::marker::Model;
use std::mem;

/// Contracts see how many parties there are, and the state.
#[derive(Drop)]
pub struct Tokens<T> {
    alloc: Global,
    parties: u32,
    brought: Vec<Option<T>>,
    given: Vec<Option<T>>,
    present: Vec<bool>,
    elected: Option<u32>,
    /// A place for each party, all of them empty, unless the elected has the tokens of all.
    spare: Vec<Option<T>>,
}

impl<T> Model for Tokens<T> {
    ghost use Rattle.std.specs.Prelude.{◌≡◌, None, length, replicate};
    ghost use Rattle.std.specs.Option.{ForNone};
    ghost use Rattle.par_exchange.specs.States.{TokensView, tokens_code};

    ghost Value = { TokensView T };

    ghost coded = { tokens_code T.code };

    ghost view = { λ d. record { parties = d.parties; state = record { brought = d.brought.items; given = d.given.items; present = d.present.items; elected = d.elected } } };

    ghost invariant = { λ d. (length d.brought.items ≡ d.parties) × (length d.given.items ≡ d.parties) × (length d.present.items ≡ d.parties) × ForNone d.elected (d.spare.items ≡ replicate d.parties None) };
}

impl<T: Drop> Tokens<T> {
    /// All take part; nothing was brought and nothing given. It takes the memory for the tokens of all.
    pub fn new(alloc: Global, parties: u32) -> Result<Tokens<T>, AllocError>
        ensures { IfOk result (λ d. d ≡ record { parties = parties; state = fresh parties }) }
    {
        let brought = empty_places(alloc, parties)?;
        let given = empty_places(alloc, parties)?;
        let present = all_marked(alloc, parties)?;
        let spare = empty_places(alloc, parties)?;
        Ok(Tokens {
            alloc,
            parties,
            brought,
            given,
            present,
            elected: None,
            spare,
        })
    }

    /// Whether the party `n` may not bring a token.
    fn is_busy(&self, n: u32) -> bool
        requires below { n < self.now.parties }
        ensures within { n < length self.now.state.brought }
        ensures busy { result ≡ is_busy n self.now.state }
    {
        self.elected.is_some()
            || self.brought[n as usize].is_some()
            || self.given[n as usize].is_some()
            || !self.present[n as usize]
    }

    /// Whether all that take part have brought a token.
    fn have_all(&self) -> bool
        ensures yes { result ≡ true → who self.now.state.brought ≡ self.now.state.present }
        ensures no { result ≡ false → who self.now.state.brought ≢ self.now.state.present }
    {
        are_of(self.brought.as_slice(), self.present.as_slice())
    }

    /// The party `n` is elected, and has what all have brought.
    fn end_phase(&mut self, n: u32) -> Vec<Option<T>>
        requires nobody { self.old.state.elected ≡ None }
        ensures tokens { result.items ≡ self.old.state.brought }
        ensures ended { self.new ≡ record self.old { state = record self.old.state { brought = cleared self.old.state.brought; elected = Some n } } }
    {
        let empty = mem::replace(&mut self.spare, Vec::new(self.alloc));
        self.elected = Some(n);
        mem::replace(&mut self.brought, empty)
    }

    /// The token of the party `n` is in its place.
    fn put(&mut self, n: u32, token: T)
        requires below { n < self.old.parties }
        ensures { self.new ≡ record self.old { state = record self.old.state { brought = slice_set self.old.state.brought n (Some token) } } }
    {
        self.brought[n as usize] = Some(token);
    }

    /// The party `n` brings a token, unless it may not. The last one gets the tokens of all.
    pub fn bring(&mut self, n: u32, token: T) -> Answer<T>
        requires below { n < self.old.parties }
        ensures parties { self.new.parties ≡ self.old.parties }
        ensures legal { Brings n self.old.state (reply_of result) self.new.state token }
        ensures fits { AnswerFits (wish.Bring token) result }
    {
        if self.is_busy(n) {
            return Answer::Back(token);
        }
        self.put(n, token);
        if !self.have_all() {
            return Answer::Waiting;
        }
        Answer::Collected(self.end_phase(n))
    }

    /// The party `n` gives a token to each party that takes part, if it is elected.
    pub fn give(&mut self, n: u32, tokens: Vec<Option<T>>) -> Answer<T>
        ensures parties { self.new.parties ≡ self.old.parties }
        ensures legal { Gives n self.old.state (reply_of result) self.new.state tokens.items }
        ensures fits { AnswerFits (wish.Give tokens) result }
    {
        if !self.is_elected(n) {
            return Answer::AllBack(tokens);
        }
        if !are_of(tokens.as_slice(), self.present.as_slice()) {
            return Answer::AllBack(tokens);
        }
        self.hand_out(tokens);
        Answer::Given
    }

    /// Each party that takes part has a token to take, and nobody is elected any more.
    fn hand_out(&mut self, tokens: Vec<Option<T>>)
        requires fits { who tokens.items ≡ self.old.state.present }
        ensures { self.new ≡ record self.old { state = record self.old.state { given = tokens.items; elected = None } } }
    {
        self.spare = mem::replace(&mut self.given, tokens);
        clear_all(self.spare.as_mut_slice());
        self.elected = None;
    }

    /// Whether the party `n` is elected, and has not given yet.
    fn is_elected(&self, n: u32) -> bool
        ensures { result ≡ is_elected n self.now.state.elected }
    {
        match self.elected {
            Some(party) => party == n,
            None => false,
        }
    }

    /// The party `n` takes the token that was given to it, if there is one.
    pub fn take(&mut self, n: u32) -> Answer<T>
        requires below { n < self.old.parties }
        ensures parties { self.new.parties ≡ self.old.parties }
        ensures legal { Takes n self.old.state (reply_of result) self.new.state }
        ensures fits { AnswerFits wish.Take result }
    {
        match self.given[n as usize].take() {
            Some(token) => Answer::Taken(token),
            None => Answer::Nothing,
        }
    }

    /// Whether the party `n` takes part.
    fn takes_part(&self, n: u32) -> bool
        requires below { n < self.now.parties }
        ensures within { n < length self.now.state.present }
        ensures here { result ≡ takes_part n self.now.state.present }
    {
        self.present[n as usize]
    }

    /// The party `n` takes part no more.
    fn part(&mut self, n: u32)
        requires below { n < self.old.parties }
        ensures { self.new ≡ record self.old { state = record self.old.state { present = slice_set self.old.state.present n false } } }
    {
        self.present[n as usize] = false;
    }

    /// Whether somebody takes part.
    fn is_in_use(&self) -> bool
        ensures { result ≡ list_any (λ here. here) self.now.state.present }
    {
        any_marked(self.present.as_slice())
    }

    /// The party `n` leaves, unless it has a token to take or to give. If all others have brought one, it gets them.
    pub fn leave(&mut self, n: u32) -> Answer<T>
        requires below { n < self.old.parties }
        ensures parties { self.new.parties ≡ self.old.parties }
        ensures legal { Leaves n self.old.state (reply_of result) self.new.state }
        ensures fits { AnswerFits wish.Leave result }
    {
        if !self.takes_part(n) {
            return Answer::Gone;
        }
        if self.is_busy(n) {
            return Answer::Busy;
        }
        self.part(n);
        if !self.is_in_use() {
            return Answer::Left(true);
        }
        if !self.have_all() {
            return Answer::Left(false);
        }
        Answer::Leaving(self.end_phase(n))
    }
}
