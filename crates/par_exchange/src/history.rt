//! What the history of an exchange is made of: the calls with their replies, and the states between them. It is what
//! contracts see of the tokens; no value of it is made.
//!
//! The tokens of a phase lie in a list of places, one for each party. The place of a party that has left has none.

use std::collections::LinkedList;

/// What is fixed of an exchange: how many parties it has, and what the facts about its tokens may name.
pub struct ExchangeName<S> {
    pub parties: u32,
    pub sign: S,
}

/// The state of an exchange between two calls: of each party, the token that it brought in this phase, the token that
/// was given to it and that it has not taken, and whether it takes part still; and which party is elected and has the
/// tokens of all, if one is.
pub struct ExchangeState<T> {
    pub brought: LinkedList<Option<T>>,
    pub given: LinkedList<Option<T>>,
    pub present: LinkedList<bool>,
    pub elected: Option<u32>,
}

/// A call at an exchange.
pub enum ExchangeCall<T> {
    /// A token is brought.
    Bring(T),
    /// The elected gives a token to each party that takes part, in its place.
    Give(LinkedList<Option<T>>),
    /// A token is asked for.
    Take,
    /// The caller wants to take part no more.
    Leave,
}

/// What a call is answered.
pub enum ExchangeReply<T> {
    /// Another party has yet to bring a token.
    Waiting,
    /// The phase has ended. The caller is elected, and has what each party brought, in its place.
    Collected(LinkedList<Option<T>>),
    /// Each party that takes part may take its token.
    Given,
    /// The caller has its token.
    Taken(T),
    /// Nothing was given to the caller, or it took it.
    Nothing,
    /// It is not the caller's turn; its tokens come back.
    Refused,
    /// The caller takes part no more, and whether it was the last that did.
    Left(bool),
    /// The caller takes part no more, and all others had brought a token: the phase has ended. The caller is elected, and
    /// has what they brought.
    Leaving(LinkedList<Option<T>>),
    /// The caller has left before.
    Gone,
}

/// The stage of a party, by its own calls.
pub enum PartyStage {
    /// It may bring a token, or leave.
    Free,
    /// It brought one, or gave all of them, and has to take one.
    Waits,
    /// It has the tokens of all, and has to give one to each of these parties.
    Elected(LinkedList<bool>),
    /// It has left, has the tokens of all others, and has to give one to each of these parties.
    Leaving(LinkedList<bool>),
    /// It has left.
    Gone,
}
