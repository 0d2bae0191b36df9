//! What a desk is asked and answers, and what the calls of an exchange answer.

/// What a caller wants.
#[derive(Drop)]
pub enum Wish<T> {
    Bring(T),
    Give(Vec<Option<T>>),
    Take,
    Leave,
}

/// The wish of a caller, by its number.
#[derive(Drop)]
pub struct Ask<T> {
    pub by: u32,
    pub wish: Wish<T>,
}

/// What a desk answers. Tokens that were refused come back.
#[derive(Drop)]
pub enum Answer<T> {
    Waiting,
    Collected(Vec<Option<T>>),
    Given,
    Taken(T),
    Nothing,
    Back(T),
    AllBack(Vec<Option<T>>),
    Left(bool),
    Leaving(Vec<Option<T>>),
    Busy,
    Gone,
}

/// The answer to a party that brings a token.
#[derive(Drop)]
pub enum Gathered<T> {
    /// Another party has yet to bring one, or the elected to give: `receive` waits for it.
    Waiting,
    /// All that take part have brought one, and the caller is elected: what each party brought, in its place. The place
    /// of a party that has left has none.
    Elected(Vec<Option<T>>),
}

/// The answer to a party that leaves.
#[derive(Drop)]
pub enum Departure<T> {
    /// Others take part still.
    Left,
    /// Nobody takes part any more.
    Last,
    /// All others had brought a token, so the phase has ended, and the caller is elected: what each of them brought, in
    /// its place. The caller has to `scatter` to them, and is given nothing itself.
    Elected(Vec<Option<T>>),
}

/// Why a party can't leave.
#[derive(Clone, Copy, Debug, Drop, PartialEq)]
pub enum Stays {
    /// It has a token to take, or tokens to give.
    Busy,
    /// It has left before.
    Gone,
}
