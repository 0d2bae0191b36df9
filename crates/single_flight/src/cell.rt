//! The cell of a key, as a locked value.

ghost use Rattle.std.specs.Prelude.{◌≡◌};
ghost use Rattle.single_flight.specs.Cells.{CallFits, MayCall, MayReply, stepped};

use crate::history::{CellCall, CellReply, CellState};
use crate::values::Values;
use lock_book::Kept;

/// The call of a caller, by its number.
#[derive(Clone, Copy, Drop)]
pub struct Ask<V> {
    pub by: u32,
    pub call: CellCall<V>,
}

/// The cell of this key.
#[derive(Drop)]
pub struct Cell<L: Values> {
    pub key: u32,
    pub state: CellState<L::Value>,
}

/// What the call of the caller `n` is answered in the state `s`, and the state after it.
fn step<V: Copy>(n: u32, s: CellState<V>, call: CellCall<V>) -> (CellReply<V>, CellState<V>)
    ensures stepped { result ≡ stepped n s call }
    ensures fits { MayReply call result.0 }
{
    match (s, call) {
        (CellState::Here(_, value), CellCall::Ask | CellCall::Look(_)) => {
            (CellReply::Value(value), s)
        }
        (CellState::Empty(load), CellCall::Ask) => {
            (CellReply::Yours(load), CellState::Loading(load, n))
        }
        (CellState::Loading(load, _), CellCall::Ask) => (CellReply::Busy(load), s),
        (CellState::Loading(load, _), CellCall::Look(number)) if load == number => {
            (CellReply::Busy(load), s)
        }
        (_, CellCall::Look(_)) => (CellReply::Failed, s),
        (CellState::Loading(load, by), CellCall::Put(value)) if by == n => {
            (CellReply::Done, CellState::Here(load, value))
        }
        (CellState::Loading(load, by), CellCall::Fail) if by == n => {
            (CellReply::Done, CellState::Empty(load.wrapping_add(1)))
        }
        (CellState::Here(load, _), CellCall::Remove) => {
            (CellReply::Done, CellState::Empty(load.wrapping_add(1)))
        }
        _ => (CellReply::Refused, s),
    }
}

impl<L: Values + Send> Kept for Cell<L>
where
    L::Value: Send,
{
    type Env = ();

    type In = Ask<L::Value>;

    type Out = CellReply<L::Value>;

    type Name = u32;

    type State = CellState<L::Value>;

    type Call = CellCall<L::Value>;

    type Reply = CellReply<L::Value>;

    ghost name = { λ c. c.key };

    ghost state = { λ c. c.state };

    ghost call = { λ ask. ask.call };

    ghost reply = { λ r. r };

    ghost env_fits = { λ _ _. Unit {0} };

    // an ask is the caller's own, and puts what is true of the key
    ghost in_fits = { λ k n ask. (ask.by ≡ n) × CallFits (L.holds k) ask.call };

    ghost out_fits = { λ _ ask r. MayReply ask.call r };

    ghost legal = { λ k n s c r t. MayCall (L.holds k) n s c r t };

    fn apply(&mut self, _env: &(), ask: Ask<L::Value>) -> CellReply<L::Value> {
        let (reply, state) = step(ask.by, self.state, ask.call);
        self.state = state;
        reply
    }
}
