//! The loader: a cell for each key, and the calls.
//!
//! Each call but `get` is one turn at the key's cell: what it did is the last entry of the history that its pass has
//! seen then (`Called`).

ghost use Rattle.std.specs.Prelude.{◌≡◌, ◌<◌, ℕ, [], true, false, length, IfOk, Some, None};
ghost use mathlib.Core.Option.{some};
ghost use lib.ListN.{get_elem?};
ghost use Rattle.lock_book.specs.Shown.{number_of, opens_of};
ghost use Rattle.single_flight.specs.declared.history.CellState.TheVariants.{Empty};
ghost use Rattle.single_flight.specs.declared.history.CellCall.TheVariants.{Fail, Put, Remove};
ghost use Rattle.single_flight.specs.declared.history.CellReply.TheVariants.{Done};
ghost use Rattle.single_flight.specs.Cells.{CallFits, MayReply};
ghost use Rattle.single_flight.specs.Laws.{value_in};
ghost use Rattle.single_flight.specs.Turns.{Turned};

use crate::cell::{Ask, Cell};
use crate::found::{Found, Load};
use crate::history::{CellCall, CellReply, CellState};
use crate::values::Values;
use lock_book::{Pass, Shelf};
use std::alloc::{AllocError, Global};
use std::sync::Wait;

/// Values under the keys from 0 on, which callers load when they are asked for. Threads share it by reference.
#[derive(Drop)]
pub struct Loader<L: Values + Send>
where
    L::Value: Send,
{
    pub(crate) shelf: Shelf<Cell<L>>,
    pub ghost opens: { (k : ℕ) (o : _) → get_elem? (opens_of shelf) k ≡ some o → (o.0 ≡ k) × (o.1 ≡ Empty 0) },
}

/// One caller's token at a loader, which may go to another thread. For each key it shows the history that the caller has
/// seen, and its own calls.
pub type LoaderPass<L> = Pass<Cell<L>>;

/// A cell for each key, with nothing in it.
fn empty_cells<L: Values>(alloc: Global, keys: u32) -> Result<Vec<Cell<L>>, AllocError>
    ensures count { IfOk result (λ v. length v.items ≡ keys) }
    ensures empty { IfOk result (λ v. (k : ℕ) (c : _) → get_elem? v.items k ≡ some c → (c.key ≡ k) × (c.state ≡ Empty 0)) }
{
    let mut cells = Vec::new(alloc);
    for key in 0..keys {
        cells.push(Cell {
            key,
            state: CellState::Empty(0),
        })?;
    }
    Ok(cells)
}

impl<L: Values + Send> Loader<L>
where
    L::Value: Send,
{
    ghost use Rattle.single_flight.specs.Shown.{AreAll, Belongs, Called, Asked, HasFailed, HasLoad, IfFailed, IfLoad, IfValue, history_of, key_of, keys_of, load_of, number_found, own_of, removal_reply};

    /// A loader of values under the keys below `keys`, with none yet, and a pass for each caller, numbered from 0. It
    /// takes some 100 bytes for each key; no other call takes memory.
    pub fn new(
        alloc: Global,
        keys: u32,
        callers: u32,
    ) -> Result<(Loader<L>, Vec<LoaderPass<L>>), AllocError>
        requires keys { 0 < keys }
        requires callers { 0 < callers }
        ensures keys { IfOk result (λ r. keys_of r.0 ≡ keys) }
        ensures callers { IfOk result (λ r. length r.1.items ≡ callers) }
        ensures passes { IfOk result (λ r. AreAll r.0 r.1.items) }
        ensures fresh { IfOk result (λ r. (i : ℕ) (p : _) → get_elem? r.1.items i ≡ some p → (k : ℕ) → (history_of p k ≡ []) × (own_of p k ≡ [])) }
    {
        let cells = empty_cells(alloc, keys)?;
        let (shelf, passes) = Shelf::new(alloc, cells, callers)?;
        Ok((Loader { shelf }, passes))
    }

    /// One turn at the key's cell.
    pub(crate) fn call<R: Wait>(
        &self,
        rt: &R,
        pass: &mut LoaderPass<L>,
        key: u32,
        call: CellCall<L::Value>,
    ) -> CellReply<L::Value>
        requires own { Belongs self.now pass.old }
        requires key { key < keys_of self.now }
        requires fits { CallFits (L.holds key) call }
        ensures own { Belongs self.now pass.new × (number_of pass.new ≡ number_of pass.old) }
        ensures called { Called self.now pass.old pass.new key call result }
        ensures turned { Turned (L.holds key) (number_of pass.old) (history_of pass.old key) (own_of pass.old key) (history_of pass.new key) (own_of pass.new key) call result }
        ensures fits { MayReply call result }
    {
        let by = pass.number();
        self.shelf
            .call(rt, &(), pass, key as usize, Ask { by, call })
    }

    /// One turn at the key's cell that callers may wait for, and news of it.
    fn call_with_news<R: Wait>(
        &self,
        rt: &R,
        pass: &mut LoaderPass<L>,
        key: u32,
        call: CellCall<L::Value>,
    ) -> CellReply<L::Value>
        requires own { Belongs self.now pass.old }
        requires key { key < keys_of self.now }
        requires fits { CallFits (L.holds key) call }
        ensures own { Belongs self.now pass.new × (number_of pass.new ≡ number_of pass.old) }
        ensures called { Called self.now pass.old pass.new key call result }
        ensures turned { Turned (L.holds key) (number_of pass.old) (history_of pass.old key) (own_of pass.old key) (history_of pass.new key) (own_of pass.new key) call result }
        ensures fits { MayReply call result }
    {
        let reply = self.call(rt, pass, key, call);
        self.shelf.announce(pass, key as usize);
        reply
    }

    /// The value under the key, or the load of it. While another caller loads it, the caller sleeps until that load has
    /// ended, and gets the value or Failed. A caller does not `get` the key that it loads itself. It may wait forever.
    pub fn get<R: Wait>(&self, rt: &R, pass: &mut LoaderPass<L>, key: u32) -> Found<L::Value>
        requires own { Belongs self.now pass.old }
        requires key { key < keys_of self.now }
        requires free { load_of pass.old key ≡ None }
        ensures own { Belongs self.now pass.new × (number_of pass.new ≡ number_of pass.old) }
        ensures asked { Asked key pass.old pass.new }
        ensures load { load_of pass.new key ≡ number_found result }
        ensures key { IfLoad result (λ load. HasLoad self.now pass.new load × (key_of load ≡ key)) }
        ensures none { IfLoad result (λ load. value_in (history_of pass.new key) ≡ None) }
        ensures value { IfValue result (λ v. value_in (history_of pass.new key) ≡ Some v) }
        ensures holds { IfValue result (λ v. L.holds key v) }
        ensures failed { IfFailed result (HasFailed (number_of pass.old) (history_of pass.old key) (history_of pass.new key)) }
    {
        match self.call(rt, pass, key, CellCall::Ask) {
            CellReply::Value(value) => Found::Value(value),
            CellReply::Yours(number) => Found::Load(Load { key, number }),
            CellReply::Busy(number) => self.wait(rt, pass, key, number),
            _ => unreachable!(),
        }
    }

    /// Ends the caller's load: the value is there for all, and those that wait for it are woken. It may wait for its
    /// turn.
    pub fn put<R: Wait>(&self, rt: &R, pass: &mut LoaderPass<L>, load: Load, value: L::Value)
        requires own { Belongs self.now pass.old }
        requires load { HasLoad self.now pass.old load }
        requires holds { L.holds (key_of load) value }
        ensures own { Belongs self.now pass.new × (number_of pass.new ≡ number_of pass.old) }
        ensures called { Called self.now pass.old pass.new (key_of load) (Put value) Done }
        ensures load { load_of pass.new (key_of load) ≡ None }
        ensures value { value_in (history_of pass.new (key_of load)) ≡ Some value }
    {
        let Load { key, number: _ } = load;
        let CellReply::Done = self.call_with_news(rt, pass, key, CellCall::Put(value)) else {
            unreachable!()
        };
    }

    /// Ends the caller's load without a value, because it failed or the caller goes: those that wait for it get Failed,
    /// and the next caller that asks loads anew. It may wait for its turn.
    pub fn give_up<R: Wait>(&self, rt: &R, pass: &mut LoaderPass<L>, load: Load)
        requires own { Belongs self.now pass.old }
        requires load { HasLoad self.now pass.old load }
        ensures own { Belongs self.now pass.new × (number_of pass.new ≡ number_of pass.old) }
        ensures called { Called self.now pass.old pass.new (key_of load) Fail Done }
        ensures load { load_of pass.new (key_of load) ≡ None }
    {
        let Load { key, number: _ } = load;
        let CellReply::Done = self.call_with_news(rt, pass, key, CellCall::Fail) else {
            unreachable!()
        };
    }

    /// Takes the value out, if there is one, so that the next caller that asks loads it anew. A load under way goes on. It
    /// returns whether there was a value, and may wait for its turn.
    pub fn remove<R: Wait>(&self, rt: &R, pass: &mut LoaderPass<L>, key: u32) -> bool
        requires own { Belongs self.now pass.old }
        requires key { key < keys_of self.now }
        ensures own { Belongs self.now pass.new × (number_of pass.new ≡ number_of pass.old) }
        ensures called { Called self.now pass.old pass.new key Remove (removal_reply result) }
        ensures load { load_of pass.new key ≡ load_of pass.old key }
        ensures none { value_in (history_of pass.new key) ≡ None }
    {
        match self.call(rt, pass, key, CellCall::Remove) {
            CellReply::Done => true,
            CellReply::Refused => false,
            _ => unreachable!(),
        }
    }
}
