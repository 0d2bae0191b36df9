//! The wait for a value that another caller loads.

ghost use Rattle.std.specs.Prelude.{◌≡◌, ◌<◌, ◌++◌, true, Some, None};
ghost use Rattle.std.specs.List.{list_any};
ghost use Rattle.lock_book.specs.History.{last_of};
ghost use Rattle.lock_book.specs.Shown.{number_of};
ghost use Rattle.single_flight.specs.declared.history.CellState.TheVariants.{Empty, Loading};
ghost use Rattle.single_flight.specs.Laws.{value_in};
ghost use Rattle.single_flight.specs.Shown.{Belongs, Asked, IfFailed, IfValue, history_of, keys_of, load_of, number_found};
ghost use Rattle.single_flight.specs.Turns.{WasLostSince};

use crate::found::Found;
use crate::history::{CellCall, CellReply};
use crate::loader::{Loader, LoaderPass};
use crate::values::Values;
use std::sync::Wait;

impl<L: Values + Send> Loader<L>
where
    L::Value: Send,
{
    /// What came of the load of this number, which is under way: it looks each time that a load of the key ends, and
    /// sleeps in between.
    pub(crate) fn wait<R: Wait>(
        &self,
        rt: &R,
        pass: &mut LoaderPass<L>,
        key: u32,
        number: u64,
    ) -> Found<L::Value>
        requires own { Belongs self.now pass.old }
        requires key { key < keys_of self.now }
        requires free { load_of pass.old key ≡ None }
        requires loading { (m : _) × (last_of (Empty 0) (history_of pass.old key) ≡ Loading number m) }
        ensures own { Belongs self.now pass.new × (number_of pass.new ≡ number_of pass.old) }
        ensures asked { Asked key pass.old pass.new }
        ensures load { (load_of pass.new key ≡ None) × (number_found result ≡ None) }
        ensures value { IfValue result (λ v. value_in (history_of pass.new key) ≡ Some v) }
        ensures holds { IfValue result (λ v. L.holds key v) }
        ensures failed { IfFailed result (WasLostSince (history_of pass.old key) (history_of pass.new key)) }
    {
        for _ in rt.forever() {
            let seen = self.shelf.news(key as usize);
            match self.call(rt, pass, key, CellCall::Look(number)) {
                CellReply::Value(value) => return Found::Value(value),
                CellReply::Busy(_) => self.shelf.await_news(rt, pass, key as usize, seen),
                CellReply::Failed => return Found::Failed,
                _ => unreachable!(),
            }
        }
        unreachable!()
    }
}
