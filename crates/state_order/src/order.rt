//! Keys that come one after another: each has to come after the one before it, and to lie within a range.
//!
//! Only the last key is kept, where it lies: as the order is total, a key that comes after it comes after all before.

ghost use Rattle.std.specs.Prelude.{◌≡◌, ◌++◌, ◌∷◌, ◌↔◌, [], ℕ, List, IfErr, IsTrue, MatchOption, OnErr, OnOk};
ghost use Rattle.state_head.specs.Words.{Keys, keys_of};
ghost use Rattle.state_order.specs.Order.{ComesBefore, HasKeys, IsIn, IsNoNext};

use crate::ranges::{is_before, is_within};
use state_head::KeyRange;

/// Why a key does not come next: its line does not come after that of the key before, or it is not within the range.
#[derive(Clone, Copy, Debug, PartialEq, Eq)]
pub enum OrderFault {
    Order,
    Range,
}

/// The keys of a file so far.
#[derive(Clone, Copy)]
pub struct KeyOrder<'a> {
    columns: u32,
    range: KeyRange<'a>,
    last: Option<&'a [u8]>,
}

impl<'a> KeyOrder<'a> {
    /// No keys; those that come will have this many columns, and lie within this range.
    pub fn new(columns: u32, range: KeyRange<'a>) -> KeyOrder<'a>
        ensures { HasKeys columns (keys_of range.entry) [] result }
    {
        KeyOrder {
            columns,
            range,
            last: None,
        }
    }

    /// Takes the next key. It costs at most three comparisons.
    pub fn take(&mut self, key: &'a [u8]) -> Result<(), OrderFault>
        ensures taken { (columns : ℕ) (range : Keys) (keys : List (List ℕ)) → HasKeys columns range keys self.old → OnOk result (HasKeys columns range (keys ++ key.now ∷ []) self.new) }

        // When each error comes.
        ensures same { OnErr result (self.new ≡ self.old) }
        ensures refused { (columns : ℕ) (range : Keys) (keys : List (List ℕ)) → HasKeys columns range keys self.old → IfErr result (IsNoNext columns range keys key.now) }
    {
        if !self.follows(key) {
            return Err(OrderFault::Order);
        }
        if !is_in(self.range, key, self.columns) {
            return Err(OrderFault::Range);
        }
        self.last = Some(key);
        Ok(())
    }

    /// Whether a key comes after the last one, if there is one.
    fn follows(&self, key: &[u8]) -> bool
        ensures { IsTrue result ↔ MatchOption self.now.last (Unit {0}) (λ last. ComesBefore self.now.columns last.now key.now) }
    {
        match self.last {
            Some(last) => is_before(last, key, self.columns),
            None => true,
        }
    }
}

/// Whether a key lies within a range.
fn is_in(range: KeyRange<'_>, key: &[u8], columns: u32) -> bool
    ensures { IsTrue result ↔ IsIn columns (keys_of range.entry) key.now }
{
    is_within(range, key, columns)
}
