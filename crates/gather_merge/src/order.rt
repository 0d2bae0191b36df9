//! The order that a merge gives: the numbers of all rows.

ghost use Rattle.std.specs.Prelude.{◌≡◌, ◌<◌, Some, length, slice_get};

use std::marker::Model;

/// The numbers of rows, in order. Contracts see the list.
#[derive(Debug, Drop)]
pub struct Order {
    list: Vec<u64>,
}

impl Model for Order {
    ghost use Rattle.std.specs.Prelude.{ℕ, List};

    ghost Value = { List ℕ };

    ghost view = { λ o. o.list.items };
}

impl Order {
    /// The order that is this list.
    pub(crate) fn of(list: Vec<u64>) -> Order
        ensures { result ≡ list.items }
    {
        Order { list }
    }

    /// How many rows there are.
    pub fn len(&self) -> usize
        ensures { result ≡ length self.now }
    {
        self.list.len()
    }

    /// The numbers as a list, which is lent.
    pub fn numbers(&self) -> &[u64]
        ensures { result.now ≡ self.now }
    {
        self.list.as_slice()
    }

    /// The number of the row at this place.
    pub fn get(&self, at: usize) -> u64
        requires { at < length self.now }
        ensures { slice_get self.now at ≡ Some result }
    {
        self.list[at]
    }
}
