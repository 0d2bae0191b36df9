//! The pairs that a join gives.

ghost use Rattle.std.specs.Prelude.{◌≡◌, ◌<◌, Some, length, slice_get};

use std::marker::Model;

/// A row of the left table and a row of the right one, by their numbers, whose fields of the column are the same.
#[derive(Debug, Clone, Copy, PartialEq, Eq, PartialOrd, Ord)]
pub struct Pair {
    pub left: u64,
    pub right: u64,
}

/// Pairs, in order. Contracts see the list.
#[derive(Debug, Drop)]
pub struct Pairs {
    list: Vec<Pair>,
}

impl Model for Pairs {
    ghost use Rattle.std.specs.Prelude.{List};
    ghost use Rattle.join_pairs.specs.declared.pairs.Pair.{Pair};

    ghost Value = { List Pair };

    ghost view = { λ p. p.list.items };
}

impl Pairs {
    /// The pairs that are this list.
    pub(crate) fn of(list: Vec<Pair>) -> Pairs
        ensures { result ≡ list.items }
    {
        Pairs { list }
    }

    /// How many pairs there are.
    pub fn len(&self) -> usize
        ensures { result ≡ length self.now }
    {
        self.list.len()
    }

    /// The pairs as a list, which is lent.
    pub fn list(&self) -> &[Pair]
        ensures { result.now ≡ self.now }
    {
        self.list.as_slice()
    }

    /// The pair at this place.
    pub fn get(&self, at: usize) -> &Pair
        requires { at < length self.now }
        ensures { slice_get self.now at ≡ Some result.now }
    {
        &self.list[at]
    }
}
