//! The lists of a participant, one for each part of the keys.

ghost use Rattle.std.specs.Prelude.{◌≡◌, ◌<◌, ◌≤◌, ◌++◌, ◌∷◌, [], IfOk, OnErr, OnOk, Some, length, replicate, slice_get};
ghost use Rattle.par_model.specs.declared.refusal.TheConstants.{LONGEST_KEY};
ghost use Rattle.row_lists.specs.Carried.{carried};
ghost use Rattle.row_lists.specs.Parts.{part_of as key_part, with_row};

use crate::list::RowList;
use key_index::hash_of;
use std::alloc::{AllocError, Global};
use std::marker::Model;

/// How many parts there are: one for each number of a byte.
pub const PARTS: usize = 256;

/// The part of a key: the highest byte of its hash.
pub fn part_of(key: &[u8]) -> u8
    ensures { result ≡ key_part key.now }
{
    (hash_of(key) >> 56) as u8
}

/// A list for each part: a list of 256 lists of rows.
#[derive(Drop)]
pub struct PartLists {
    lists: Vec<RowList>,
}

impl Model for PartLists {
    ghost use Rattle.std.specs.Prelude.{◌≡◌, List, length};
    ghost use Rattle.row_lists.specs.Carried.{Carried};

    ghost Value = { List (List Carried) };

    ghost view = { λ l. l.lists.items };

    ghost invariant = { λ l. length l.lists.items ≡ 256 };
}

impl PartLists {
    /// Lists of no rows.
    pub fn new(alloc: Global) -> Result<PartLists, AllocError>
        ensures { IfOk result (λ lists. lists ≡ replicate 256 []) }
    {
        let mut lists = Vec::with_capacity(alloc, PARTS)?;
        for _part in 0..PARTS {
            lists.push(RowList::new(alloc))?;
        }
        Ok(PartLists { lists })
    }

    /// How many bytes the rows of all lists have.
    pub fn bytes(&self) -> usize {
        let mut bytes = 0usize;
        for list in self.lists.as_slice() {
            bytes = bytes.saturating_add(list.bytes());
        }
        bytes
    }

    /// Puts a row at the end of the list of its part.
    #[inline(always)]
    pub fn push(&mut self, key: &[u8], values: &[Option<i64>]) -> Result<(), AllocError>
        requires short { length key.now ≤ LONGEST_KEY }
        requires few { length values.now ≤ 8 }
        ensures ok { OnOk result (self.new ≡ with_row self.old (carried key.now values.now)) }
        ensures err { OnErr result (self.new ≡ self.old) }
    {
        self.lists[part_of(key) as usize].push(key, values)
    }

    /// The list of a part.
    pub fn list(&self, part: usize) -> &RowList
        requires { part < 256 }
        ensures { slice_get self.now part ≡ Some result.now }
    {
        &self.lists[part]
    }

    /// Empties all lists, which keep their memory.
    pub fn clear(&mut self)
        ensures { self.new ≡ replicate 256 [] }
    {
        for part in 0..self.lists.len() {
            self.lists[part].clear();
        }
    }
}
