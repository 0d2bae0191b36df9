//! The left rows of each key, as a chain: the last row of the key, and for each row the one before it.

ghost use Rattle.std.specs.Prelude.{◌≡◌, ◌<◌, ◌+◌, ◌++◌, ◌∷◌, ℕ, ◌^◌, List, [], All, IfOk, OnOk, length, replicate};
ghost use Rattle.row_blocks.specs.Blocks.{Table};
ghost use Rattle.join_pairs.specs.Chains.{HasChain, before_in};
ghost use Rattle.join_pairs.specs.Gathered.{AddsRow, HasChains, HasLinks, HasPlaces, HasRoom};

use crate::lasts::Lasts;
use key_index::KeyTable;
use std::alloc::{AllocError, Global};

/// A row that came with its key, and the row of that key that came before it, or 0 if there was none.
#[derive(Debug, Clone, Copy, PartialEq, Eq)]
pub struct Link {
    pub row: u64,
    pub before: u64,
}

/// The row before each row, and the last row of each key to which a row was added that no table had. No row has the
/// number 0, which ends a chain.
#[derive(Drop)]
pub struct Chains {
    /// The keys to which rows were added, each once.
    keys: KeyTable,
    /// The last row of the key at each place.
    lasts: Vec<u64>,
    /// The row before each row, by its number.
    befores: Vec<u64>,
}

impl Chains {
    /// No chains, of rows up to this number.
    pub(crate) fn new(alloc: Global, last: u64) -> Result<Chains, AllocError>
        requires few { last < 2 ^ 63 }
        ensures keys { IfOk result (λ c. (c.keys ≡ []) × (c.lasts.items ≡ [])) }
        ensures befores { IfOk result (λ c. c.befores.items ≡ replicate (last + 1) 0) }
    {
        Ok(Chains {
            keys: KeyTable::new(alloc),
            lasts: Vec::new(alloc),
            befores: vec![in alloc; 0u64; last as usize + 1]?,
        })
    }

    /// Sets the row before each of these.
    pub(crate) fn link_all(&mut self, links: &[Link])
        requires rows { All (λ l. HasRoom self.old l.row) links.now }
        ensures linked { HasLinks links.now self.old.befores.items self.new.befores.items }
        ensures same { (self.new.keys ≡ self.old.keys) × (self.new.lasts ≡ self.old.lasts) }
    {
        for link in links {
            self.befores[link.row as usize] = link.before;
        }
    }

    /// A new key has the chain that ends with this row.
    pub(crate) fn add_key(&mut self, alloc: Global, key: &[u8], last: u64) -> Result<(), AllocError>
        requires places { HasPlaces self.old }
        ensures places { OnOk result (HasPlaces self.new) }
        ensures keys { OnOk result (self.new.keys ≡ self.old.keys ++ key.now ∷ []) }
        ensures lasts { OnOk result (self.new.lasts.items ≡ self.old.lasts.items ++ last ∷ []) }
        ensures befores { self.new.befores ≡ self.old.befores }
    {
        self.lasts.push(last)?;
        self.keys.push(alloc, key)
    }

    /// A row goes to the end of the chain of its key.
    pub(crate) fn add_row<L: Lasts>(
        &mut self,
        alloc: Global,
        table: &L,
        key: &[u8],
        row: u64,
    ) -> Result<(), AllocError>
        requires places { HasPlaces self.old }
        requires room { HasRoom self.old row }
        ensures places { OnOk result (HasPlaces self.new) }
        ensures room { length self.new.befores.items ≡ length self.old.befores.items }
        ensures added { OnOk result (AddsRow (L.last_of table.now) key.now row self.old self.new) }
    {
        match self.keys.find(key) {
            Some(place) => {
                self.befores[row as usize] = self.lasts[place];
                self.lasts[place] = row;
                Ok(())
            }
            None => {
                self.befores[row as usize] = table.last(key);
                self.add_key(alloc, key, row)
            }
        }
    }

    /// The last row of a key, or 0 if it has none.
    pub(crate) fn last<L: Lasts>(&self, table: &L, key: &[u8]) -> u64
        ensures { (records : Table) (column : ℕ) (rows : List ℕ) → HasChains records column rows (L.last_of table.now) self.now
            → HasChain (before_in self.now.befores.items) records column rows key.now result }
    {
        match self.keys.find(key) {
            Some(place) => self.lasts.get(place).copied().unwrap_or(0),
            None => table.last(key),
        }
    }

    /// The row before this one, or 0.
    pub(crate) fn before(&self, row: u64) -> u64
        ensures { result ≡ before_in self.now.befores.items row }
    {
        self.befores.get(row as usize).copied().unwrap_or(0)
    }
}
