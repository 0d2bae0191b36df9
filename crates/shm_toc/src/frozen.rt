//! The table once it is frozen: no word of it changes, so each holder of a share reads the same.

ghost use Rattle.std.specs.Prelude.{◌≡◌, ◌≢◌, ◌+◌, ◌*◌, ◌<◌, ◌^◌, ℕ, IfOk, IfErr, OnOk, IsSome, Some};
ghost use Rattle.word_map.specs.WordMap.{at as word_at};
ghost use Rattle.shm_toc.specs.Table.{Table, place_of, entries_from, table_of, word_of, IsTable};

use region_words::{Frozen, Region};
use rel_pointer::RelPtr;
use std::marker::Model;

/// The words begin with another number than the magic one that was asked for.
#[derive(Drop)]
pub struct WrongMagic {
    pub found: u64,
    pub frozen: Frozen,
}

/// A share of a frozen table. Contracts see its region and its words; `table_of` says what the words mean.
#[derive(Drop)]
pub struct FrozenToc {
    frozen: Frozen,
}

impl Model for FrozenToc {
    ghost use Rattle.region_words.specs.Parts.{Owned, owned_code};
    ghost use Rattle.shm_toc.specs.Table.{IsTable};

    ghost Value = { Owned };

    ghost coded = { owned_code };

    ghost view = { λ t. t.frozen };

    ghost invariant = { λ t. IsTable t.frozen.words };
}

impl FrozenToc {
    pub(crate) fn of(frozen: Frozen) -> FrozenToc
        requires { IsTable frozen.words }
        ensures { result ≡ frozen }
    {
        FrozenToc { frozen }
    }

    /// A token for the same frozen words, which another thread may attach to.
    pub fn share(&mut self, r: &Region) -> Frozen
        requires here { self.old.region ≡ r.now }
        ensures same { self.new ≡ self.old }
        ensures copy { result ≡ self.old }
        ensures table { IsTable result.words }
    {
        self.frozen.share(r)
    }

    /// The table in frozen words, if it begins with this magic number.
    pub fn attach(frozen: Frozen, r: &Region, magic: u64) -> Result<FrozenToc, WrongMagic>
        requires here { frozen.region ≡ r.now }
        requires table { IsTable frozen.words }
        ensures attached { IfOk result (λ toc. ((table_of frozen.words).magic ≡ magic) × (toc ≡ frozen)) }
        ensures wrong { IfErr result (λ wrong. (wrong.found ≢ magic) × (wrong.found ≡ (table_of frozen.words).magic) × (wrong.frozen ≡ frozen)) }
    {
        let mut frozen = frozen;
        let found = frozen.load(r, 0);
        if found != magic {
            return Err(WrongMagic { found, frozen });
        }
        Ok(FrozenToc { frozen })
    }

    /// The place of the key.
    pub fn lookup(&mut self, r: &Region, key: u64) -> Option<RelPtr>
        requires here { self.old.region ≡ r.now }
        ensures same { self.new ≡ self.old }
        ensures found { result ≡ place_of (table_of self.old.words).entries key }
    {
        let count = self.frozen.load(r, 3);
        find(&mut self.frozen, r, count, key)
    }

    /// A word of the table or of a chunk that it kept.
    pub fn load(&mut self, r: &Region, at: RelPtr) -> u64
        requires here { self.old.region ≡ r.now }
        requires has { IsSome (word_at self.old.words at) }
        ensures same { self.new ≡ self.old }
        ensures found { word_at self.old.words at ≡ Some result }
    {
        self.frozen.load(r, at.word())
    }
}

/// The place of the key, in the first of the entries that has it.
fn find(frozen: &mut Frozen, r: &Region, count: u64, key: u64) -> Option<RelPtr>
    requires here { frozen.old.region ≡ r.now }
    requires owns { (k : ℕ) → k < 4 + 2 * count → IsSome (word_at frozen.old.words k) }
    requires small { count < 2 ^ 32 }
    ensures same { frozen.new ≡ frozen.old }
    ensures found { result ≡ place_of (entries_from frozen.old.words 4 count) key }
{
    for i in 0..count {
        if frozen.load(r, 4 + 2 * i) == key {
            return Some(RelPtr::of(frozen.load(r, 5 + 2 * i)));
        }
    }
    None
}
