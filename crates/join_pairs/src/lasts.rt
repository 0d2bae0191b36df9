//! Where the last row of a key is found that a table took.

ghost use Rattle.std.specs.Prelude.{◌≡◌};

/// A table that has been built, as `chain_all` and the second round ask it. Threads share it by reference.
pub trait Lasts: Sync {
    ghost use Rattle.std.specs.Prelude.{ℕ, List};

    // the last row of a key that the table took, or 0 if it took none
    ghost last_of: { Self → List ℕ → ℕ };

    /// The last row of a key, given as the bytes of its field, or 0. It is asked once for each right row.
    fn last(&self, key: &[u8]) -> u64
        ensures { result ≡ last_of self.now key.now };
}

/// No table: it took no row, and each is one that found no room.
#[derive(Clone, Copy, Drop)]
pub struct NoTable;

impl Lasts for NoTable {
    ghost last_of = { λ t key. 0 };

    fn last(&self, _key: &[u8]) -> u64 {
        0
    }
}
