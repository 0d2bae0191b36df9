//! What a caller finds under a key.

ghost use Rattle.std.specs.Prelude.{◌≡◌};

/// The caller has to load the value under this key, and nobody else does so meanwhile. It can't be dropped: it goes to
/// `put` or to `give_up`, with the pass that it came to.
pub struct Load {
    pub(crate) key: u32,
    pub(crate) number: u64,
}

impl Load {
    ghost use Rattle.single_flight.specs.Shown.{key_of, load_number};

    /// The key to load.
    pub fn key(&self) -> u32
        ensures { result ≡ key_of self.now }
    {
        self.key
    }

    /// Which load of the key it is, from 0: how many have failed, and how many values were removed, modulo 2^64.
    pub fn number(&self) -> u64
        ensures { result ≡ load_number self.now }
    {
        self.number
    }
}

/// What a caller finds under a key.
pub enum Found<V> {
    /// This value.
    Value(V),
    /// Nothing, and the caller loads it.
    Load(Load),
    /// The load that the caller waited for has failed, or its value was removed since. The caller may ask again, and
    /// then be the one to load.
    Failed,
}
