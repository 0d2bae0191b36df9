//! What is loaded.

ghost use Rattle.std.specs.Prelude.{ℕ};

/// What is loaded, and what is always true of it.
///
/// A loader crosses threads if `L: Values + Send` and `L::Value: Send`: a caller that shares it asks for both.
pub trait Values {
    /// The value under a key. Each caller that asks for it gets a copy.
    type Value: Copy;

    // what is true of each value that is put under this key
    ghost holds: { ℕ → Self.Value → Type 0 };
}
