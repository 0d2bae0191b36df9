//! What is exchanged.

ghost use Rattle.std.specs.Prelude.{ℕ};

/// What is exchanged, and what is always true of it.
///
/// An exchange crosses threads if `X: Trade + Send`, `X::Token: Send` and `X::Sign: Send`: a caller that shares it asks
/// for these three.
pub trait Trade {
    /// What a party brings, and gets.
    type Token: Drop;

    /// What the facts may name, as the region of all tokens. The exchange keeps it for good.
    type Sign: Drop;

    // what the party of this number may bring
    ghost brings: { Self.Sign → ℕ → Self.Token → Type 0 };

    // what may be given to the party of this number
    ghost gives: { Self.Sign → ℕ → Self.Token → Type 0 };

    // what is true if the party of this number leaves; with ⊥ it never does
    ghost leaves: { Self.Sign → ℕ → Type 0 };
}
