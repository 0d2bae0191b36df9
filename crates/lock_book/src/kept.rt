//! What a locked value is.

ghost use Rattle.std.specs.Prelude.{◌≡◌, ℕ, Option, None, unwrap_or};

/// A value that threads take turns at. Its name never changes; its state is what a call may change.
///
/// The members say what a contract sees. A history has only the call and the `reply` of an input and an output, so they
/// have to say all that is to be known of a call; what goes in and comes out whole, as a token, is said by `out_fits`.
pub trait Kept: Send + Drop {
    /// What `apply` may use besides the value, by reference.
    type Env;

    type In;

    type Out;

    /// What is fixed of a value, as sizes, places and the region of its tokens. Plain data, like the next three: no
    /// value of them need be made.
    type Name;

    type State;

    type Call;

    type Reply;

    ghost name: { Self → Self.Name };

    ghost state: { Self → Self.State };

    // the call that an input represents, and the reply that an output represents
    ghost call: { Self.In → Self.Call };

    ghost reply: { Self.Out → Self.Reply };

    // the call that the value chose, if it did, as the output says; if the output says none, the input's was made
    ghost chosen: { Self.In → Self.Out → Option Self.Call } = { λ input output. None };

    // the environments that may be used at a value of this name
    ghost env_fits: { Self.Name → Self.Env → Type 0 };

    // the inputs that the caller of this number may pass to a value of this name
    ghost in_fits: { Self.Name → ℕ → Self.In → Type 0 };

    // the outputs that an input may have
    ghost out_fits: { Self.Name → Self.In → Self.Out → Type 0 };

    // at a value of this name and state, the caller's call may get the reply and leave the second state
    ghost legal: { Self.Name → ℕ → Self.State → Self.Call → Self.Reply → Self.State → Type 0 };

    /// Takes no memory from the shelf, and runs while the value's lock is held.
    fn apply(&mut self, env: &Self::Env, input: Self::In) -> Self::Out
        requires env { env_fits (name self.old) env.now }
        requires input { (n : ℕ) × in_fits (name self.old) n input }
        ensures legal { (n : ℕ) → in_fits (name self.old) n input → legal (name self.old) n (state self.old) (unwrap_or (chosen input result) (call input)) (reply result) (state self.new) }
        ensures name { name self.new ≡ name self.old }
        ensures output { out_fits (name self.old) input result };
}
