//! What the cells of a table hold: states that calls change, and how a state is stored in words.

ghost use Rattle.std.specs.Prelude.{◌≡◌, ℕ, List, Option, IsTrue, length};
ghost use Rattle.std.specs.Option.{option_copied};

/// The most words of a state, 512 KiB: a call has them on its stack, as it has the state itself, so that a partition
/// has no memory besides its words of the region.
pub const MOST_VALUE_WORDS: usize = 65_536;

/// The object of which a table has one under each key. A call may make it, change it or remove it.
///
/// A partition crosses threads, and may be under a lock, if `O: CellObject + Send`, `O::State: Send`, `O::Call: Send`
/// and `O::Reply: Send`: a caller that keeps it there asks for these four.
pub trait CellObject {
    /// The words that a state takes, at most `MOST_VALUE_WORDS`.
    const VALUE_WORDS: usize;

    /// The state under a key.
    type State: Copy;

    /// What a caller asks of a key.
    type Call: Copy;

    /// What it is answered.
    type Reply: Drop;

    ghost VALUE_WORDS: { ℕ };

    // the state that a call leaves, if any, and its reply
    ghost stepped: { Option Self.State → Self.Call → Option Self.State × Self.Reply };

    // which call of which key the caller of a number may make: keys may be left to callers as their own
    ghost may: { ℕ → List ℕ → Self.Call → Type 0 } = { λ caller key call. Unit {0} };

    // the states that the program's values are: their numbers are in range
    ghost is_value: { Self.State → Type 0 };

    ghost encoded: { Self.State → List ℕ };

    ghost decoded: { List ℕ → Self.State };

    /// What the call makes of the state, if there is one, and its reply.
    fn step(state: Option<&Self::State>, call: &Self::Call) -> (Option<Self::State>, Self::Reply)
        ensures { result ≡ stepped (option_copied state.entry) call.now };

    /// Whether the call only reads: then it leaves whatever is there, and a cell's words are neither read again nor
    /// written. An object may answer false for each call.
    fn reads(call: &Self::Call) -> bool
        ensures { IsTrue result → (s : Option Self.State) → (stepped s call.now).0 ≡ s };

    /// Writes the state into `VALUE_WORDS` words.
    fn encode(state: &Self::State, out: &mut [u64])
        requires { length out.old ≡ VALUE_WORDS }
        ensures words { out.new ≡ encoded state.now }
        ensures value { is_value state.now };

    /// Reads the state from `VALUE_WORDS` words.
    fn decode(words: &[u64]) -> Self::State
        requires { length words.now ≡ VALUE_WORDS }
        ensures { result ≡ decoded words.now };

    // a state that is a value reads back as it was written
    ghost reads_back: { (s : Self.State) → is_value s → decoded (encoded s) ≡ s };
}
