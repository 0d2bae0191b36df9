//! What a run is asked for, read from its words.

ghost use Rattle.std.specs.Prelude.{◌≡◌, ◌≤◌, ◌^◌, IsTrue, IfSome};

use crate::chunks::Way;
use crate::keys::Work;

/// The most threads of a load.
const MOST_THREADS: u64 = 64;

/// The threads of a queue: one at each end.
const QUEUE_THREADS: u32 = 2;

/// The most calls of a thread.
const MOST_CALLS: u64 = 1 << 32;

/// The least size of a load, which is the one if the words say none.
const LEAST_SIZE: u64 = 8;

/// The greatest size of a load.
const MOST_SIZE: u64 = 1_000_000;

/// The words without a size: the kind, the threads and the calls.
const FEWEST_WORDS: usize = 3;

/// The object that is called, and how.
#[derive(Clone, Copy)]
pub enum Kind {
    /// Each call adds 1 to a number behind a lock.
    Lock,
    /// Each call allocates a chunk, writes a word of it, and frees it or one that was allocated before.
    Chunks(Way),
    /// Each call sends a message, or receives it. With `flush` the receiver is shown each message at once, and otherwise it
    /// may see it later.
    Queue { flush: bool },
    /// Each call puts or gets a key.
    Keys(Work),
}

/// A run: this many threads make this many calls each. `size` is in bytes or in keys.
#[derive(Clone, Copy)]
pub struct Load {
    pub kind: Kind,
    pub threads: u32,
    pub calls: u64,
    pub size: u64,
    ghost some: { 1 ≤ threads },
    ghost threads_few: { threads ≤ 64 },
    ghost calls_few: { calls ≤ 2 ^ 32 },
    ghost size_some: { 8 ≤ size },
    ghost size_few: { size ≤ 1000000 },
}

/// The kind with this name.
fn kind_of(word: &str) -> Option<Kind> {
    match word {
        "lock" => Some(Kind::Lock),
        "area" => Some(Kind::Chunks(Way::Pairs)),
        "spares" => Some(Kind::Chunks(Way::Spares)),
        "window" => Some(Kind::Chunks(Way::Window)),
        "queue" => Some(Kind::Queue { flush: false }),
        "flushed" => Some(Kind::Queue { flush: true }),
        "puts" => Some(Kind::Keys(Work::Puts)),
        "gets" => Some(Kind::Keys(Work::Gets)),
        "sets" => Some(Kind::Keys(Work::Sets)),
        _ => None,
    }
}

/// The number from `least` to `most` that the word writes.
fn number(word: &str, least: u64, most: u64) -> Option<u64>
    ensures least { IfSome result (λ n. least ≤ n) }
    ensures most { IfSome result (λ n. n ≤ most) }
{
    let n = word.parse::<u64>().ok()?;
    if n < least || most < n {
        return None;
    }
    Some(n)
}

/// What the words ask for, `None` if they ask for nothing that there is. Without a size it is the least one.
pub fn load_of(words: &[String]) -> Option<Load> {
    if words.len() < FEWEST_WORDS || FEWEST_WORDS + 1 < words.len() {
        return None;
    }
    let kind = kind_of(words[0].as_str())?;
    let threads = number(words[1].as_str(), 1, MOST_THREADS)? as u32;
    let calls = number(words[2].as_str(), 0, MOST_CALLS)?;
    let size = match words.get(FEWEST_WORDS) {
        Some(word) => number(word.as_str(), LEAST_SIZE, MOST_SIZE)?,
        None => LEAST_SIZE,
    };
    if matches!(kind, Kind::Queue { .. }) && threads != QUEUE_THREADS {
        return None;
    }
    Some(Load {
        kind,
        threads,
        calls,
        size,
    })
}
