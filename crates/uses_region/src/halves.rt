//! Two threads in the two halves of a region.

ghost use Rattle.std.specs.Prelude.{◌≡◌, ℕ, ◌+◌, ◌<◌, ◌≤◌, ◌^◌, IsSome, IsTrue, Some};
ghost use Rattle.word_map.specs.WordMap.{at as word_at, union};
ghost use Rattle.region_words.specs.Parts.{owned};

use region_words::{Part, Region};
use std::thread::{Threads, join};

/// Stores in both halves of a part and reads both back, whatever lies between.
#[tactic(auto, using(word_map::proofs::Maps::answers, std::proofs::lemmas::Bool::Decides::nat_tests))]
pub fn both_halves(r: &Region, part: &mut Part) -> (u64, u64)
    requires here { part.old.region ≡ r.now }
    requires owns { (k : ℕ) → k < 64 → IsSome (word_at part.old.words k) }
    ensures { result ≡ (7, 8) }
{
    let mut high = part.split(r, 32, 32);
    part.store(r, 3, 7);
    high.store(r, 40, 8);
    part.join(r, high);
    let low = part.load(r, 3);
    (low, part.load(r, 40))
}

/// Stores the numbers below `rounds` in turn in 32 words, and reads each back at once. Answers the part and whether all
/// were read back.
#[tactic(auto, using(word_map::proofs::Maps::answers, std::proofs::lemmas::Bool::Decides::nat_tests))]
pub fn count_up(r: &Region, part: Part, from: u64, rounds: u64) -> (Part, bool)
    requires here { part.region ≡ r.now }
    requires small { from < 2 ^ 27 }
    requires owns { (k : ℕ) → from ≤ k → k < from + 32 → IsSome (word_at part.words k) }
    ensures region { result.0.region ≡ part.region }
    ensures owns { (k : ℕ) → from ≤ k → k < from + 32 → IsSome (word_at result.0.words k) }
    ensures read_back { IsTrue result.1 }
{
    let mut part = part;
    let mut all = true;
    for i in 0..rounds {
        let at = from + i % 32;
        part.store(r, at, i);
        if part.load(r, at) != i {
            all = false;
        }
    }
    (part, all)
}

/// Two threads count up, each in a half of the part. The joined part has the words of both again.
#[tactic(auto, using(word_map::proofs::Maps::answers, std::proofs::lemmas::Bool::Decides::nat_tests))]
pub fn swap_halves<R: Threads + Sync>(rt: &R, r: &Region, part: Part, rounds: u64) -> (Part, bool)
    requires here { part.region ≡ r.now }
    requires owns { (k : ℕ) → k < 64 → IsSome (word_at part.words k) }
    ensures region { result.0.region ≡ part.region }
    ensures owns { (k : ℕ) → k < 64 → IsSome (word_at result.0.words k) }
    ensures read_back { IsTrue result.1 }
{
    let mut low = part;
    let high = low.split(r, 32, 32);
    let ((mut low, low_good), (high, high_good)) = join(
        rt,
        || -> (Part, bool)
            requires { (low.region ≡ r.now) × ((k : ℕ) → 0 ≤ k → k < 0 + 32 → IsSome (word_at low.words k)) }
            ensures { (result.0.region ≡ low.region) × ((k : ℕ) → 0 ≤ k → k < 0 + 32 → IsSome (word_at result.0.words k)) × IsTrue result.1 }
        { count_up(r, low, 0, rounds) },
        || -> (Part, bool)
            requires { (high.region ≡ r.now) × ((k : ℕ) → 32 ≤ k → k < 32 + 32 → IsSome (word_at high.words k)) }
            ensures { (result.0.region ≡ high.region) × ((k : ℕ) → 32 ≤ k → k < 32 + 32 → IsSome (word_at result.0.words k)) × IsTrue result.1 }
        { count_up(r, high, 32, rounds) },
    );
    low.join(r, high);
    (low, low_good && high_good)
}
