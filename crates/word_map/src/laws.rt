//! Cutting and joining undo each other.

ghost use Rattle.std.specs.Prelude.{◌≡◌, ℕ, ◌+◌, ◌<◌, ◌≤◌};
ghost use Rattle.word_map.specs.WordMap.{WordMap, range_of, rest_of, union, Disjoint, HasJust};

/// What is cut off and joined again gives the map back, and the two pieces have no word in common.
pub fn cut_and_joined()
    ensures same { (m : WordMap) (from len : ℕ) → union (rest_of m from len) (range_of m from len) ≡ m }
    ensures apart { (m : WordMap) (from len : ℕ) → Disjoint (rest_of m from len) (range_of m from len) }
{}

/// Words in a row that are joined to a map without any of them are cut off again as they were. So a caller that joins
/// two owners learns that they have no word in common, and can separate them again by one cut.
pub fn joined_and_cut()
    ensures row { (m n : WordMap) (from len : ℕ) → HasJust n from len → range_of (union m n) from len ≡ n }
    ensures others { (m n : WordMap) (from len : ℕ) → Disjoint m n → HasJust n from len → rest_of (union m n) from len ≡ m }
{}
