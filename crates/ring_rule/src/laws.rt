//! What makes the rules of a ring mean something: words fix counts and messages.

ghost use Rattle.std.specs.Prelude.{◌≡◌, ℕ, ◌+◌, ◌≤◌, List, All};
ghost use Rattle.rel_pointer.specs.Bytes.{AllBytes};
ghost use Rattle.ring_rule.specs.Frames.{frames, AreWhole};
ghost use Rattle.ring_rule.specs.Ring.{Ring, IsRing, count_word};

/// Lists of messages that have the same frames are equal.
pub fn frames_are_told_apart()
    ensures { (ms ns : List (List ℕ)) → All AllBytes ms → All AllBytes ns → frames ms ≡ frames ns → ms ≡ ns }
{}

/// The same words have only one list of whole messages.
pub fn whole_messages_are_fixed()
    ensures { (words : List ℕ) (ms ns : List (List ℕ)) → AreWhole words ms → AreWhole words ns → ms ≡ ns }
{}

/// Two counts that have the same word are equal if they are at most a ring's length above a common count. So the word
/// of a count fixes the count, though counts have no bound.
pub fn a_count_is_fixed()
    ensures { (r : Ring) (low m n : ℕ) → IsRing r → low ≤ m → m ≤ low + r.size → low ≤ n → n ≤ low + r.size → count_word r m ≡ count_word r n → m ≡ n }
{}
