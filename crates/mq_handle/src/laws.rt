//! What the whole messages of some words are.

ghost use Rattle.std.specs.Prelude.{List, ℕ};
ghost use Rattle.ring_rule.specs.Frames.{AreWhole};
ghost use Rattle.mq_handle.specs.Messages.{whole_of};

/// The whole messages of words are the longest list of messages with whose frames the words begin. A law: it does
/// nothing when it runs.
pub fn whole_is_longest()
    ensures { (words : List ℕ) → AreWhole words (whole_of words) }
{}
