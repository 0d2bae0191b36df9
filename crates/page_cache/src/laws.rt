//! What is true at each moment of a cache, whatever its callers do and in whatever order their turns come.

ghost use Rattle.page_cache.specs.Moments.{AlwaysPaid, NeverMore};

/// The law: whatever the callers do, and in any order, at no moment are there more entries than their shares.
pub fn never_more()
    ensures { NeverMore }
{}

/// A caller pays for an entry before it makes it, so what a seat says of its life is true at each event of it.
pub fn always_paid()
    ensures { AlwaysPaid }
{}
