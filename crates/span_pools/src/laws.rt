//! A law of every legal history of a pool.

ghost use Rattle.span_pools.specs.Lives.{StaysLive};
ghost use Rattle.span_pools.specs.declared.layout.Layout.{Layout};

/// A live object stays live until a call brings it back: no call of another object takes it away, and its superblock
/// does not go out before.
pub fn live_objects_stay()
    ensures { (l : Layout) → StaysLive l }
{}
