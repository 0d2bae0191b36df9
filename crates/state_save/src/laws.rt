//! What is so of files that are saved, as laws of the definitions.

ghost use Rattle.state_save.specs.Saving.{LongIsKnown, SavedIsRead};

/// A file that [`push_file`](crate::push_file) writes is one that a reader takes, if its head is right, rows can give its groups, these lie within
/// its range, and there are none if a row is refused. A law: it does nothing when it runs.
pub fn saved_is_read()
    ensures { SavedIsRead }
{}

/// If [`push_file`](crate::push_file) finds groups too long that rows can give, and these are at most 2^50, their head has more than 2^28 bytes, or
/// their foot has: no block is too long. A law: it does nothing when it runs.
pub fn long_is_known()
    ensures { LongIsKnown }
{}
