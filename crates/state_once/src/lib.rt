//! The laws by which bytes are read in one way: no two files of partial states, and no two lists of them, have the same bytes.

#![tactic(auto)]

ghost use Rattle.state_once.specs.Once.{FileIsOnce, FilesAreOnce, FrontIsOnce};

/// Bytes begin with one front. A law: it does nothing when it runs.
pub fn front_is_once()
    ensures { FrontIsOnce }
{}

/// Bytes begin with one file. A law: it does nothing when it runs.
pub fn file_is_once()
    ensures { FileIsOnce }
{}

/// Bytes are one list of files. A law: it does nothing when it runs.
pub fn files_are_once()
    ensures { FilesAreOnce }
{}
