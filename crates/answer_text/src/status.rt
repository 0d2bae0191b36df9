//! The exit statuses of `pargather`.

/// The table was written.
pub const TABLE: u8 = 0;

/// A row is refused.
pub const REFUSED: u8 = 1;

/// The words are no plan, there is no header, or no column of a name.
pub const MISUSED: u8 = 2;

/// A read of the source failed.
pub const READ_FAULT: u8 = 3;

/// A write of the table failed.
pub const WRITE_FAULT: u8 = 4;

/// Memory ran out.
pub const NO_MEMORY: u8 = 5;

/// The input has too many bytes or too many rows.
pub const TOO_LARGE: u8 = 6;
