//! The exit statuses of `parsh`.

/// Every line was answered.
pub const ANSWERED: u8 = 0;

/// The words are none that the program takes.
pub const MISUSED: u8 = 2;

/// A read of the script failed.
pub const READ_FAULT: u8 = 3;

/// A write of the answers failed.
pub const WRITE_FAULT: u8 = 4;

/// Memory ran out.
pub const NO_MEMORY: u8 = 5;

/// The script is too long.
pub const TOO_LARGE: u8 = 6;
