//! The parts of which a file of partial states is made: numbers in their shortest form, and sections with a checksum.

#![tactic(auto)]

mod checksum;
mod eights;
mod front;
mod number;
mod section;
mod text;

pub use checksum::crc32c;
pub use front::{read_bytes, read_u32};
pub use number::{push_number, push_signed, read_number, read_signed};
pub use section::{SectionRead, push_section, read_section};
pub use text::{push_text, read_count, read_text};
