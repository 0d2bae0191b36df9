//! Why a row is refused: the four causes by their numbers, as messages between processes carry them.

/// The most bytes that the encoded key of a group has.
pub const LONGEST_KEY: usize = 248;

/// The cause of a row that has more or fewer fields than the header.
pub const WIDTH_CAUSE: u8 = 1;

/// The cause of a row whose encoded group key is longer than [`LONGEST_KEY`] bytes.
pub const KEY_CAUSE: u8 = 2;

/// The cause of a row in which a field of a `sum`, `min`, `max` or `avg` is no number.
pub const ITEM_CAUSE: u8 = 3;

/// The cause of a row in which a filter's field is no number.
pub const FILTER_CAUSE: u8 = 4;

/// Why a row is refused: `cause` is one of [`WIDTH_CAUSE`], [`KEY_CAUSE`], [`ITEM_CAUSE`] and [`FILTER_CAUSE`]. `item`
/// is the place, counted from 0, of the aggregate or the filter that cannot read its field, and 0 for the other two causes.
#[derive(Clone, Copy, Debug, PartialEq, Eq)]
pub struct Refusal {
    pub cause: u8,
    pub item: u32,
}
