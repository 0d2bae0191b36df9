//! How the rows of a table are ordered.

/// What the fields of a column are compared as.
#[derive(Clone, Copy, Debug, PartialEq, Eq)]
pub enum By {
    /// Byte by byte, as the groups of a table are.
    Bytes,
    /// Numbers of any length that have this many digits after the point, by their values. A field that is none comes after
    /// all numbers, and an empty field last.
    Numbers(usize),
}

/// An order of rows by the fields of a column, which is counted from 0. Rows whose fields tie stay as they were.
#[derive(Clone, Copy, Debug, PartialEq, Eq)]
pub struct Order {
    pub column: usize,
    pub by: By,
    /// Whether the greatest come first.
    pub down: bool,
}

/// Which rows of a table are shown: in which order, and how many at most.
#[derive(Clone, Copy, Debug, PartialEq, Eq)]
pub struct Shown {
    pub order: Option<Order>,
    pub limit: Option<usize>,
}
