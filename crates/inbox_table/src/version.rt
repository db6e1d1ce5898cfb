//! The two versions of the table.

/// Which version a table has: `inbox`, or `inbox2`, whose rows have the block of the number too.
#[derive(Clone, Copy, PartialEq, Eq, Debug)]
pub enum Version {
    /// `inbox`.
    One,
    /// `inbox2`.
    Two,
}
