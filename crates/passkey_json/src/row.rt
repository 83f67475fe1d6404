//! The rows of a table.

/// A row of a table: a member's number, which no other member of the table has, and its name.
#[derive(Clone, Copy)]
pub enum Row {
    /// The member has one name.
    Named(u8, &'static str),
    /// The member has two names. It is encoded under the first, and decoded under either; it is
    /// rejected if it is present under both.
    Aliased(u8, &'static str, &'static str),
}
