//! What decoding costs.

/// How many heads were decoded, and how many data items were built; each count saturates at
/// `u128::MAX`.
#[derive(Clone, Copy, Debug, PartialEq, Eq)]
pub struct Count {
    /// Heads decoded, including failed attempts (RFC 8949, section 3).
    pub heads: u128,
    /// Data items built as values, including nested ones.
    pub nodes: u128,
}
