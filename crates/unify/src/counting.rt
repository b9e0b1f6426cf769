//! A cost.

/// How many fields of files change.
#[derive(Clone, Copy, Debug, PartialEq, Eq)]
pub struct Cost {
    /// The files whose user's number changes.
    pub users: u64,
    /// The files whose group's number changes.
    pub groups: u64,
}
