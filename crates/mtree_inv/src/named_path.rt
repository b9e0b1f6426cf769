//! The paths that entries name.

/// The path of an entry, empty for the starting directory.
#[derive(Drop)]
pub(crate) struct NamedPath {
    pub(crate) path: Vec<u8>,
    /// Whether its word is a path from the starting directory.
    pub(crate) is_full: bool,
}
