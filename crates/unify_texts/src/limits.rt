//! How large an input may be.

/// How many files an inventory may have.
pub const MOST_FILES: u32 = 16777216;
