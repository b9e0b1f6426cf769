//! What a merge writes for a site and for each of its hosts.

ghost use Rattle.std.specs.Prelude.{◌≡◌, ◌++◌, IfOk};

use crate::outcome::Outcome;
use hosts_join::HostText;
use idtext::ByteString;
use std::alloc::{AllocError, Global};

/// A file that a merge writes.
#[derive(Drop)]
pub struct NamedText {
    /// Its name.
    pub name: ByteString,
    /// Its text.
    pub text: ByteString,
}

/// What a merge writes for a site, and each host's own passwd and group with their new numbers.
#[derive(Drop)]
pub struct SiteFiles {
    /// What it writes for the site, with the plan of each host.
    pub outcome: Outcome,
    /// passwd.NAME and group.NAME of each host, one host after the other.
    pub own: Vec<NamedText>,
}

/// The name of a file of a host, which begins so. Takes time and memory in its length.
///
/// # Errors
///
/// `AllocError` where memory is refused.
pub fn host_file_name(alloc: Global, start: &[u8], host: &HostText) -> Result<Vec<u8>, AllocError>
    ensures { IfOk result (λ name. name.items ≡ start.now ++ host.now.name) }
{
    let mut name = Vec::from_slice(alloc, start)?;
    name.extend_from_slice(host.name.bytes())?;
    Ok(name)
}
