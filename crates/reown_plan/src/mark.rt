//! Which plan a mark is of.
ghost use Rattle.std.specs.Prelude.{◌≡◌, ◌≤◌, length};
ghost use Rattle.sha2.specs.Sha256.{sha256};
ghost use Rattle.reown_plan.specs.Mark as spec;

use sha2::{Digest, Sha256};

/// Which plan a tree is marked for. Marks are equal where all their fields are.
#[derive(Clone, Copy, Debug, PartialEq, Eq)]
pub struct PlanMark {
    /// The name of the plan's host, with zero bytes after it.
    pub host: [u8; 64],
    /// The length of the plan's text in bytes.
    pub length: u64,
    /// The SHA-256 digest of the plan's text (FIPS 180-4).
    pub digest: [u8; 32],
}

// A host's name with zero bytes after it.
fn padded(name: &[u8]) -> [u8; 64]
    requires { length name.now ≤ 64 }
    ensures { result ≡ spec.padded name.now }
{
    let mut bytes = [0; 64];
    bytes[..name.len()].copy_from_slice(name);
    bytes
}

impl PlanMark {
    // The mark of a plan with this host and this text.
    pub(crate) fn new(host: &[u8], text: &[u8]) -> PlanMark
        requires { length host.now ≤ 64 }
        ensures { result
            ≡ record {
              host = spec.padded host.now;
              length = length text.now;
              digest = sha256 text.now;
            } }
    {
        PlanMark {
            host: padded(host),
            length: text.len() as u64,
            digest: Sha256::digest(text),
        }
    }
}
