//! Reading a bundle.

ghost use Rattle.std.specs.Prelude.{◌≡◌, ◌+◌, ◌≤◌, length, IfOk, IfErr, IfSome};
ghost use Rattle.unify_bundle.specs.Output.{TakesAtMost, IsReadTold, most_bundle_bytes};

use crate::streams::Source;
use std::alloc::Global;

/// The most bytes that a bundle may have.
pub const MOST_INPUT_BYTES: usize = 268435456;

/// Why the input was not read.
#[derive(Clone, Copy, Debug, PartialEq, Eq)]
pub enum ReadFault {
    /// A read failed, or there is too much.
    Read,
    /// A growth was refused.
    Memory,
}

/// Reads all that there is, unless it is too much, in at most one read more than its bytes and at
/// most one byte more than a bundle may have.
pub fn read_input<R: Source>(alloc: Global, reader: &mut R) -> Result<Vec<u8>, ReadFault>
    ensures few { IfOk result (λ input. length input.items ≤ most_bundle_bytes) }
    ensures all { IfOk result (λ input. IfSome (R.left reader.old) (λ left. left ≡ input.items)) }
    ensures fine { IfOk result (λ _. R.has_failed reader.new ≡ R.has_failed reader.old) }
    ensures failed { IfErr result
        (λ fault. IsReadTold (R.left reader.old) (R.has_failed reader.new) fault) }
    ensures taken { TakesAtMost (most_bundle_bytes + 1) (R.left reader.old) (R.left reader.new) }
{
    let mut input = Vec::new(alloc);
    let mut buffer = [0u8; 4096];
    for _turn in 0..MOST_INPUT_BYTES + 1 {
        let room = (MOST_INPUT_BYTES + 1 - input.len()).min(buffer.len());
        let Ok(count) = reader.read(&mut buffer[..room]) else {
            return Err(ReadFault::Read);
        };
        if count == 0 {
            return Ok(input);
        }
        if count > MOST_INPUT_BYTES - input.len() {
            return Err(ReadFault::Read);
        }
        if input.extend_from_slice(&buffer[..count]).is_err() {
            return Err(ReadFault::Memory);
        }
    }
    Err(ReadFault::Read)
}
