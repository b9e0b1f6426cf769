//! A reading of an inventory, piece by piece.

ghost use Rattle.std.specs.Prelude.{◌≡◌, Some, IfOk, IfErr};
ghost use Rattle.unify_merge.specs.Failures.{failure_after};
ghost use Rattle.unify_merge.specs.Ledger.{Reading};
ghost use Rattle.unify_merge.specs.Pieces.{EndsEarly, GoesOn};

use crate::fault::MergeFault;
use crate::files::ReadFiles;

/// The most bytes that an inventory may have.
pub const MOST_INVENTORY_BYTES: u64 = 4294967295;

/// Hands out the next bytes of the reading, and whether there are any.
///
/// left: how many bytes more the inventory may have.
pub fn next_piece<'a, F: ReadFiles>(
    files: &mut F,
    bytes: &mut Vec<u8>,
    left: &mut u64,
) -> Result<bool, MergeFault<'a>>
    ensures read { IfOk result
        (λ is_more. (r : Reading) → (F.ledger files.old).reading ≡ Some r
        → GoesOn r bytes.new.items left.old left.new (F.ledger files.old) (F.ledger files.new)
        is_more) }
    ensures stopped { IfErr result
        (λ fault. (r : Reading) → (F.ledger files.old).reading ≡ Some r
        → EndsEarly r bytes.new.items left.old (F.ledger files.old) (F.ledger files.new) fault) }
    ensures calls { F.failure files.new ≡ failure_after result (F.failure files.old) }
{
    files.piece(bytes)?;
    let count = bytes.len() as u64;
    if count > *left {
        return Err(MergeFault::TooLarge);
    }
    *left -= count;
    Ok(count > 0)
}
