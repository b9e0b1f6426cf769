//! A file that is written whole.

ghost use Rattle.std.specs.Prelude.{◌≡◌, ◌∷◌, [], true, Some, IfErr, OnOk, OnErr};
ghost use Rattle.unify_merge.specs.Ledger.{BrokeOff, after_files};

use crate::files::{CallFailed, MergeFiles};

/// Writes a file whole.
pub fn write_file<F: MergeFiles>(files: &mut F, name: &[u8], text: &[u8]) -> Result<(), CallFailed>
    requires clear { (F.ledger files.old).is_clear ≡ true }
    ensures written { OnOk result
        (F.ledger files.new ≡ after_files (record { name = name.now; text = text.now } ∷ [])
        (F.ledger files.old)) }
    ensures ok { OnOk result (F.failure files.new ≡ F.failure files.old) }
    ensures failed { IfErr result (λ e. F.failure files.new ≡ Some e) }
    ensures left { OnErr result
        (BrokeOff (record { name = name.now; text = text.now } ∷ []) (F.ledger files.old)
        (F.ledger files.new)) }
{
    files.begin(name)?;
    files.append(text)?;
    files.finish()
}
