//! What a disk has, compared with what is held of it.
ghost use Rattle.std.specs.Prelude.{◌≡◌, ◌≢◌, OnOk, OnErr};

use crate::Trouble;
use reown_plan::Owner;

/// The owner that was found is the one that is held.
pub fn check_owner(found: Option<Owner>, held: Option<Owner>) -> Result<(), Trouble>
    ensures same { OnOk result (found ≡ held) }
    ensures other { OnErr result (found ≢ held) }
{
    if found == held {
        return Ok(());
    }
    Err(found.map_or(Trouble::Gone, |owner| Trouble::Foreign(owner)))
}

/// The mark was found to be there, or not, as is held.
pub fn check_mark(set: bool, held: bool) -> Result<(), Trouble>
    ensures same { OnOk result (set ≡ held) }
    ensures other { OnErr result (set ≢ held) }
{
    if set == held {
        return Ok(());
    }
    Err(Trouble::NotDone)
}
