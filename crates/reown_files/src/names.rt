//! The names of a file that has several.
ghost use Rattle.std.specs.Prelude.{◌≡◌, ◌+◌, ◌⊎◌, IfOk, IfErr, OnOk};
ghost use Rattle.reown_files.specs.declared.answers.Trouble.TheVariants.{Memory, LinkedOtherwise};
ghost use Rattle.reown_files.specs.Asked.{with_name, IsOtherwise};
ghost use Rattle.reown_files.specs.Looks as looks;

use crate::Trouble;
use crate::walk::{Found, Kind};
use reown_plan::Owner;

/// The names of a file that has several.
#[derive(Clone, Copy)]
pub struct Names {
    /// How many were met.
    pub met: u64,
    /// How many of those are to have their new owner still.
    pub left: u64,
    /// That owner, which is one for all of them.
    pub after: Owner,
}

/// Whether a file may have several names in a plan.
pub fn has_several_names(found: &Found) -> bool
    ensures { result ≡ looks.has_several_names found.now }
{
    found.kind != Kind::Directory && found.links > 1
}

// One more.
fn one_more(count: u64) -> Result<u64, Trouble>
    ensures more { IfOk result (λ more. more ≡ count + 1) }
    ensures refused { IfErr result (λ trouble. trouble ≡ Memory) }
{
    count.checked_add(1).ok_or(Trouble::Memory)
}

/// The names of a file with one more, which is to have this owner.
pub fn add_name(names: Option<Names>, after: Owner) -> Result<Names, Trouble>
    ensures more { IfOk result (λ more. more ≡ with_name after names) }
    ensures one { OnOk result (IsOtherwise after names → ⊥) }
    ensures refused { IfErr result
        (λ trouble. (trouble ≡ Memory) ⊎ ((trouble ≡ LinkedOtherwise) × IsOtherwise after names)) }
{
    match names {
        Some(names) if names.after != after => Err(Trouble::LinkedOtherwise),
        Some(names) => Ok(Names {
            met: one_more(names.met)?,
            left: one_more(names.left)?,
            after,
        }),
        None => Ok(Names {
            met: 1,
            left: 1,
            after,
        }),
    }
}
