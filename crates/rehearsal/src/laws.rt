//! The laws of a rehearsal, each the contract of a call that does nothing: which file is told, and
//! what is answered for a text that is refused.

ghost use Rattle.rehearsal.specs.RehearsalLaws.{RefusalsAreTold, RehearsalsTellFiles};

/// A rehearsal of a plan on an inventory that is read answers how many records the plan has, where
/// one of the files has the path of each with its old owner or its new. Else it tells the first
/// record of which this does not hold, and no other fault: as missing only where no file has its
/// path, and as foreign only where one has it with neither of the two owners.
pub fn rehearsals_tell_files()
    ensures { RehearsalsTellFiles }
{}

/// A plan that is refused is told at its byte, whatever the inventory is. Of a plan that is read an
/// inventory that is refused is told as a fault of the mtree of the plan's host, with its code and
/// its line, whatever records the plan has: no part of such an inventory is rehearsed.
pub fn refusals_are_told()
    ensures { RefusalsAreTold }
{}
