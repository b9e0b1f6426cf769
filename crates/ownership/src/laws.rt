//! Laws of certifying potentials and of owners, each the contract of a call that does nothing.
ghost use Rattle.ownership.specs.FillingExample.{ExampleOfFilling, ExampleOfWeights};
ghost use Rattle.ownership.specs.FillingExample.{ExampleOfSystemFilling};
ghost use Rattle.ownership.specs.Fresh.{FreshNumbersAreNew};
ghost use Rattle.ownership.specs.Owned.{OwnedFilesAreAll};
ghost use Rattle.ownership.specs.Potentials.{CertifiedIsOptimal, CertifiedIsTight};

/// An admissible mapping with certifying potentials is optimal, over lawful accounts: no admissible
/// mapping costs less, and none of the same cost changes fewer account rows. (Weak duality of the
/// assignment problem, and a file weighs more than all account rows.)
pub fn certified_is_optimal()
    ensures { CertifiedIsOptimal }
{}

/// No part of the certifying potentials of an admissible mapping is wasted: the number of a free
/// name weighs exactly the name's potential and the number's, and a pinned name, a name whose
/// number weighs nothing and a number that no free name has are at 0. (Complementary slackness.)
pub fn certified_is_tight()
    ensures { CertifiedIsTight }
{}

/// Where each file of a site has its user and its group, the files that have a user are all files,
/// and so are those that have a group.
pub fn owned_files_are_all()
    ensures { OwnedFilesAreAll }
{}

/// The fresh names of a mapping, those that are to have the smallest numbers that are left, are
/// exactly those that are not pinned and have their number of the mapping on no host. Which files
/// they own does not matter.
pub fn fresh_numbers_are_new()
    ensures { FreshNumbersAreNew }
{}

/// Weights and a filling by example: of three users who have one number on three hosts, what it
/// weighs for two; and that the two who do not keep it are served in byte order of their names. Of
/// two system users the first in byte order has the smallest number of their pool, and the other
/// the smallest that is left, where the one between is pinned.
pub fn filling_by_example()
    ensures weights { ExampleOfWeights }
    ensures filling { ExampleOfFilling }
    ensures systems { ExampleOfSystemFilling }
{}
