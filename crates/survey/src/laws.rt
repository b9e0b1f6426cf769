//! Laws of the numbers without an account, each the contract of a call that does nothing.

ghost use Rattle.survey.specs.Laws.{GidsAreOfFiles, OnlyUnownedAreFound, StandOnce, UidsAreOfFiles};
ghost use Rattle.survey.specs.Unowned.{unowned_gids, unowned_uids};
ghost use Rattle.survey.specs.UnownedExample.{UnownedByExample};

/// A number is among those that are found exactly where some file has it, no account of the host
/// has it, and the host does not spare it.
pub fn unowned_numbers_are_of_files()
    ensures users { UidsAreOfFiles }
    ensures groups { GidsAreOfFiles }
{}

/// No number stands twice among those of a kind that are found on a host.
pub fn no_number_stands_twice()
    ensures users { StandOnce unowned_uids }
    ensures groups { StandOnce unowned_gids }
{}

/// After the files of one host more, a number is found exactly where it was found before, or it is
/// one of this host, with its name: some file of the host has it, no row of its table has, and it
/// lies in no range that the host spares.
pub fn only_unowned_numbers_are_found()
    ensures { OnlyUnownedAreFound }
{}

/// Of two hosts, by example: the unowned numbers stand host by host, and of each host in the order
/// in which its files have them first, each once.
pub fn unowned_by_example()
    ensures { UnownedByExample }
{}
