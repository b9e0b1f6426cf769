//! Laws over what this crate writes, by the definitions by which inventories are read, and over the
//! paths that are read. The functions do nothing: what they ensure is known wherever one is called.
ghost use Rattle.inventory_text.specs.EntryPaths.{DotDotIsRefused, FullEntryStandsByItself};
ghost use Rattle.inventory_text.specs.EntryPaths.{OthersOpenNothing, PathsAreOfNames};
ghost use Rattle.inventory_text.specs.EntryPaths.{RelativeEntriesAreRead, StandsAtTheStart};
ghost use Rattle.inventory_text.specs.EntryPaths.{StandsInItsDirectory};
ghost use Rattle.inventory_text.specs.KindsBack.{KindsReadBack};
ghost use Rattle.inventory_text.specs.ReadBack.{CutAnywhereIsRefused, CutInventoriesAreRefused};
ghost use Rattle.inventory_text.specs.ReadBack.{EntriesReadBack, HeadsReadBack};
ghost use Rattle.inventory_text.specs.ReadBack.{InventoriesReadBack};

/// The first line tells the host, the time and the roots that it was written for, whatever bytes
/// they have.
pub fn heads_read_back()
    ensures { HeadsReadBack }
{}

/// The line of a file is read as an entry of this file, with its path and its owner's numbers,
/// whatever lines stand before it.
pub fn entries_read_back()
    ensures { EntriesReadBack }
{}

/// The line of a file tells its kind, whatever bytes its path has.
pub fn kinds_read_back()
    ensures { KindsReadBack }
{}

/// The inventory of files, as this crate writes it, is read as exactly these files in this order.
pub fn inventories_read_back()
    ensures { InventoriesReadBack }
{}

/// That inventory is refused wherever it is cut after the words that every first line begins with,
/// unless nothing but its last newline is missing; and at the line that is missing where it is cut
/// after its first line or after the line of a file.
pub fn cut_inventories_are_refused()
    ensures anywhere { CutAnywhereIsRefused }
    ensures between_lines { CutInventoriesAreRefused }
{}

/// Which path an entry gives its file: a relative one stands in the directory that was opened last
/// and is still open, whose path is that of its own entry, or else in the starting directory; a
/// full one names its own path. Which directories are open is said by
/// [`open_directories`](mtree_inv::open_directories), and here of all lines but `..` and entries of
/// directories, that they open and close none. A relative entry with a name, lawful numbers in
/// force and a path that is not too long is read.
pub fn paths_of_entries()
    ensures start { StandsAtTheStart }
    ensures inside { StandsInItsDirectory }
    ensures full { FullEntryStandsByItself }
    ensures others { OthersOpenNothing }
    ensures read { RelativeEntriesAreRead }
{}

/// Each path that is read is `.`, or names with slashes between them, none of which is empty, `.`
/// or `..`, or has a NUL byte; an entry with a component `..` is refused.
pub fn paths_are_of_names()
    ensures names { PathsAreOfNames }
    ensures dot_dot { DotDotIsRefused }
{}
