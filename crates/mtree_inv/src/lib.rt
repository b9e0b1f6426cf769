//! Inventories of files and their owners, as mtree texts give them.
//!
//! From mtree(5) come the kinds of line, `/set` and `/unset`. Where implementations differ, this
//! project has a profile of its own:
//!
//! - A line that ends in a backslash is joined with the next, before anything else is looked at. A
//!   joined line has at most 65,535 bytes. A text that ends while a line waits to be joined is
//!   refused (`CutContinuation`).
//! - Commands other than `/set` and `/unset` are refused. `/unset` looks at keys alone, with or
//!   without a value, and `/unset all` takes away all defaults.
//! - Of several keywords with one key on a line the last counts. `uid`, `gid` and `type` matter,
//!   the others are read over. The `uid` and the `gid` that count on an entry or a `/set` line must
//!   be ids, decimal numbers up to 4294967294; one that does not count is not looked at.
//! - An entry with a `/` that belongs to no escape is a path from the starting directory and never
//!   opens a directory. Another entry is a name in the directory that was opened last and is still
//!   open, and opens one where its `type`, its own or by `/set`, is `dir`. A line `..` closes that
//!   directory; its keywords are ignored.
//! - A path is split at each `/` that belongs to no escape; components that are empty or `.`
//!   vanish, and `..`, a `/` and a NUL byte are in none. Where no component is left the path is
//!   `.`. It has at most 65,535 bytes.
//! - Escapes are those of [`idtext::first_character`], those of vis(3) among them; a word with a
//!   bad one names no file.
//! - A path that comes twice with one owner is one file; with two owners it is a fault.
//! - A comment that begins with `# unify inventory ` begins an inventory that tells its end: a
//!   comment `# end ` with the number, decimal, of the entries between the two, after which no
//!   entry stands. Where that is not so before the next that begins, or before the text ends, the
//!   text is refused (`CutInventory`). A text may have several, one after the other. A `# end `
//!   where none was begun says nothing.
#![tactic(auto)]

mod begun;
mod cut_hashes;
mod cuts;
mod defaults;
mod entry;
mod fault;
mod files;
mod fronts;
mod hashed_cut;
mod held_cuts;
mod inventory;
mod keywords;
mod known_keywords;
mod known_parent;
mod laws;
mod named_path;
mod open_line;
mod parts;
mod past;
mod place;
mod places;
mod reader;
mod spare_paths;
mod table;
mod walk;

pub use entry::Entry;
pub use inventory::{Inventory, read_inventory};
pub use laws::{
    default_in_force, every_line_counts, faults_by_example, files_are_lawful, full_paths,
    inventories_by_example, joined_lines, joined_lines_by_example, open_directories,
    words_of_mtree,
};
pub use reader::Reader;
