//! Inventories of files and their owners as they are written, in this project's profile of
//! mtree(5), so that a reader gets back exactly the files that were listed: any path that a file
//! can have, whatever bytes its names are of. One that was cut after its first words, by more than
//! its last newline, is refused. Laws say, too, which paths a reader finds in any inventory.
#![tactic(auto)]

mod head;
mod kind;
mod laws;
mod parts;
mod writing;

pub use head::push_head;
pub use kind::FileKind;
pub use laws::{
    cut_inventories_are_refused, entries_read_back, heads_read_back, inventories_read_back,
    kinds_read_back, paths_are_of_names, paths_of_entries,
};
pub use writing::{push_end, push_entry};
