//! Carries a plan out on a real tree of files.
#![tactic(auto)]

mod actions;
mod answers;
mod applying;
mod asked;
mod below;
mod by_example;
mod comparing;
mod counting;
mod disk;
mod file_laws;
mod files;
mod giving;
mod lawful;
mod log;
mod looking;
mod mark_file;
mod modes_file;
mod names;
mod opening;
mod read_back;
mod real_tree;
mod restoring;
mod root;
mod stage;
mod walk;
mod way;
mod whole_file;

pub use answers::{Failure, Modes, OpenFault, Seen, Trouble};
pub use applying::apply;
pub use by_example::{
    counts_by_example, lawful_calls_by_example, looks_by_example, roots_by_example,
};
pub use counting::{OwnerCounts, count_owners};
pub use disk::Disk;
pub use file_laws::{files_are_all_counted, files_are_looked_at, names_are_all_counted};
pub use lawful::{
    changes_are_foreseen, marks_come_last, modes_are_set_at_once, notes_are_of_one_plan,
};
pub use log::{Call, Log};
pub use mark_file::read_mark;
pub use modes_file::MODES_BEHIND;
pub use read_back::{
    files_that_were_put_are_read, marks_and_modes_by_example, marks_are_read_back,
    modes_are_read_back,
};
pub use real_tree::{RealTree, Refused};
pub use root::{Root, RootFault};
pub use stage::owners_go_by_stage;
