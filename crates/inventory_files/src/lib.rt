//! The files below directories of this machine, and their inventory as `unify inventory` writes
//! it. Of a file no more is asked than lstat(2) tells, and nothing is opened but directories.
//! What an inventory says is `inventory_text`; that this is what is in the file system is tested
//! and not proved.
#![tactic(auto)]

mod clock;
mod listing;
mod output;
mod roots;
mod run;
mod sink;
mod telling;
mod walk;

pub use listing::{Listed, list_files};
pub use roots::{NamedRoot, named_roots};
pub use run::run_inventory;
pub use sink::FileSink;
