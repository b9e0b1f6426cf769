//! What the program reads, writes and tells around the proved calls: its words, the files of hosts,
//! the directory of a merge, warnings and messages. Nothing here decides what a merge, a check or a
//! count answers.
#![tactic(auto)]

mod account_lines;
mod advice;
mod commands;
mod comment_warnings;
mod file_lines;
mod files;
mod host_names;
mod inventories;
mod inventory;
mod keep_warnings;
mod merge_warnings;
mod message;
mod number_warnings;
mod output;
mod pin_warnings;
mod report;
mod site_input;
mod warnings;
mod writing;

pub use commands::command_line;
pub use files::{FileFault, MACHINE_NAME, read_file};
pub use inventories::Inventories;
pub use inventory::OpenInventory;
pub use message::Part;
pub use output::OutputDirectory;
pub use report::{
    bundle_memory_refused, file_failed, file_fault_told, internal_error, memory_refused, no_host,
    print_answer, tell_hint, tell_of, tell_usage, write_failed,
};
pub use site_input::SiteInput;
pub use warnings::{MOST_LINES, warn, warn_of_text};
pub use writing::Output;
