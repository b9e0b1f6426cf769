//! Whether files still have the user and group names that they had, once a host's accounts have
//! got new numbers.
//!
//! A first inventory was made under the old passwd and group, a second under the new ones.
//! [`find_changes`] tells which files of the first are not in the second, which have another user
//! or group by name, which files are new, and which have a number that no new account has, or one
//! that a name has left. [`verify_reply`] is what the command `verify` tells of that.
#![tactic(auto)]

mod changes;
mod finding;
mod laws;
mod lines;
mod names;
mod paths;
mod reply;
mod tally;

pub use changes::find_changes;
pub use finding::{Finding, What};
pub use laws::{
    all_lines_are_told, changed_files_are_told, counts_add_up, counts_are_read_back,
    each_finding_is_told_once, first_lines_are_told, left_numbers_are_told, lines_are_read_back,
    missing_files_are_told, names_are_kept, new_files_are_told, status_tells_order,
    unnamed_files_are_told,
};
pub use names::{Accounts, Renumbering};
pub use reply::{VerifyReply, verify_reply};
