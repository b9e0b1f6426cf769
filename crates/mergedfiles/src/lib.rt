//! The account files of a joined site: one passwd and one group for all hosts, after passwd(5) and
//! group(5), and what the hosts' own files say otherwise.
//!
//! Each name has one row, with its new number and the fields of the first host that has it; a group
//! has the users of all hosts. Where a later host has another field, `differences` tells so.
//! `host_passwd_text` and `host_group_text` are a host's own files with the new numbers.
#![tactic(auto)]

mod alike;
mod differing;
mod group;
mod host_files;
mod laws;
mod order;
mod passwd;
mod rows;

pub use differing::differences;
pub use group::group_text;
pub use host_files::{host_group_text, host_passwd_text};
use hosts_join::Which;
use idtext::Name;
pub use laws::{
    all_is_in_part, differences_are_told, differences_by_example, first_host_decides,
    full_group_reads_back, full_names_are_kept, full_passwd_reads_back, group_in_part_reads_back,
    host_files_by_example, host_group_reads_back, host_names_are_kept, host_passwd_reads_back,
    hosts_join_in_full, joined_together, merged_files_by_example, merged_group_reads_back,
    merged_passwd_reads_back, merged_users_are_of_all_hosts, names_have_rows,
    passwd_in_part_reads_back,
};
pub use passwd::passwd_text;

/// A field in which hosts may differ. `Group` is a user's primary group, by its name.
#[derive(Clone, Copy, Debug, PartialEq, Eq)]
pub enum Field {
    /// The password field of passwd(5) or of group(5).
    Password,
    /// The comment field of passwd(5).
    Comment,
    /// The home directory.
    Home,
    /// The login shell.
    Shell,
    /// The name of the primary group; the empty name where the host has no group of its number.
    Group,
}

/// A field of a user or a group that is another on this later host than on the first host that has
/// the name.
#[derive(Drop)]
pub struct Difference<'a> {
    /// Users or groups.
    pub kind: Which,
    /// The name of the user or of the group.
    pub name: Name<'a>,
    /// The field that is another.
    pub field: Field,
    /// The name of the later host.
    pub host: Name<'a>,
}
