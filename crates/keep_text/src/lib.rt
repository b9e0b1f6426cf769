//! The keep text: which users, groups and numbers stay as they are on each host.
#![tactic(auto)]

mod keep_line;
mod keep_text;
mod laws;
mod name_set;
mod range_list;

pub use keep_text::{KeepFault, KeepText, Kept, read_keep};
pub use laws::{
    bad_lines_are_told, keeps_are_lawful, names_are_listed, ranges_are_listed, unowned_is_said,
};
pub use name_set::NameSet;
pub use range_list::RangeList;
