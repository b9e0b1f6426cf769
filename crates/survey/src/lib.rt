//! Which numbers the files of a host have that no account of the host has, by an inventory that
//! comes in pieces.
#![tactic(auto)]

mod host_survey;
mod laws;
mod noting;
mod number_set;

pub use host_survey::HostSurvey;
pub use laws::{
    no_number_stands_twice, only_unowned_numbers_are_found, unowned_by_example,
    unowned_numbers_are_of_files,
};
