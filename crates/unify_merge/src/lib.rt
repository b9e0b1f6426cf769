//! The merge that people run: from the bytes that are read to the bytes of each file that is
//! written.
#![tactic(auto)]

mod check;
mod count;
mod fault;
mod files;
mod first_reading;
mod host_files;
mod laws;
mod log;
mod merge;
mod pieces;
mod rehearse;
mod second_reading;
mod surveying;
mod whole_file;

pub use check::{check_by, check_files};
pub use count::{count_by, count_files};
pub use fault::MergeFault;
pub use files::{CallFailed, MergeFiles, ReadFiles};
pub use laws::{
    account_files_go_by_texts, changes_are_told, commands_go_by_what_is_given,
    commands_go_by_what_is_read, early_ends_leave_files, files_have_their_names,
    inventory_limit_by_digit, ledgers_note_files, ledgers_note_readings, merges_tell_their_cost,
    plans_come_in_turn, rehearsals_read_to_the_end, the_report_is_last,
};
pub use log::{Call, Log};
pub use merge::{merge_by, merge_files, merge_outcome};
pub use rehearse::rehearse_files;
pub use surveying::{survey_files, survey_hosts};
