//! The command `apply`: a plan, carried out on the files of this machine. What it does to them is
//! `reown_files::apply`; here stand what is asked before, and what is told.
#![tactic(auto)]

mod answers;
mod applying;
mod beside;
mod checking;
mod journal;
mod laws;
mod machine;
mod marked;
mod mountinfo;
mod mounts;
mod opening;
mod preview;
mod progress;
mod run;
mod sought;
mod staying;
mod told;

pub use answers::{counts_text, records_text};
pub use applying::{mark_path, run_apply};
pub use beside::is_of_mark;
pub use journal::tells_journal;
pub use laws::{
    answers_are_read_back, journals_are_told, machines_are_told, marks_are_told,
    marks_stand_beside_plans, marks_take_four_names, mounts_are_read_back, one_way_to_files,
    paths_below_are_told, previews_only_look, processes_are_told, root_is_told, statuses_are_told,
};
pub use machine::{HostFit, host_fit, is_root};
pub use mountinfo::{
    Around, Mount, Point, count_below, first_below, one_way, read_mounts, see_around, without_slash,
};
