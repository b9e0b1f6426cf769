//! The texts of the program: fault lines, maps, reports and bundles.
#![tactic(auto)]

mod bundle;
mod bundle_line;
mod details;
mod fault;
mod fault_text;
mod figures;
mod laws;
mod limits;
mod map_text;
mod place_list;
mod places;
mod report;
mod reserved;
mod words;

pub use bundle::{Bundle, read_bundle};
pub use bundle_line::{Command, FileName};
pub use fault::{Fault, file_fault};
pub use fault_text::fault_line;
pub use figures::{Figures, figures_under};
pub use laws::{
    bad_map_lines_are_told, bundle_words_are_read, bundles_are_spelled, fault_lines_by_example,
    faults_are_told, figures_add_up, kept_names_are_seen, limits_by_digit, maps_are_listed,
    reports_by_example, reports_read_back, reports_tell_all, reserved_lines_read_back,
    statuses_go_by_faults, written_map_by_example, written_maps_are_pins, written_maps_read_back,
};
pub use limits::MOST_FILES;
pub use map_text::{MapText, read_map, write_map};
pub use place_list::PlaceList;
pub use places::{FileList, NamedFile, Place};
pub use report::report_text;
pub use reserved::keeps_a_name;
