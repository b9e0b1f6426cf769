//! What the texts of a site say: its hosts with their tables and the accounts over all of them, the
//! map that is counted, and the faults of these texts.
//!
//! No inventory is read here. `join_tables` and `map_tables` read what comes before the
//! inventories; which files an inventory has, and which fault, are definitions of this crate.
//! `begin_survey` tells the hosts whose files are searched for numbers without an account.
#![tactic(auto)]

mod host;
mod laws;
mod mapped;
mod others;
mod rules;
mod site;
mod unowned;

pub use host::{Loaded, load_host, load_hosts, ownership_fault, read_fault};
pub use laws::{
    begun_sites_are_of_texts, counted_maps_are_whole, counts_are_begun_step_by_step,
    faults_name_their_file, files_are_of_inventories, hosts_are_of_their_texts,
    keep_texts_show_their_faults, sites_are_begun_step_by_step, surveys_find_unowned,
    texts_tell_their_faults,
};
pub use mapped::{MappedHosts, map_tables};
pub use rules::{KeepRules, SiteRules};
pub use site::{JoinedHosts, join_tables};
pub use unowned::begin_survey;
