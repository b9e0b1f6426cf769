//! What a merge guarantees, how the commands agree, and what else follows from the definitions
//! of `unify`.
#![tactic(auto)]

mod laws;

pub use laws::{
    a_read_site_is_whole, an_empty_keep_is_none, changed_rows_agree, costs_agree,
    empty_pins_are_none, hosts_keep_own_files, named_files_have_their_names,
    no_kept_number_is_given, no_map_rewrites_fewer, nothing_spared_all_owned,
    numbers_stand_by_texts, numbers_tell_names, outcomes_are_correct, owners_agree,
    passes_read_the_site, printed_certificates_are_accepted, printed_maps_are_counted,
    printed_plans_are_rehearsed, printed_plans_rewrite_the_cost, read_sites_are_of_texts,
    reserved_numbers_are_tellable, runs_keep_names, second_reading_is_correct,
    surveyed_files_are_allowed, two_passes_are_correct, unfinished_plans_are_none,
};
