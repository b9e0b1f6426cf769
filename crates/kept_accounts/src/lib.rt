//! Which accounts and numbers of a site stay as they are: what a keep text lists, on the hosts of
//! a site.
#![tactic(auto)]

mod kept_accounts;
mod kept_kind;
mod kept_names;
mod laws;
mod reserving;
mod sparing;

pub use kept_accounts::KeptAccounts;
pub use kept_kind::KeptKind;
pub use laws::{
    a_host_spares_what_is_its_own, an_empty_text_keeps_nothing, keeping_decides_what_is_left,
    kept_names_stay, kept_numbers_are_reserved, named_numbers_are_left_or_spared,
    numbers_decide_what_is_kept, only_what_stays_is_reserved, others_are_lawful,
    others_name_as_the_table, reserving_by_example, rows_are_kept_or_others,
    spared_numbers_are_reserved, unowned_numbers_are_spared,
};
pub use reserving::{UnownedNumber, UnownedNumbers};
