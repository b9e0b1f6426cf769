//! Plans: which files of a host get which new owner.
#![tactic(auto)]

mod change;
mod laws;
mod mark;
mod numbers;
mod places;
mod plan;
mod read;
mod records;
mod spell;
mod write;

pub use change::{NewOwners, OwnerChange, OwnerRows};
pub use laws::{
    bad_byte_is_told, changes_give_records, columns_of_plans, marks_tell_plans, one_reading,
    one_spelling, plans_keep_names, plans_read_back,
};
pub use mark::PlanMark;
pub use plan::{Owner, Plan, PlanFault, Record};
pub use spell::{push_plan_end, push_plan_head, push_record};
pub use write::{plan_text, push_plan_entry};
