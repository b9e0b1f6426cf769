//! Runs a plan on a tree, so that a stop at any moment leaves each file at its old or its new
//! owner.
#![tactic(auto)]

mod campaign;
mod failing;
mod laws;
mod memory;
mod paths;
mod plan_tree;
mod runner;
mod tree;

pub use campaign::{Campaign, DriveFault, Event, EventFault};
pub use failing::{FailTree, Item};
pub use laws::{
    a_front_is_a_run, a_stop_stays_safe, advances_from_start, done_means_done, fresh_is_safe,
    happens_host_by_host, only_the_device_refuses, safe_by_lists, safe_is_old_or_new, stays_safe,
    turns_look_first, worlds_stay_safe,
};
pub use memory::{FileCell, Keep, MemTree};
pub use plan_tree::PlanTree;
pub use runner::{Place, Progress, RunFault, Runner};
pub use tree::{DeviceFault, Tree};
