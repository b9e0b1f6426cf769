//! The plan that takes a plan back.
#![tactic(auto)]

mod laws;
mod reverse;

pub use laws::{reverses_exchange_owners, reverses_take_back};
pub use reverse::reversed_text;
