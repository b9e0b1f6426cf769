//! Rehearsals of a whole site.

mod hosts;
mod site_runs;
