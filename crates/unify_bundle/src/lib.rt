//! Commands over texts in memory: single commands, bundles, and the rehearsal of a whole site.
//!
//! `count` tells what a map would change, `merge` merges a site, `merge_hosts` too,
//! with each host's own passwd and group with their new numbers, and `check` checks a certificate:
//! each is the command over files, whose inventories are among the texts. `run_bundle` reads a
//! command with all its files as one text, and writes the answer. The replies of single commands
//! are what it writes. `merge_answer` and its like are the commands over files, each with its
//! reply. `rehearse_site` merges a site, and carries all its plans out on trees in memory.
#![tactic(auto)]

mod answers;
mod bundle_run;
mod input;
mod laws;
mod merge_text;
mod rehearsal_reply;
mod rehearsing_site;
mod reply;
mod site_files;
mod streams;
mod text_files;
mod texts;

pub use answers::{
    FilesAnswer, NoReply, check_answer, count_answer, merge_answer, rehearse_answer,
};
pub use bundle_run::{answer, run_bundle};
pub use laws::{
    answers_are_read_back, bundle_files_are_taken, bundle_limit_by_digit, replies_go_out,
    site_runs_finish, words_are_answered,
};
pub use merge_text::{merge_hosts_reply, merge_reply};
pub use rehearsal_reply::rehearse_reply;
pub use rehearsing_site::{SiteRun, rehearse_site};
pub use reply::{Reply, check_reply, count_reply};
pub use streams::{Sink, Source, Watched};
pub use texts::{check, count, merge, merge_hosts, survey_texts};
