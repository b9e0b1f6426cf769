//! The account files passwd and group of a host, after passwd(5) and group(5).
//!
//! A file is read in one pass to a table of its rows, or refused with its first fault: a code and a
//! line number. In a table neither a name nor a number stands twice, since two accounts under one
//! number own each other's files.
#![tactic(auto)]

mod group;
mod index;
mod laws;
mod lines;
mod passwd;
mod table;

pub use group::{GroupRow, GroupTable, Members, read_group};
pub use laws::{
    a_table_is_accepted, first_faults_are_told, lists_have_their_members,
    refused_tables_by_example, rows_have_their_fields, tables_by_example,
};
pub use passwd::{PasswdRow, PasswdTable, read_passwd};
