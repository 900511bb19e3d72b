//! Tests of databases: those of several runs, read and written again, and the tables and summaries of what was read.
//!
//! It has no code of its own, as all crates of tests. The expected values are those of `checks/lib/databases.py` and
//! `checks/files/database_rules`, or written by hand from the formats. Below lie the readers and writers of databases, what
//! makes tables of them, and the databases that tests share.
#![tactic(auto)]

#[cfg(test)]
mod several_runs;
#[cfg(test)]
mod summaries;
#[cfg(test)]
mod top_down;
