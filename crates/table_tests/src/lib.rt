//! Tests of what the other commands put: the tables and summaries of databases, timelines of traces, the structure of a
//! program, and what is made of a measurement.
//!
//! It has no code of its own, as all crates of tests. The expected values are written by hand from the formats, or those of
//! `checks/lib/databases.py`. Below lie the top call and the runs and programs that tests share.
#![tactic(auto)]

#[cfg(test)]
mod made_databases;
#[cfg(test)]
mod measurements;
#[cfg(test)]
mod structures;
#[cfg(test)]
mod summaries;
#[cfg(test)]
mod traces;
#[cfg(test)]
mod views;
