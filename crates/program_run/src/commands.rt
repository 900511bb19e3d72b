//! The commands that need a program and its run alone, a module for each.

pub mod run;
pub mod structure;
pub mod timeline;
pub mod trace;
