//! The commands that need a database alone, a module for each.

pub mod stats;
pub mod view;
