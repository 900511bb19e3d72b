//! Programs and rows that several crates of tests share: bytes as text, sections of debug information, and what is read
//! of them; programs as files with the other files of a command, databases, and what commands make of these.
//!
//! It promises nothing but that each call is safe and returns; tests say what they expect of it. Below lie the readers.
#![tactic(auto)]

pub mod databases;
pub mod debug_programs;
pub mod files;
pub mod products;
pub mod program;
pub mod rows;
pub mod worked;
