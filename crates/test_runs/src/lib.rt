//! Runs of commands that several crates of tests share: over files in memory, with what they put and answer.
//!
//! It promises nothing but that each call is safe and returns; tests say what they expect of it. Below lie the top call
//! and the programs that tests share.
#![tactic(auto)]

pub mod answers;
pub mod runs;
