//! Tests of what the top call answers where it makes nothing: words that are no command, files that are refused, with
//! their messages, and each call of a device that fails.
//!
//! It has no code of its own, as all crates of tests. The expected values are written by hand from the formats. Below lie
//! the top call and the runs and programs that tests share.
#![tactic(auto)]

#[cfg(test)]
mod failing_calls;
#[cfg(test)]
mod failing_live;
#[cfg(test)]
mod failures;
#[cfg(test)]
mod messages;
#[cfg(test)]
mod refusals;
#[cfg(test)]
mod view_faults;
