//! Tests of profiles: their reports, call paths, attribution and events, drills, runs that are merged while they go on,
//! merges of several measurements, and the workers of all of these.
//!
//! It has no code of its own: a crate with tests is proved twice, and these prove none of the crates
//! below again. The expected values are written by hand from the formats. Below lie the top call and
//! the runs and programs that tests share.
#![tactic(auto)]

#[cfg(test)]
mod attribution;
#[cfg(test)]
mod call_paths;
#[cfg(test)]
mod crews;
#[cfg(test)]
mod drills;
#[cfg(test)]
mod events;
#[cfg(test)]
mod live;
#[cfg(test)]
mod merges;
#[cfg(test)]
mod reports;
#[cfg(test)]
mod workers;
