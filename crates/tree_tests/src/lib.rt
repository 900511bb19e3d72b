//! Tests of calling context trees: tries of counted call paths, the trees that are made of them, the plan of a merge
//! and its pieces, the workers of a merge, the values of a tree and their planes, and measurement and trace files.
//!
//! It has no code of its own: a crate with tests is proved twice, and these prove none of the crates
//! below again. The expected values are written by hand from the definitions.
#![tactic(auto)]

#[cfg(test)]
mod appended;
#[cfg(test)]
mod crew;
#[cfg(test)]
mod event_measurements;
#[cfg(test)]
mod files;
#[cfg(test)]
mod joins;
#[cfg(test)]
mod measurements;
#[cfg(test)]
mod plan;
#[cfg(test)]
mod planes;
#[cfg(test)]
mod stripes;
#[cfg(test)]
mod sums;
#[cfg(test)]
mod traces;
#[cfg(test)]
mod tries;
