//! Tests of the machine: the instruction table, steps of one hart, its memory, schedules, runs, and samples; of runs
//! that are merged while they go on; and of the guests that are made from numbers.
//!
//! It has no code of its own: a crate with tests is proved twice, and these prove none of the machine
//! again. The expected values come from the GNU assembler, from qemu, and from the manual. Below stand
//! the crates of the machine, and `live_merge`.
#![tactic(auto)]

#[cfg(test)]
mod events;
#[cfg(test)]
mod guest_files;
#[cfg(test)]
mod guests;
#[cfg(test)]
mod instructions;
#[cfg(test)]
mod live;
#[cfg(test)]
mod memory;
#[cfg(test)]
mod own_code;
#[cfg(test)]
mod runs;
#[cfg(test)]
mod samples;
#[cfg(test)]
mod schedules;
#[cfg(test)]
mod steps;
