//! Tests of call frame information and of unwinding by it.
//!
//! It has no code of its own, as all crates of tests. The expected values come from readelf, gcc, clang and gdb, and from
//! the standards. Below lie the readers of call frames, the unwinder, and the programs that tests share.
#![tactic(auto)]

#[cfg(test)]
mod frames;
#[cfg(test)]
mod unwinding;
