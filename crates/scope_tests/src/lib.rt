//! Tests of the structure of a program, the scopes at its addresses, their order, its listing, call paths
//! expanded by them, and timelines of traces.
//!
//! It has no code of its own, as all crates of tests. The expected values come from addr2line, LLVM's tools and the
//! definitions. Below lie the readers of debug information, what finds scopes by them, and the programs that tests share.
#![tactic(auto)]

#[cfg(test)]
mod expand;
#[cfg(test)]
mod listing;
#[cfg(test)]
mod order;
#[cfg(test)]
mod scopes;
#[cfg(test)]
mod structure;
#[cfg(test)]
mod timelines;
