//! Tests of debug information: units, entries and line tables.
//!
//! It has no code of its own, as all crates of tests. The expected values come from readelf, llvm-dwarfdump, gcc and clang,
//! and from DWARF 5. Below lie the readers of debug information, and the programs that tests share.
#![tactic(auto)]

#[cfg(test)]
mod entries;
#[cfg(test)]
mod lines;
