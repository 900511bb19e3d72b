//! Tests of files and streams, and of what reads a program's file: numbers in bytes, ELF files, tables of ranges, and the
//! forms and abbreviation tables of DWARF 5.
//!
//! It has no code of its own: a crate with tests is proved twice, and these prove none of the readers again. The expected
//! values come from other tools (readelf, nm, gcc, clang, binutils) and from the standards. Below lie the readers, the
//! devices, and the programs that tests share.
#![tactic(auto)]

#[cfg(test)]
mod bytes;
#[cfg(test)]
mod calls;
#[cfg(test)]
mod devices;
#[cfg(test)]
mod edges;
#[cfg(test)]
mod elf;
#[cfg(test)]
mod forms;
#[cfg(test)]
mod ranges;
