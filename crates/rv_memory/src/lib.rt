//! The memory of a program that runs: its segments and a stack for each hart, with their rights.
//!
//! It promises that loads, stores and fetches give exactly what whole memory gives, which has a byte for each address
//! (RISC-V unprivileged manual, "Memory"), and that a store changes the bytes that it writes and no others. In the code
//! memory is pages and the program's file. Below is the program's image.
#![tactic(auto)]

mod access;
mod page;
mod page_cache;
mod paged_memory;
mod pages;
mod program_memory;
mod read;
mod region;
mod stack;
mod write;

pub use program_memory::ProgramMemory;
pub use stack::stack_of;
