//! Every guest is accepted by its readers: laws of the guests that numbers have.
//!
//! A drill makes a guest of a number and profiles it. It promises that no reader refuses the guest's files, for every
//! number: that its schedule and its program are read, that its call frame information has no fault, that it has no
//! debug information which could have one, and that its run has at most 41,113 samples. Each law is a
//! function without a body, whose contract is a fact on the definitions. Below are `guest_gen` with what a guest is,
//! and the readers: of ELF (System V ABI, chapters 4 and 5), of call frame information and debug information (DWARF 5,
//! sections 6.4, 6.2 and 7.5), and of schedules.
#![tactic(auto)]

mod laws;

pub use laws::{
    absent_debug_information_is_read, guest_frames_are_read, guest_programs_are_read,
    guest_schedules_are_read, guests_have_few_samples, guests_have_no_debug_information,
    runs_have_few_samples,
};
