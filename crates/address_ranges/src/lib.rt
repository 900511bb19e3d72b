//! Which of many elements with ranges of addresses holds an address: the first of them, found by binary search.
//!
//! It promises that the element that is found for an address is the first whose range holds it, in the
//! order in which they were given, however the ranges nest and overlap. It follows no standard, and
//! is built on no other crate.
#![tactic(auto)]

mod ranges;

pub use ranges::{AddressRange, HasRange, RangeTable};
