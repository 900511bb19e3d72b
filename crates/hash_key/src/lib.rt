//! Keyed hashing for maps whose keys come from a file or from a program that runs.
//!
//! It promises that equal values have equal hashes under one key, which is all that a map asks for. That hashes of chosen
//! values don't collide rests on the key, which is two random numbers; no clause says so. Below is `core`.
#![tactic(auto)]

mod hasher;
mod key;

pub use hasher::KeyedHasher;
pub use key::HashKey;
