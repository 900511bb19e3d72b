//! A crew that several crates of tests share.
//!
//! It promises that what it hands out are stripes without a piece, whatever its workers did. Below lies `merge_crew`.
#![tactic(auto)]

use merge_crew::{Crew, Crews};
use prof_bytes::Memory;
use prof_devices::OpenGate;

/// A crew that hands out stripes that no worker filled.
#[derive(Drop)]
pub struct EmptyCrew {
    gate: OpenGate,
}

impl EmptyCrew {
    pub fn new() -> EmptyCrew {
        EmptyCrew { gate: OpenGate }
    }
}

impl Crews for EmptyCrew {
    ghost use Rattle.std.specs.Prelude.{◌≡◌, false};

    type Gate = OpenGate;

    ghost whole = { λ _. false };

    ghost gives = { λ _ crew. (crew.merged ≡ 0) × (crew.busy_left ≡ 0) × (crew.present ≡ 0) × (crew.settled ≡ 0) };

    fn gate(&self) -> &OpenGate {
        &self.gate
    }

    fn hand_out<F: FnOnce() -> Result<Crew, Memory>>(
        &self,
        _crew: Crew,
        unfilled: F,
    ) -> Result<Crew, Memory> {
        unfilled()
    }
}
