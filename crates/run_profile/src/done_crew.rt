//! What a crew has done, once its stripes are freed.
ghost use Rattle.std.specs.Prelude.{◌≡◌};

use ghost_value::{Determines, GhostValue};
use merge_crew::Crew;
use std::marker::Model;

/// A crew as it is.
struct Itself;

impl Determines<Crew, (), Crew> for Itself {
    ghost value = { λ crew _. crew };
}

/// What a crew has done, for contracts alone, which see the crew. It takes no memory.
#[derive(Drop)]
pub struct DoneCrew {
    crew: GhostValue<Crew>,
}

impl Model for DoneCrew {
    ghost use Rattle.merge_crew.specs.declared.merge.Crew.{Crew};

    ghost Value = { Crew };

    ghost view = { λ done. done.crew.value };
}

impl DoneCrew {
    /// What a crew has done, of which nothing is kept.
    pub(crate) fn of(crew: &Crew) -> DoneCrew
        ensures { result ≡ crew.now }
    {
        DoneCrew {
            crew: GhostValue::of::<Crew, (), Itself>(crew, &()),
        }
    }
}
