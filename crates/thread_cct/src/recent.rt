//! The places of the raw paths that were found last.
ghost use Rattle.std.specs.Prelude.{◌≡◌, ◌<◌};
ghost use Rattle.scope_types.specs.Raw.{same_raw};

use scope_types::RawPath;

/// For how many addresses, by their lowest bits, a place is kept.
const RECENT: usize = 256;

/// For the innermost address of a raw path, the place among other paths of the one that was found last there. A loop has
/// the same paths again and again: where a sample has the path at this place, nothing is hashed. It may be the place of
/// another path, or of none.
#[derive(Drop)]
pub struct RecentPlaces {
    places: [usize; RECENT],
}

/// Where the place of a path is kept.
#[inline(always)]
fn slot_of(raw: &RawPath) -> usize
    ensures { result < 256 }
{
    (raw.frames()[0].pc / 4) as usize % RECENT
}

/// Whether two paths are the same. Those of one frame or two take no call.
#[inline(always)]
#[tactic(auto, using(scope_types::specs::private::SameRaw::compared))]
pub fn is_same_raw(raw: &RawPath, other: &RawPath) -> bool
    ensures { result ≡ same_raw raw.now other.now }
{
    match (raw.frames(), other.frames()) {
        ([frame], [only]) => raw.end() == other.end() && frame == only,
        ([frame, caller], [first, second]) => {
            raw.end() == other.end() && frame == first && caller == second
        }
        _ => raw == other,
    }
}

impl RecentPlaces {
    /// The place 0 for each address.
    pub fn new() -> RecentPlaces {
        RecentPlaces {
            places: [0; RECENT],
        }
    }

    /// The place to look at first.
    #[inline(always)]
    pub fn get(&self, raw: &RawPath) -> usize {
        self.places[slot_of(raw)]
    }

    /// Keeps the place of a path that was found.
    #[inline(always)]
    pub fn set(&mut self, raw: &RawPath, place: usize) {
        self.places[slot_of(raw)] = place;
    }
}
