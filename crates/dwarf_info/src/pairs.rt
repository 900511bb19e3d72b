ghost use Rattle.std.specs.Prelude.{◌≡◌};

use std::marker::Model;

/// The address ranges of an entry (DWARF 5, section 2.17), each from its start up to its end, which is not one of its
/// addresses. Contracts see them as a list.
#[derive(Debug, Drop)]
pub struct Ranges {
    pairs: Vec<(u32, u32)>,
}

impl Model for Ranges {
    ghost use Rattle.std.specs.Prelude.{ℕ, List};

    ghost Value = { List (ℕ × ℕ) };

    ghost view = { λ ranges. ranges.pairs.items };
}

impl Ranges {
    /// These ranges. Takes no memory.
    pub fn from_vec(pairs: Vec<(u32, u32)>) -> Ranges
        ensures { result ≡ pairs.items }
    {
        Ranges { pairs }
    }

    /// The ranges, in order.
    pub fn pairs(&self) -> &[(u32, u32)]
        ensures { result.now ≡ self.now }
    {
        self.pairs.as_slice()
    }
}
