//! The length of names.
ghost use Rattle.std.specs.Prelude.{◌≡◌, take};
ghost use Rattle.scope_types.specs.Limits.{most_name_bytes};

use crate::limits::MOST_NAME_BYTES;
use prof_bytes::first_bytes;

/// The first `MOST_NAME_BYTES` bytes of a name, or all where there are fewer. Takes no memory.
pub fn cut_name(name: &[u8]) -> &[u8]
    ensures { result.now ≡ take most_name_bytes name.now }
{
    first_bytes(name, MOST_NAME_BYTES)
}
