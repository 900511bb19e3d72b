//! The log of a device: its calls so far, in their order. Contracts read it, and no code keeps it.
ghost use Rattle.std.specs.Prelude.{◌≡◌, ◌++◌, ◌∷◌, []};
ghost use Rattle.prof_devices.specs.declared.logs.ShelfCall.TheVariants.{Fetch, Store};

use ghost_value::{Determines, GhostValue};
use prof_bytes::{Listed, Text};

/// A call on a shelf. No value of this type is made.
pub enum ShelfCall {
    /// A fetch of the file with this name.
    Fetch(Text),
    /// A store of these bytes as the file with this name.
    Store(Text, Text),
}

/// The calls on a shelf.
pub(crate) type ShelfLog = GhostValue<Listed<ShelfCall>>;

/// The bytes of each put to a sink.
pub(crate) type SinkLog = GhostValue<Listed<Text>>;

/// No call yet.
struct Nothing;

impl<T> Determines<(), (), Listed<T>> for Nothing {
    ghost use Rattle.std.specs.Prelude.{[]};

    ghost value = { λ _ _. [] };
}

/// One fetch more.
struct FetchLogged;

impl<'a> Determines<ShelfLog, &'a [u8], Listed<ShelfCall>> for FetchLogged {
    ghost use Rattle.std.specs.Prelude.{◌++◌, ◌∷◌, []};
    ghost use Rattle.prof_devices.specs.declared.logs.ShelfCall.TheVariants.{Fetch};

    ghost value = { λ log name. log.value ++ Fetch name.now ∷ [] };
}

/// One store more.
struct StoreLogged;

impl<'a> Determines<ShelfLog, (&'a [u8], &'a [u8]), Listed<ShelfCall>> for StoreLogged {
    ghost use Rattle.std.specs.Prelude.{◌++◌, ◌∷◌, []};
    ghost use Rattle.prof_devices.specs.declared.logs.ShelfCall.TheVariants.{Store};

    ghost value = { λ log file. log.value ++ Store file.0.now file.1.now ∷ [] };
}

/// One put more.
struct PutLogged;

impl<'a> Determines<SinkLog, &'a [u8], Listed<Text>> for PutLogged {
    ghost use Rattle.std.specs.Prelude.{◌++◌, ◌∷◌, []};

    ghost value = { λ log bytes. log.value ++ bytes.now ∷ [] };
}

/// The log of a shelf without a call yet.
pub(crate) fn new_shelf_log() -> ShelfLog
    ensures { result.value ≡ [] }
{
    GhostValue::of::<(), (), Nothing>(&(), &())
}

/// The log of a sink without a put yet.
pub(crate) fn new_sink_log() -> SinkLog
    ensures { result.value ≡ [] }
{
    GhostValue::of::<(), (), Nothing>(&(), &())
}

pub(crate) fn log_fetch(log: &ShelfLog, name: &[u8]) -> ShelfLog
    ensures { result.value ≡ log.now.value ++ Fetch name.now ∷ [] }
{
    GhostValue::of::<ShelfLog, &[u8], FetchLogged>(log, &name)
}

pub(crate) fn log_store(log: &ShelfLog, name: &[u8], bytes: &[u8]) -> ShelfLog
    ensures { result.value ≡ log.now.value ++ Store name.now bytes.now ∷ [] }
{
    GhostValue::of::<ShelfLog, (&[u8], &[u8]), StoreLogged>(log, &(name, bytes))
}

pub(crate) fn log_put(log: &SinkLog, bytes: &[u8]) -> SinkLog
    ensures { result.value ≡ log.now.value ++ bytes.now ∷ [] }
{
    GhostValue::of::<SinkLog, &[u8], PutLogged>(log, &bytes)
}
