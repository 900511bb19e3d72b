//! The limits of a profile, each in one place.
ghost use Rattle.std.specs.Prelude.{◌≡◌};
ghost use Rattle.scope_types.specs.Limits.{most_events, most_frames_in_all, most_frames_of_path, most_harts, most_name_bytes};
ghost use Rattle.scope_types.specs.Limits.{least_epoch, most_epoch};
ghost use Rattle.scope_types.specs.Limits.{most_runs, most_samples, most_scopes_in_all, most_workers, stripe_count};

/// The harts of a run.
pub const MOST_HARTS: usize = 64;

/// The runs of a profile.
pub const MOST_RUNS: usize = 16;

/// The events that can be sampled.
pub const MOST_EVENTS: usize = 4;

/// The samples of a profile.
pub const MOST_SAMPLES: u32 = 1_048_576;

/// The frames of one call path.
pub const MOST_FRAMES_OF_PATH: u32 = 512;

/// The frames of all distinct raw paths of a profile together.
pub const MOST_FRAMES_IN_ALL: u32 = 4_194_304;

/// The scopes of the call paths of all distinct raw paths of a profile together.
pub const MOST_SCOPES_IN_ALL: u32 = 8_388_608;

/// The threads that merge.
pub const MOST_WORKERS: usize = 16;

/// The parts of the tree of a merge.
pub const STRIPES: usize = 16;

/// The fewest samples of an epoch, which is merged while the run goes on.
pub const LEAST_EPOCH: u32 = 1_024;

/// The most samples of an epoch.
pub const MOST_EPOCH: u32 = 1_048_576;

/// The bytes that are kept of a name: of a procedure's, and of a file's with its directory.
pub const MOST_NAME_BYTES: usize = 4_096;

/// The code has the limits of the definitions.
pub fn limits_are_those_of_the_definitions()
    ensures columns { MOST_HARTS ≡ most_harts }
    ensures runs { MOST_RUNS ≡ most_runs }
    ensures events { MOST_EVENTS ≡ most_events }
    ensures samples { MOST_SAMPLES ≡ most_samples }
    ensures frames_of_path { MOST_FRAMES_OF_PATH ≡ most_frames_of_path }
    ensures frames_in_all { MOST_FRAMES_IN_ALL ≡ most_frames_in_all }
    ensures scopes_in_all { MOST_SCOPES_IN_ALL ≡ most_scopes_in_all }
    ensures workers { MOST_WORKERS ≡ most_workers }
    ensures least_epoch { LEAST_EPOCH ≡ least_epoch }
    ensures most_epoch { MOST_EPOCH ≡ most_epoch }
    ensures stripes { STRIPES ≡ stripe_count }
    ensures name_bytes { MOST_NAME_BYTES ≡ most_name_bytes }
{}

/// The numbers of the definitions.
pub fn limit_values()
    ensures columns { most_harts ≡ 64 }
    ensures runs { most_runs ≡ 16 }
    ensures events { most_events ≡ 4 }
    ensures samples { most_samples ≡ 1048576 }
    ensures frames_of_path { most_frames_of_path ≡ 512 }
    ensures frames_in_all { most_frames_in_all ≡ 4194304 }
    ensures scopes_in_all { most_scopes_in_all ≡ 8388608 }
    ensures workers { most_workers ≡ 16 }
    ensures least_epoch { least_epoch ≡ 1024 }
    ensures most_epoch { most_epoch ≡ 1048576 }
    ensures stripes { stripe_count ≡ 16 }
    ensures name_bytes { most_name_bytes ≡ 4096 }
{}
