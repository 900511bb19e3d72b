//! What is so of the files that commands store.
ghost use Rattle.hpc_laws.specs.Databases.{MergesStoreDatabases, ProfilesStoreDatabases, ProfsStoreDatabases};
ghost use Rattle.hpc_laws.specs.Databases.{RunsStoreMeasurements};

use crate::shown::views_are_of_call_paths;
use crate::summaries::summaries_are_of_call_paths;
use cfi_unwind::paths_have_frames;
use measure_file::{
    event_read_is_written, event_written_is_read, measurements_count_samples, samples_are_measured,
};
use prof_db::{call_paths_are_stored, event_call_paths_are_stored};
use sample_clock::samples_are_of_instructions;
use thread_cct::samples_are_counted;
use tree_types::{counts_decide, nodes_are_few};

/// Each database that an accepted `profile`, `prof` or `merge` stores is read as the content of its samples' call paths,
/// `view` puts the tables of each event's paths, and `stats` their summaries: the limits of samples, frames and scopes
/// keep it within those of the format.
pub fn databases_are_of_samples()
    ensures profile { ProfilesStoreDatabases }
    ensures prof { ProfsStoreDatabases }
    ensures merge { MergesStoreDatabases }
{
    views_are_of_call_paths();
    summaries_are_of_call_paths();
    call_paths_are_stored();
    event_call_paths_are_stored();
    samples_are_of_instructions();
    paths_have_frames();
    event_read_is_written();
    measurements_count_samples();
    samples_are_counted();
    counts_decide();
    nodes_are_few();
}

/// Each measurement that an accepted `run` stores is read as the counted raw paths of the run, and `prof` doesn't find it
/// at fault, also where `profile` of the same files would be refused.
pub fn measurements_are_of_runs()
    ensures { RunsStoreMeasurements }
{
    paths_have_frames();
    samples_are_of_instructions();
    samples_are_measured();
    event_written_is_read();
    samples_are_counted();
}
