ghost use Rattle.hpc_laws.specs.Apart.{MergeOfOne, OneIsProf, RunThenProf};
ghost use Rattle.hpc_laws.specs.LiveRuns.{LiveIsProfile};
ghost use Rattle.hpc_laws.specs.Order.{OrderRenumbers};

use cfi_unwind::paths_have_frames;
use measure_file::{
    event_read_is_written, event_written_is_read, measurements_count_samples, samples_are_measured,
};
use sample_clock::samples_are_of_instructions;
use thread_cct::{appended_samples_are_counted, samples_are_counted};
use tree_types::{
    counts_decide, event_content_holds_its_paths, event_paths_are_paths, pieces_keep_the_paths,
};

/// What `profile` makes, `run` makes and then `prof` of what `run` stored: the same database, and the same tables after
/// the same lines on the run.
pub fn profile_is_run_then_prof()
    ensures { RunThenProf }
{
    counts_decide();
    event_content_holds_its_paths();
    event_paths_are_paths();
    measurements_count_samples();
    samples_are_of_instructions();
    paths_have_frames();
    samples_are_counted();
    samples_are_measured();
    event_written_is_read();
}

/// `merge` of one measurement makes what `prof` makes of it, and is accepted where `prof` is.
pub fn merge_of_one_is_prof()
    ensures merge { MergeOfOne }
    ensures prof { OneIsProf }
{
    event_read_is_written();
    measurements_count_samples();
}

/// The order of the measurements numbers the columns and nothing else: `merge` of them in any other order is accepted
/// where it is, and puts the same text.
pub fn order_renumbers_columns()
    ensures { OrderRenumbers }
{
    event_read_is_written();
    measurements_count_samples();
    appended_samples_are_counted();
    pieces_keep_the_paths();
    counts_decide();
    event_paths_are_paths();
}

/// What `profile` makes of its files, `live` makes of them, and what one refuses, the other refuses, whatever the length
/// of an epoch and the numbers of workers.
pub fn live_is_profile()
    ensures { LiveIsProfile }
{}
