//! The commands: what each makes of the contents of its files, or their first refusal. Those that profile have a module
//! each here, the others in the crates below.
ghost use Rattle.command_line.specs.Request.{IsCommand, kinds_read};
ghost use Rattle.prof_bytes.specs.Outcome.{Gives};
ghost use Rattle.hpc_top.specs.commands.{makes};
ghost use Rattle.command_line.specs.Kind.{AreWithin};

pub mod drill;
pub mod live;
pub mod merge;
pub mod prof;
pub mod profile;

use command_line::{Command, InputFault, Product};
use hash_key::HashKey;
use prof_bytes::{Fail, Text};
use prof_devices::Gate;
use program_run::commands::{run, structure, timeline, trace};
use run_profile::commands::{stats, view};
use std::thread::Threads;

/// What a command makes of the contents of its files, which come in the order in which it reads them.
pub fn make<R: Threads + Sync + AllocGlobal, G: Gate>(
    rt: &R,
    key: HashKey,
    command: &Command,
    texts: &[Text],
    gate: &G,
) -> Result<Product, Fail<InputFault>>
    requires numbers { IsCommand command.now }
    requires files { AreWithin texts.now (kinds_read command.now) }
    ensures { Gives (λ p. p) result (makes command.now texts.now) }
{
    match command {
        Command::Profile { periods, workers } => {
            profile::make(rt, key, periods.items(), *workers, texts, gate)
        }
        Command::Run { periods } => run::make(rt.alloc(), key, periods.items(), texts),
        Command::Prof { workers } => prof::make(rt, key, *workers, texts, gate),
        Command::Struct => structure::make(rt.alloc(), texts),
        Command::View { table, event } => view::make(rt.alloc(), *table, *event, texts),
        Command::Drill { number, workers } => drill::make(rt, key, *number, *workers, texts, gate),
        Command::Merge { workers, .. } => merge::make(rt, key, *workers, texts, gate),
        Command::Live {
            periods,
            workers,
            epoch,
        } => live::make(rt, key, periods.items(), *workers, *epoch, texts, gate),
        Command::Trace { period } => trace::make(rt.alloc(), key, *period, texts),
        Command::Timeline { depth, cells } => timeline::make(
            rt.alloc(),
            key,
            *depth,
            *cells,
            texts,
        ),
        Command::Stats { kind, event } => stats::make(rt.alloc(), *kind, *event, texts),
    }
}
