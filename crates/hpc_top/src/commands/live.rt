//! `live`: the database and the report of a program's run, whose samples are merged while it goes on. They are those of
//! `profile`.
ghost use Rattle.std.specs.Prelude.{◌≤◌, ◌∷◌, []};
ghost use Rattle.command_line.specs.declared.kind.FileKind.TheVariants as kinds;
ghost use Rattle.command_line.specs.Request.{AreWorkers};
ghost use Rattle.prof_bytes.specs.Outcome.{Gives};
ghost use Rattle.scope_types.specs.Events.{AreEvents};
ghost use Rattle.scope_types.specs.Limits.{least_epoch, most_epoch};
ghost use Rattle.hpc_top.specs.commands.Profile.{profile_makes};
ghost use Rattle.command_line.specs.Kind.{AreWithin};

use crate::commands::profile::Job;
use crate::live_runs::live_product;
use command_line::{InputFault, Product, nothing};
use hash_key::HashKey;
use live_merge::GateWorkers;
use prof_bytes::{Fail, Text};
use prof_devices::Gate;
use scope_types::EventPeriod;
use std::thread::Threads;

/// What `live` makes of its files.
pub fn make<R: Threads + Sync + AllocGlobal, G: Gate>(
    rt: &R,
    key: HashKey,
    periods: &[EventPeriod],
    workers: u32,
    epoch: u32,
    texts: &[Text],
    gate: &G,
) -> Result<Product, Fail<InputFault>>
    requires files { AreWithin texts.now (kinds.Program ∷ kinds.Input ∷ kinds.Schedule ∷ []) }
    requires events { AreEvents periods.now }
    requires workers { AreWorkers workers }
    requires epoch { (least_epoch ≤ epoch) × (epoch ≤ most_epoch) }
    ensures { Gives (λ p. p) result (profile_makes periods.now texts.now) }
{
    let [elf, input, schedule] = texts else {
        return Ok(nothing(rt.alloc()));
    };
    let job = Job {
        elf: elf.bytes(),
        input: input.bytes(),
        schedule: schedule.bytes(),
        periods,
        workers,
        key,
    };
    live_product(rt, rt.alloc(), &job, &GateWorkers::of(gate, workers), epoch)
}
