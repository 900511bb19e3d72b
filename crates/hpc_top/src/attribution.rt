//! The database and the tables of the samples that measurements of a program count: of one run for `prof`, of several for
//! `merge`.
ghost use Rattle.std.specs.Prelude.{◌≡◌, IsTrue, length};
ghost use Rattle.command_line.specs.Request.{AreWorkers};
ghost use Rattle.measure_file.specs.Measurable.{AreMeasured};
ghost use Rattle.prof_bytes.specs.Outcome.{Gives};
ghost use Rattle.scope_types.specs.Columns.{columns_of};
ghost use Rattle.scope_types.specs.Events.{AreEvents};
ghost use Rattle.run_profile.specs.Merging.{AreRuns};
ghost use Rattle.hpc_top.specs.commands.Prof.{attributed_code};

use command_line::{InputFault, Product};
use elf_image::Image;
use merge_crew::Crews;
use prof_bytes::Fail;
use program_run::scopes_of;
use run_profile::{Merge, attribute_scopes, lines_of_samples};
use std::alloc::Global;
use std::thread::Threads;
use thread_cct::Ccts;

/// What is made of measured samples, or the first refusal of the program's debug information.
pub fn attribute_code<R: Threads + Sync, C: Crews>(
    rt: &R,
    alloc: Global,
    merge: &Merge<'_, C>,
    image: &Image<'_>,
    ccts: Ccts,
) -> Result<Product, Fail<InputFault>>
    requires events { AreEvents merge.now.events.now }
    requires runs { AreRuns merge.now.runs.now }
    requires columns { length ccts ≡ columns_of (length merge.now.events.now) merge.now.runs.now }
    requires workers { AreWorkers merge.now.workers }
    requires measured { AreMeasured ccts }
    requires whole { IsTrue (C.whole merge.now.crews.now) }
    ensures { Gives (λ p. p) result
        (attributed_code image.now merge.now.events.now merge.now.runs.now ccts) }
{
    let (lines, structure) = scopes_of(alloc, image)?;
    let lines = lines_of_samples(alloc, lines, &ccts)?;
    attribute_scopes(rt, alloc, merge, image, &lines, &structure, ccts)
}
