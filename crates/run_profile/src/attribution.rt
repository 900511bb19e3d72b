//! The database and the tables of the samples that measurements count: of one run for `prof`, of several for `merge`.
ghost use Rattle.std.specs.Prelude.{◌≡◌, ◌<◌, All, IsTrue, List, length};
ghost use Rattle.command_line.specs.Request.{AreWorkers};
ghost use Rattle.measure_file.specs.Measurable.{AreMeasured};
ghost use Rattle.prof_bytes.specs.Outcome.{Gives};
ghost use Rattle.scope_types.specs.Columns.{columns_of};
ghost use Rattle.scope_types.specs.Distinct.{ColumnRaw, distinct, each_sample, samples_in};
ghost use Rattle.scope_types.specs.Events.{AreEvents};
ghost use Rattle.run_profile.specs.Attribution.{attributed};
ghost use Rattle.run_profile.specs.Merging.{AreRuns};
ghost use Rattle.run_profile.specs.Attribution.{attribution_or};

use crate::both::database_and_tables;
use crate::events::event_lines;
use crate::merged::{Merge, Merged, merge_samples};
use crate::sampled_addresses::finder_of_samples;
use command_line::{InputFault, Product, no_text};
use dwarf_inline::Structure;
use dwarf_line::LineTable;
use elf_image::Image;
use measure_file::measurements_count_samples;
use merge_crew::Crews;
use prof_bytes::Fail;
use scope_find::Finder;
use std::alloc::Global;
use std::thread::Threads;
use thread_cct::Ccts;
use tree_types::{counts_decide, event_content_holds_its_paths, event_paths_are_paths};

/// What is made of counted samples, unless these have too many scopes.
fn attribute_counted<R: Threads + Sync, C: Crews>(
    rt: &R,
    alloc: Global,
    merge: &Merge<'_, C>,
    finder: &Finder<'_>,
    ccts: Ccts,
) -> Result<Product, Fail<InputFault>>
    requires events { AreEvents merge.now.events.now }
    requires runs { AreRuns merge.now.runs.now }
    requires columns { length ccts ≡ columns_of (length merge.now.events.now) merge.now.runs.now }
    requires workers { AreWorkers merge.now.workers }
    requires whole { IsTrue (C.whole merge.now.crews.now) }
    ensures { (samples : List ColumnRaw) → ccts ≡ distinct (length ccts) samples
        → All (λ s. s.column < length ccts) samples → samples_in ccts ≡ length samples
        → Gives (λ p. p) result
        (attribution_or (attributed finder.now merge.now.events.now merge.now.runs.now samples)) }
{
    counts_decide();
    event_content_holds_its_paths();
    event_paths_are_paths();
    let lines = event_lines(alloc, merge.events, &ccts)?;
    let Merged { content, .. } = merge_samples(rt, alloc, merge, finder, ccts)?;
    let (stored, text) = database_and_tables(rt, alloc, no_text(alloc), lines.as_slice(), content)?;
    Ok(Product { stored, text })
}

/// What is made of measured samples by a program whose debug information was read.
pub fn attribute_scopes<R: Threads + Sync, C: Crews>(
    rt: &R,
    alloc: Global,
    merge: &Merge<'_, C>,
    image: &Image<'_>,
    lines: &LineTable<'_>,
    structure: &Structure<'_>,
    ccts: Ccts,
) -> Result<Product, Fail<InputFault>>
    requires events { AreEvents merge.now.events.now }
    requires runs { AreRuns merge.now.runs.now }
    requires columns { length ccts ≡ columns_of (length merge.now.events.now) merge.now.runs.now }
    requires workers { AreWorkers merge.now.workers }
    requires measured { AreMeasured ccts }
    requires whole { IsTrue (C.whole merge.now.crews.now) }
    ensures { Gives (λ p. p) result
        (attribution_or
        (attributed (record { structure = structure.now; lines = lines.now; image = image.now })
        merge.now.events.now merge.now.runs.now (each_sample ccts))) }
{
    measurements_count_samples();
    let finder = finder_of_samples(alloc, structure, lines, image, &ccts)?;
    attribute_counted(rt, alloc, merge, &finder, ccts)
}
