//! The lines and the scopes of a program, which are looked for together at the addresses of counted samples.
ghost use Rattle.std.specs.Prelude.{◌≡◌, ◌<◌, IfOk, OnOk, length};
ghost use Rattle.thread_cct.specs.Adding.{of_column};
ghost use Rattle.run_profile.specs.private.SampledAddresses.{gathered_column, gathered_of};

use dwarf_inline::Structure;
use dwarf_line::LineTable;
use elf_image::Image;
use prof_bytes::Memory;
use scope_expand::{PathAddresses, full_addresses_stay};
use scope_find::{Finder, most_gathered};
use std::alloc::Global;
use thread_cct::Ccts;

/// Adds the addresses of a column's distinct raw paths, while there is room.
fn add_column(addresses: &mut PathAddresses, ccts: &Ccts, column: u32) -> Result<(), Memory>
    requires { column < length ccts.now }
    ensures { OnOk result (addresses.new ≡ gathered_column addresses.old (of_column ccts.now column)) }
{
    full_addresses_stay();
    for index in 0..ccts.len(column) {
        if !addresses.is_over() {
            let counted = ccts.path(column, index)?;
            addresses.add(&counted.path)?;
        }
    }
    Ok(())
}

/// The addresses of the frames of distinct raw paths, up to `most` frames.
fn sampled_addresses(alloc: Global, ccts: &Ccts, most: u64) -> Result<PathAddresses, Memory>
    ensures { IfOk result (λ addresses. addresses ≡ gathered_of most ccts.now) }
{
    let mut addresses = PathAddresses::up_to(alloc, most);
    for column in 0..ccts.columns() {
        add_column(&mut addresses, ccts, column)?;
    }
    Ok(addresses)
}

/// The same line tables. Where some of their programs are run again, their lines at all addresses of these samples are
/// found at once, so that the time doesn't grow as the addresses times the bytes of these programs.
pub fn lines_of_samples<'a>(
    alloc: Global,
    lines: LineTable<'a>,
    ccts: &Ccts,
) -> Result<LineTable<'a>, Memory>
    ensures { IfOk result (λ found. found ≡ lines.entry) }
{
    if !lines.has_unkept_tables() {
        return Ok(lines);
    }
    let addresses = sampled_addresses(alloc, ccts, u64::MAX)?;
    lines.with_rows_at(alloc, addresses.into_vec())
}

/// The finder of a program's scopes. It knows the addresses of these samples, where they have no more frames than it
/// is worth to gather.
pub fn finder_of_samples<'a>(
    alloc: Global,
    structure: &'a Structure<'a>,
    lines: &'a LineTable<'a>,
    image: &'a Image<'a>,
    ccts: &Ccts,
) -> Result<Finder<'a>, Memory>
    ensures { IfOk result (λ finder.
        finder ≡ record { structure = structure.now; lines = lines.now; image = image.now }) }
{
    let addresses = sampled_addresses(alloc, ccts, most_gathered(structure))?;
    if addresses.is_over() {
        return Finder::of(alloc, structure, lines, image);
    }
    Finder::of_addresses(alloc, structure, lines, image, addresses.into_vec())
}
