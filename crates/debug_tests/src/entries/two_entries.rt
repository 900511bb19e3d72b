//! A unit of two entries that is put together part by part, after DWARF 5, section 7.5.
use dwarf_forms::constants::{DW_CHILDREN_no, DW_CHILDREN_yes};
use dwarf_info::constants::{DW_TAG_compile_unit, DW_TAG_subprogram, DW_UT_compile};
use prof_bytes::{Memory, put_u32};
use std::alloc::Global;
use test_programs::program::Sections;
use test_programs::rows::{extend_each, joined};

/// A part of the bytes of a unit of two entries.
pub(super) enum Part {
    /// Attributes and forms of the first entry, and their values.
    Unit(&'static [u64], &'static [u8]),
    /// Those of the second entry.
    Entry(&'static [u64], &'static [u8]),
    /// `.debug_str`.
    Str(&'static [u8]),
    /// `.debug_line_str`.
    LineStr(&'static [u8]),
    /// `.debug_str_offsets`.
    StrOffsets(&'static [u8]),
    /// `.debug_addr`.
    Addr(&'static [u8]),
    /// `.debug_rnglists`, entry by entry.
    RngLists(&'static [&'static [u8]]),
}

/// Attributes and forms of an entry, and their values.
#[derive(Drop)]
struct EntryBytes {
    specs: Vec<u8>,
    values: Vec<u8>,
}

impl EntryBytes {
    fn new(alloc: Global) -> EntryBytes {
        EntryBytes {
            specs: Vec::new(alloc),
            values: Vec::new(alloc),
        }
    }

    fn add(&mut self, specs: &[u64], values: &[u8]) -> Result<(), Memory> {
        for number in specs {
            self.specs.push((*number % 128) as u8)?;
        }
        self.values.extend_from_slice(values)?;
        Ok(())
    }
}

/// The sections of a unit of two entries, and what stands in the entries.
#[derive(Drop)]
pub(super) struct Unit {
    pub(super) sections: Sections,
    first: EntryBytes,
    second: EntryBytes,
}

impl Unit {
    /// A unit without attributes.
    fn new(alloc: Global) -> Unit {
        Unit {
            sections: Sections::new(alloc),
            first: EntryBytes::new(alloc),
            second: EntryBytes::new(alloc),
        }
    }

    fn add_part(&mut self, part: &Part) -> Result<(), Memory> {
        let sections = &mut self.sections;
        match *part {
            Part::Unit(specs, values) => self.first.add(specs, values),
            Part::Entry(specs, values) => self.second.add(specs, values),
            Part::Str(bytes) => extend_each(&mut sections.str_bytes, &[bytes]),
            Part::LineStr(bytes) => extend_each(&mut sections.line_str, &[bytes]),
            Part::StrOffsets(bytes) => extend_each(&mut sections.str_offsets, &[bytes]),
            Part::Addr(bytes) => extend_each(&mut sections.addr, &[bytes]),
            Part::RngLists(entries) => extend_each(&mut sections.rnglists, entries),
        }
    }

    fn add_parts(&mut self, parts: &[Part]) -> Result<(), Memory> {
        for part in parts {
            self.add_part(part)?;
        }
        Ok(())
    }

    /// Puts the abbreviations and the entries together.
    fn close(&mut self, alloc: Global) -> Result<(), Memory> {
        let Unit {
            sections,
            first,
            second,
        } = self;
        add_abbreviations(&mut sections.abbrev, &first.specs, &second.specs)?;
        add_unit(alloc, &mut sections.info, &first.values, &second.values)
    }
}

/// Appends an abbreviation for each entry by its attributes and forms.
fn add_abbreviations(abbrev: &mut Vec<u8>, first: &[u8], second: &[u8]) -> Result<(), Memory> {
    let unit: &[u8] = &[1, DW_TAG_compile_unit as u8, DW_CHILDREN_yes];
    let subprogram: &[u8] = &[0, 0, 2, DW_TAG_subprogram as u8, DW_CHILDREN_no];
    extend_each(abbrev, &[unit, first, subprogram, second, &[0, 0, 0]])
}

/// Appends a unit of version 5 with addresses of 4 bytes by the values of its entries.
fn add_unit(alloc: Global, info: &mut Vec<u8>, first: &[u8], second: &[u8]) -> Result<(), Memory> {
    let header: &[u8] = &[5, 0, DW_UT_compile, 4, 0, 0, 0, 0];
    let bytes = joined(alloc, &[header, &[1], first, &[2], second, &[0]])?;
    put_u32(info, u32::try_from(bytes.len()).unwrap_or(0))?;
    info.extend_from_slice(&bytes)?;
    Ok(())
}

/// The unit of a case.
pub(super) fn unit_of(alloc: Global, with: &[Part], parts: &[Part]) -> Result<Unit, Memory> {
    let mut unit = Unit::new(alloc);
    unit.add_parts(with)?;
    unit.add_parts(parts)?;
    unit.close(alloc)?;
    Ok(unit)
}
