use cfi_table::{Cfa, FrameTable, Rule, read_frames};
use elf_image::Image;
use prof_bytes::Memory;
use std::alloc::Global;
use std::fmt::Write;
use std::test::Fail;
use test_programs::program::{UNREADABLE, Unread, image_of, table_of};
use test_programs::rows::{bytes_of, cut, no_row, number, replaced};

mod changes;
mod exceptions;
mod sections;

/// A program of one segment, executable, from 0x10000 up to 0x11000, and nothing in it.
const PROGRAM: &[u8] = b"\
    7f454c460101010000000000000000000200f300010000000000010034000000000000000000000034002000\
    01002800000000000100000054000000000001000000010000000000001000000500000004000000";

fn with_offset(out: &mut String, letter: &str, offset: u32) -> Result<(), Memory> {
    if offset < 1 << 31 {
        write!(out, "{letter}+{offset}")?;
    } else {
        write!(out, "{letter}-{}", 0u32.wrapping_sub(offset))?;
    }
    Ok(())
}

fn cfa(out: &mut String, cfa: Cfa) -> Result<(), Memory> {
    match cfa {
        Cfa::Missing => out.push_str("none")?,
        Cfa::Register { reg, offset } => {
            write!(out, "{reg}")?;
            with_offset(out, "", offset)?;
        }
        Cfa::Expression => out.push_str("exp")?,
    }
    Ok(())
}

fn rule(out: &mut String, register: usize, rule: Rule) -> Result<(), Memory> {
    if rule == Rule::Kept || rule == Rule::Undefined {
        return Ok(());
    }
    write!(out, " {register}=")?;
    match rule {
        Rule::Saved(offset) => with_offset(out, "c", offset)?,
        Rule::Sum(offset) => with_offset(out, "v", offset)?,
        Rule::Copy(source) => write!(out, "r{source}")?,
        _ => out.push_str("exp")?,
    }
    Ok(())
}

/// The rules at an address, as the rows have them.
fn shown(alloc: Global, table: &FrameTable, pc: u32) -> Result<String, Memory> {
    let mut out = String::new(alloc);
    if let Some(rules) = table.rules_at(pc)? {
        cfa(&mut out, rules.cfa)?;
        for (register, one) in rules.regs.iter().enumerate() {
            rule(&mut out, register, *one)?;
        }
    }
    Ok(out)
}

/// Whether these are the rules at an address.
fn rules_are(alloc: Global, table: &FrameTable, pc: u32, rules: &[u8]) -> Result<bool, Memory> {
    let found = shown(alloc, table, pc)?;
    Ok(found.as_str().as_bytes() == rules)
}

/// Whether the row, as `10010-10014 2+16 1=c-4`, says what stands at each of its addresses.
fn row_holds(alloc: Global, table: &FrameTable, row: &[u8]) -> Result<bool, Memory> {
    let (range, rules) = cut(row, b' ');
    let (low, high) = cut(range, b'-');
    let (low, high) = (number(low, 16), number(high, 16));
    for step in 0..high.wrapping_sub(low) / 4 {
        let pc = low.wrapping_add(step.wrapping_mul(4));
        if !rules_are(alloc, table, pc, rules)? {
            return Ok(false);
        }
    }
    Ok(low < high)
}

/// The first row that does not hold.
fn failing(
    alloc: Global,
    table: &FrameTable,
    rows: &[&'static str],
) -> Result<Option<&'static str>, Memory> {
    for row in rows {
        if !row_holds(alloc, table, row.as_bytes())? {
            return Ok(Some(row));
        }
    }
    Ok(None)
}

/// The frames of a section beside a file.
fn frames_in(alloc: Global, file: &[u8], section: &[u8]) -> Result<FrameTable, Unread> {
    let image = image_of(alloc, file)?;
    table_of(alloc, section, &image)
}

/// The frames of a section of the program, in hexadecimal.
fn frames_of(alloc: Global, hex: &[u8]) -> Result<FrameTable, Unread> {
    let file = bytes_of(alloc, PROGRAM)?;
    let section = bytes_of(alloc, hex)?;
    frames_in(alloc, &file, &section)
}

/// The first row that does not hold of a section of the program, after the section's name.
fn failing_rules(
    alloc: Global,
    name: &'static str,
    hex: &[u8],
    rows: &[&'static str],
) -> Result<Option<(&'static str, &'static str)>, Unread> {
    let table = frames_of(alloc, hex)?;
    match failing(alloc, &table, rows)? {
        Some(row) => Ok(Some((name, row))),
        None => Ok(None),
    }
}

/// The same of all sections.
fn other_rules(alloc: Global) -> Result<Option<(&'static str, &'static str)>, Unread> {
    let gcc = failing_rules(alloc, "gcc", sections::gcc(), &sections::GCC_RULES)?;
    let clang = failing_rules(alloc, "clang", sections::clang(), &sections::CLANG_RULES)?;
    let section = sections::directives();
    let each = failing_rules(
        alloc,
        "each directive",
        section,
        &sections::DIRECTIVES_RULES,
    )?;
    let section = sections::locations();
    let moved = failing_rules(alloc, "locations move", section, &sections::LOCATIONS_RULES)?;
    Ok(gcc.or(clang).or(each).or(moved))
}

#[test]
fn rules_at_each_address(rt: HostRuntime) -> Result<(), Fail> {
    assert_eq!(rt; other_rules(rt.alloc())?, None);
    Ok(())
}

/// The FDE that holds 0x10010 with the rules at 0x10018, as text.
fn answer_of(alloc: Global, table: &FrameTable) -> Result<String, Memory> {
    match table.fde_at(0x10010) {
        Some(fde) => {
            let rules = shown(alloc, table, 0x10018)?;
            Ok(format!(in alloc; "{fde} {}", rules.as_str())?)
        }
        None => Ok(String::from_str(alloc, "none")?),
    }
}

fn fault(alloc: Global, offset: u32) -> Result<String, Memory> {
    Ok(format!(in alloc; "fault {offset}")?)
}

/// The same in a section beside an image, or its fault.
fn answer_in(alloc: Global, image: &Image<'_>, section: &[u8]) -> Result<String, Unread> {
    if section.len() > 4096 {
        return Err(UNREADABLE);
    }
    match read_frames(alloc, section, image) {
        Ok(table) => Ok(answer_of(alloc, &table)?),
        Err(prof_bytes::Fail::Memory(memory)) => Err(prof_bytes::Fail::Memory(memory)),
        Err(prof_bytes::Fail::Fault(found)) => Ok(fault(alloc, found.offset)?),
    }
}

/// The same in a section beside a file.
fn answer_beside(alloc: Global, file: &[u8], section: &[u8]) -> Result<String, Unread> {
    let image = image_of(alloc, file)?;
    answer_in(alloc, &image, section)
}

/// Whether a section of the program is answered so.
fn section_is_answered(alloc: Global, section: &[u8], wanted: &str) -> Result<bool, Unread> {
    let file = bytes_of(alloc, PROGRAM)?;
    let answer = answer_beside(alloc, &file, section)?;
    Ok(answer.as_str() == wanted)
}

/// Whether the section with these changes is answered so.
fn change_is_answered(
    alloc: Global,
    changes: &[(usize, u8)],
    wanted: &str,
) -> Result<bool, Unread> {
    let section = replaced(alloc, sections::recursive(), changes)?;
    section_is_answered(alloc, &section, wanted)
}

/// The first change that is answered in another way.
fn other_change(alloc: Global) -> Result<Option<&'static str>, Unread> {
    for (name, changes, wanted) in &changes::CHANGES {
        if !change_is_answered(alloc, changes, wanted)? {
            return Ok(Some(name));
        }
    }
    Ok(None)
}

/// Addresses, and how many bytes the rules there are made from: 3 of the CIE and 12 of the FDE.
static BYTES: [(u32, u64); 5] = [
    (0, 0),
    (0x1_000f, 0),
    (0x1_0010, 15),
    (0x1_002f, 15),
    (0x1_0030, 0),
];

/// The first of the addresses whose rules are made from another number of bytes.
fn other_bytes(table: &FrameTable) -> Option<u32> {
    for (pc, bytes) in &BYTES {
        if table.instruction_bytes(*pc) != *bytes {
            return Some(*pc);
        }
    }
    None
}

/// The same in the section of one CIE and one FDE.
fn other_bytes_of_one_entry(alloc: Global) -> Result<Option<u32>, Unread> {
    let table = frames_of(alloc, sections::recursive())?;
    Ok(other_bytes(&table))
}

#[test]
fn faults_by_their_offsets_and_bytes_of_instructions(rt: HostRuntime) -> Result<(), Fail> {
    no_row(other_change(rt.alloc())?)?;
    assert_eq!(rt; other_bytes_of_one_entry(rt.alloc())?, None);
    Ok(())
}
