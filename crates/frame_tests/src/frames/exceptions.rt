//! Frames of `.eh_frame`. Letters and encodings stand here as bytes, and not by the names that `eh_frame` has for them,
//! so that a wrong constant shows.
use super::{PROGRAM, failing};
use cfi_table::FrameTable;
use eh_frame::{EhFault, SectionFault, read_both_frames};
use elf_image::Image;
use prof_bytes::Memory;
use std::alloc::Global;
use std::test::Fail;
use test_programs::program::{UNREADABLE, Unread, image_of};
use test_programs::rows::{bytes_of, no_row, replaced};

mod by_readelf;
mod by_standard;

/// What a section is read as.
pub(super) enum Answer {
    /// The rules from an address up to another, as `10010-10014 2+16 1=c-4`. Nothing after the range means that no FDE
    /// has it.
    Rules(&'static [&'static str]),
    /// The offset of the first fault.
    Fault(u32),
}

/// A row's name, bytes of a section that are others, and the answer.
pub(super) type Row = (&'static str, &'static [(usize, u8)], Answer);

/// No FDE.
const NOTHING: &[&str] = &["10000-10060 "];

/// The one FDE of [`by_hand`], and the first of [`plain`].
const PROCEDURE: &[&str] = &[
    "10000-10010 ",
    "10010-10014 2+0",
    "10014-10018 2+16",
    "10018-10028 2+16 1=c-4",
    "10028-1002c 2+16",
    "1002c-10030 2+0",
    "10030-10060 ",
];

/// The second FDE of [`plain`].
const SECOND: &[&str] = &[
    "10000-10030 ",
    "10030-10034 2+0",
    "10034-10038 2+32",
    "10038-10060 ",
];

/// Both FDEs of [`plain`].
const BOTH: &[&str] = &[
    "10000-10010 ",
    "10010-10014 2+0",
    "10014-10018 2+16",
    "10018-10028 2+16 1=c-4",
    "10028-1002c 2+16",
    "1002c-10030 2+0",
    "10030-10034 2+0",
    "10034-10038 2+32",
    "10038-10060 ",
];

/// A CIE with room in its augmentation data, an FDE, and a terminator.
///
/// The CIE's version stands at 8, its augmentation, `zPR`, at 9, code_alignment_factor at 13, data_alignment_factor
/// at 14, its return address register at 15, and the length of its augmentation data, 10, at 16. Of the data, the
/// encoding of P stands at 17, the pointer at 18, and the encoding of R at 22; four bytes follow that no letter
/// claims, and the instructions at 27. The FDE's length stands at 32, CIE_pointer at 36, initial_location at 40,
/// address_range at 44, the length of its data, 0, at 48, and its instructions from 49 on: advance_loc,
/// def_cfa_offset (50), advance_loc, offset (53), advance_loc, restore (56), advance_loc and def_cfa_offset (58).
fn by_hand() -> &'static [u8] {
    b"\
    1c00000000000000017a505200017c010a1b000000001b000000000c020000001800000024000000e8fffeff20\
    00000000440e1044810150c1440e0000000000"
}

/// A CIE without augmentation, two FDEs, and a terminator.
///
/// The CIE's version stands at 8, its augmentation at 9, and its return address register at 12. Of the FDEs, the
/// lengths stand at 16 and 44, CIE_pointer at 20 and 48, and initial_location at 24 and 52.
fn plain() -> &'static [u8] {
    b"\
    0c000000000000000100017c010c020018000000140000001000010020000000440e1044810150c1440e000010\
    000000300000003000010008000000440e200000000000"
}

/// Whether the answer is that fault of `.eh_frame`.
fn is_fault(answer: &Answer, fault: SectionFault) -> bool {
    match answer {
        Answer::Rules(_) => false,
        Answer::Fault(offset) => fault == SectionFault::EhFrame(EhFault { offset: *offset }),
    }
}

/// Whether the answer is the rules of that table.
fn are_rules(alloc: Global, answer: &Answer, table: &FrameTable) -> Result<bool, Memory> {
    match answer {
        Answer::Rules(rules) => Ok(failing(alloc, table, rules)?.is_none()),
        Answer::Fault(_) => Ok(false),
    }
}

/// Whether a section, whose first byte has the address, is answered so beside an image.
fn is_answered_in(
    alloc: Global,
    image: &Image<'_>,
    section: &[u8],
    address: u32,
    answer: &Answer,
) -> Result<bool, Unread> {
    if section.len() > 4096 {
        return Err(UNREADABLE);
    }
    match read_both_frames(alloc, &[], section, address, image) {
        Ok(table) => Ok(are_rules(alloc, answer, &table)?),
        Err(prof_bytes::Fail::Memory(memory)) => Err(prof_bytes::Fail::Memory(memory)),
        Err(prof_bytes::Fail::Fault(fault)) => Ok(is_fault(answer, fault)),
    }
}

/// The same beside a file.
fn is_answered_beside(
    alloc: Global,
    file: &[u8],
    section: &[u8],
    address: u32,
    answer: &Answer,
) -> Result<bool, Unread> {
    let image = image_of(alloc, file)?;
    is_answered_in(alloc, &image, section, address, answer)
}

/// The same of a section of the program.
fn is_answered(
    alloc: Global,
    section: &[u8],
    address: u32,
    answer: &Answer,
) -> Result<bool, Unread> {
    let file = bytes_of(alloc, PROGRAM)?;
    is_answered_beside(alloc, &file, section, address, answer)
}

/// Whether the section with these changes is answered so.
fn change_is_answered(
    alloc: Global,
    hex: &[u8],
    address: u32,
    changes: &[(usize, u8)],
    answer: &Answer,
) -> Result<bool, Unread> {
    let section = replaced(alloc, hex, changes)?;
    is_answered(alloc, &section, address, answer)
}

/// The first row of a section at an address that is answered in another way.
fn other_row(
    alloc: Global,
    hex: &[u8],
    address: u32,
    rows: &[Row],
) -> Result<Option<&'static str>, Unread> {
    for (name, changes, answer) in rows {
        if !change_is_answered(alloc, hex, address, changes, answer)? {
            return Ok(Some(name));
        }
    }
    Ok(None)
}

/// The first row that is answered in another way than readelf says.
fn other_than_readelf(alloc: Global) -> Result<Option<&'static str>, Unread> {
    let gxx = other_row(alloc, by_readelf::gxx(), 0x1_0200, &by_readelf::GXX)?;
    let fields = other_row(alloc, by_hand(), 0x2_0000, &by_readelf::FIELDS)?;
    let higher = other_row(alloc, by_hand(), 0x2_0004, &by_readelf::HIGHER)?;
    let wrapped = other_row(alloc, by_hand(), 0xffff_fff0, &by_readelf::WRAPPED)?;
    let versions = other_row(alloc, plain(), 0x2_0000, &by_readelf::VERSIONS)?;
    Ok(gxx.or(fields).or(higher).or(wrapped).or(versions))
}

/// The first row that is answered in another way than the standard says.
fn other_than_standard(alloc: Global) -> Result<Option<&'static str>, Unread> {
    let fields = other_row(alloc, by_hand(), 0x2_0000, &by_standard::FIELDS)?;
    let entries = other_row(alloc, plain(), 0x2_0000, &by_standard::ENTRIES)?;
    let unread = other_row(alloc, by_hand(), 0x2_0000, &by_standard::UNREAD)?;
    Ok(fields.or(entries).or(unread))
}

#[test]
fn exception_frames_as_readelf_and_the_standard_say(rt: HostRuntime) -> Result<(), Fail> {
    no_row(other_than_readelf(rt.alloc())?)?;
    no_row(other_than_standard(rt.alloc())?)
}
