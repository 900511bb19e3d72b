//! How paths end, and what a caller's registers are. The instructions of the entries are encoded by
//! hand by DWARF 5, section 7.24.
use super::*;
use End::{Partial, Whole};
use PartialCause::{Expression, NoCfa, NoFde, Unmapped};
use cfi_table::{
    DW_CFA_def_cfa, DW_CFA_def_cfa_expression, DW_CFA_expression, DW_CFA_offset, DW_CFA_register,
    DW_CFA_undefined, DW_CFA_val_expression, DW_CFA_val_offset, DW_CIE_ID,
};

/// A CIE with code alignment 1, data alignment -4 and return register x1, with these instructions.
fn put_cie(section: &mut Vec<u8>, instructions: &[u8]) -> Result<(), Memory> {
    let length = u32::try_from(instructions.len()).unwrap_or(0);
    put_u32(section, length.wrapping_add(9))?;
    put_u32(section, DW_CIE_ID)?;
    section.extend_from_slice(&[3, 0, 1, 0x7c, 1])?;
    section.extend_from_slice(instructions)?;
    Ok(())
}

/// An FDE of the CIE at 0, for the addresses from 0x10010 up to 0x10030, without instructions.
fn put_fde(section: &mut Vec<u8>) -> Result<(), Memory> {
    for word in [12, 0, 0x1_0010, 32] {
        put_u32(section, word)?;
    }
    Ok(())
}

/// One CIE with these instructions, and one FDE.
fn section_of(alloc: Global, instructions: &[u8]) -> Result<Vec<u8>, Memory> {
    let mut section = Vec::new(alloc);
    put_cie(&mut section, instructions)?;
    put_fde(&mut section)?;
    Ok(section)
}

/// The path of the instruction at 0x10010 of a file with this section of frames.
fn path_with_section(
    alloc: Global,
    file: &[u8],
    section: &[u8],
    values: &[(usize, u32)],
    words: &[(u32, u32)],
) -> Result<RawPath, Unread> {
    let image = image_of(alloc, file)?;
    path_by_section(alloc, &image, section, 0x1_0010, values, &Words { words })
}

/// The path of the instruction at 0x10010 in the recursion with these call frame instructions.
fn path_by(
    alloc: Global,
    instructions: &[u8],
    values: &[(usize, u32)],
    words: &[(u32, u32)],
) -> Result<RawPath, Unread> {
    let file = bytes_of(alloc, RECURSION)?;
    let section = section_of(alloc, instructions)?;
    path_with_section(alloc, &file, &section, values, words)
}

/// Instructions, and how the path of one frame ends, where x1 is 0x10008 and x2 is 0xf00ffff0.
static ENDS: [(&str, &[u8], End); 17] = [
    (
        "no return address",
        &[DW_CFA_def_cfa, 2, 0, DW_CFA_undefined, 1],
        Whole,
    ),
    (
        "none, before an expression",
        &[DW_CFA_undefined, 1, DW_CFA_expression, 5, 0],
        Whole,
    ),
    ("none, before a missing CFA", &[DW_CFA_undefined, 1], Whole),
    (
        "a CFA of an expression",
        &[DW_CFA_def_cfa_expression, 0],
        Partial(Expression),
    ),
    (
        "x5 is an expression",
        &[DW_CFA_def_cfa, 2, 0, DW_CFA_expression, 5, 0],
        Partial(Expression),
    ),
    (
        "x0 is an expression",
        &[DW_CFA_def_cfa, 2, 0, DW_CFA_expression, 0, 0],
        Partial(Expression),
    ),
    (
        "x2 is an expression",
        &[DW_CFA_def_cfa, 2, 0, DW_CFA_val_expression, 2, 0],
        Partial(Expression),
    ),
    (
        "x31 is an expression",
        &[DW_CFA_def_cfa, 2, 0, DW_CFA_val_expression, 31, 0],
        Partial(Expression),
    ),
    (
        "an expression, before a missing CFA",
        &[DW_CFA_expression, 5, 0],
        Partial(Expression),
    ),
    (
        "an expression, before memory",
        &[
            DW_CFA_def_cfa,
            2,
            0,
            DW_CFA_offset + 5,
            1,
            DW_CFA_expression,
            6,
            0,
        ],
        Partial(Expression),
    ),
    ("no CFA", &[], Partial(NoCfa)),
    (
        "no CFA, before memory",
        &[DW_CFA_offset + 1, 1],
        Partial(NoCfa),
    ),
    (
        "x1 is not in memory",
        &[DW_CFA_def_cfa, 2, 0, DW_CFA_offset + 1, 1],
        Partial(Unmapped),
    ),
    (
        "x0 is not in memory",
        &[DW_CFA_def_cfa, 2, 0, DW_CFA_offset, 1],
        Partial(Unmapped),
    ),
    (
        "x2 is not in memory",
        &[DW_CFA_def_cfa, 2, 0, DW_CFA_offset + 2, 1],
        Partial(Unmapped),
    ),
    (
        "x31 is not in memory",
        &[DW_CFA_def_cfa, 2, 0, DW_CFA_offset + 31, 1],
        Partial(Unmapped),
    ),
    (
        "not in memory, before a return to 0",
        &[
            DW_CFA_def_cfa,
            2,
            0,
            DW_CFA_register,
            1,
            0,
            DW_CFA_offset + 5,
            1,
        ],
        Partial(Unmapped),
    ),
];

/// Whether the path of the instruction at 0x10010 in the recursion with these call frame instructions ends so, and has
/// these frames.
fn path_is(
    alloc: Global,
    instructions: &[u8],
    values: &[(usize, u32)],
    words: &[(u32, u32)],
    end: End,
    pcs: &[u32],
) -> Result<bool, Unread> {
    let path = path_by(alloc, instructions, values, words)?;
    Ok(is_path(&path, end, pcs))
}

/// The first row whose path ends otherwise, or has other frames.
fn other_end(alloc: Global) -> Result<Option<&'static str>, Unread> {
    let values = [(1, 0x1_0008), (2, 0xf00f_fff0)];
    for (name, instructions, end) in &ENDS {
        if !path_is(alloc, instructions, &values, &[], *end, &[0x1_0010])? {
            return Ok(Some(name));
        }
    }
    Ok(None)
}

/// A name, instructions, registers and words of memory; how the path of the instruction at 0x10010 ends, and its
/// frames.
type Caller = (
    &'static str,
    &'static [u8],
    &'static [(usize, u32)],
    &'static [(u32, u32)],
    End,
    &'static [u32],
);

static CALLERS: [Caller; 13] = [
    (
        "x1 keeps its value, and a rule of x40 is passed over",
        &[DW_CFA_def_cfa, 2, 0, DW_CFA_expression, 40, 0],
        &[(1, 0x1_0008)],
        &[],
        Whole,
        &[0x1_0010, 0x1_0004],
    ),
    (
        "the caller has no frame description",
        &[DW_CFA_def_cfa, 2, 0],
        &[(1, 0x1_0034)],
        &[],
        Partial(NoFde),
        &[0x1_0010, 0x1_0030],
    ),
    (
        "a return to 1",
        &[DW_CFA_def_cfa, 2, 0],
        &[(1, 1)],
        &[],
        Partial(NoFde),
        &[0x1_0010, 0xffff_fffd],
    ),
    (
        "a return to 0",
        &[DW_CFA_def_cfa, 2, 0],
        &[],
        &[],
        Whole,
        &[0x1_0010],
    ),
    (
        "a return to a 0 in memory",
        &[DW_CFA_def_cfa, 2, 0, DW_CFA_offset + 1, 1],
        &[(2, 0xf00f_fff0)],
        &[(0xf00f_ffec, 0)],
        Whole,
        &[0x1_0010],
    ),
    (
        "a CFA past 2^32",
        &[DW_CFA_def_cfa, 2, 16, DW_CFA_offset + 1, 1],
        &[(2, 0xffff_fff8)],
        &[(4, 0x1_0008)],
        Whole,
        &[0x1_0010, 0x1_0004],
    ),
    (
        "x1 is 4 below the CFA, which is x8",
        &[DW_CFA_def_cfa, 8, 0, DW_CFA_val_offset, 1, 1],
        &[(8, 0x1_0010)],
        &[],
        Whole,
        &[0x1_0010, 0x1_0008],
    ),
    (
        "x1 is in x5",
        &[DW_CFA_def_cfa, 2, 0, DW_CFA_register, 1, 5],
        &[(1, 0x2_0000), (5, 0x1_0008)],
        &[],
        Whole,
        &[0x1_0010, 0x1_0004],
    ),
    (
        "x5 is not kept, and is 0 in the caller",
        &[
            DW_CFA_def_cfa,
            2,
            0,
            DW_CFA_register,
            1,
            5,
            DW_CFA_undefined,
            5,
        ],
        &[(5, 0x1_0018)],
        &[],
        Whole,
        &[0x1_0010, 0x1_0014],
    ),
    (
        "x0 is 0 in the caller",
        &[DW_CFA_def_cfa, 2, 0, DW_CFA_register, 1, 0],
        &[(0, 0x1_0018)],
        &[],
        Whole,
        &[0x1_0010, 0x1_0014],
    ),
    (
        "x2 is the CFA in the caller",
        &[DW_CFA_def_cfa, 2, 16, DW_CFA_register, 1, 2],
        &[(2, 0x1_0018)],
        &[],
        Partial(NoFde),
        &[0x1_0010, 0x1_0014, 0x1_0024, 0x1_0034],
    ),
    (
        "x2 is the CFA in the caller, also where it is saved",
        &[
            DW_CFA_def_cfa,
            2,
            16,
            DW_CFA_register,
            1,
            2,
            DW_CFA_offset + 2,
            1,
        ],
        &[(2, 0x1_0018)],
        &[(0x1_0024, 7), (0x1_0034, 7), (0x1_0044, 7)],
        Partial(NoFde),
        &[0x1_0010, 0x1_0014, 0x1_0024, 0x1_0034],
    ),
    (
        "x8 is saved, and the caller's CFA is by it",
        &[
            DW_CFA_def_cfa,
            8,
            0,
            DW_CFA_offset + 1,
            1,
            DW_CFA_offset + 8,
            2,
        ],
        &[(8, 0xf00f_ffe0)],
        &[
            (0xf00f_ffdc, 0x1_0018),
            (0xf00f_ffd8, 0xf00f_fff0),
            (0xf00f_ffec, 0x1_0008),
            (0xf00f_ffe8, 0),
        ],
        Whole,
        &[0x1_0010, 0x1_0014, 0x1_0004],
    ),
];

/// The same of callers.
fn other_caller(alloc: Global) -> Result<Option<&'static str>, Unread> {
    for (name, instructions, values, words, end, pcs) in &CALLERS {
        if !path_is(alloc, instructions, values, words, *end, pcs)? {
            return Ok(Some(name));
        }
    }
    Ok(None)
}

/// A path ends by the first test that holds, and a caller has its registers by the rules.
#[test]
fn ends_of_paths_and_registers_of_callers(rt: HostRuntime) -> Result<(), Fail> {
    no_row(other_end(rt.alloc())?)?;
    no_row(other_caller(rt.alloc())?)
}
