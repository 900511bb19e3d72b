//! The call frame information.
ghost use Rattle.std.specs.Prelude.{◌≡◌, ◌<◌, ◌≤◌, ◌++◌, IfOk, OnOk, length};
ghost use Rattle.guest_gen.specs.Frames.{debug_frame, fde, fdes};

use crate::code::{FUNCTION_SIZE, FUNCTIONS, function_start};
use cfi_table::{
    DW_CFA_advance_loc, DW_CFA_def_cfa, DW_CFA_def_cfa_offset, DW_CFA_offset, DW_CFA_restore,
};
use prof_bytes::{Memory, put_words};
use std::alloc::Global;

/// The CIE: its length, `DW_CIE_ID`, version 3, no augmentation, code alignment 1, data alignment -4, the return
/// address in x1, and the CFA.
static CIE: [u8; 16] = [
    12,
    0,
    0,
    0,
    0xff,
    0xff,
    0xff,
    0xff,
    3,
    0,
    1,
    0x7c,
    1,
    DW_CFA_def_cfa,
    2,
    0,
];

/// The call frame instructions of a function.
static FRAME_INSTRUCTIONS: [u8; 16] = [
    DW_CFA_advance_loc + 4,
    DW_CFA_def_cfa_offset,
    16,
    DW_CFA_advance_loc + 4,
    DW_CFA_offset + 1,
    1,
    DW_CFA_advance_loc + 4,
    DW_CFA_offset + 8,
    2,
    DW_CFA_advance_loc + 28,
    DW_CFA_restore + 1,
    DW_CFA_advance_loc + 4,
    DW_CFA_restore + 8,
    DW_CFA_advance_loc + 4,
    DW_CFA_def_cfa_offset,
    0,
];

/// The FDE of a function.
#[tactic(auto, unfolding(crate::specs::Frames::fde))]
fn put_fde(out: &mut Vec<u8>, number: u32) -> Result<(), Memory>
    requires { number < 48 }
    ensures { OnOk result (out.new.items ≡ out.old.items ++ fde number) }
{
    put_words(out, &[28, 0, function_start(number), FUNCTION_SIZE])?;
    out.extend_from_slice(&FRAME_INSTRUCTIONS)?;
    Ok(())
}

/// The FDEs of a given number of functions.
fn put_fdes(out: &mut Vec<u8>, count: u32) -> Result<(), Memory>
    requires { count ≤ 48 }
    ensures { OnOk result (out.new.items ≡ out.old.items ++ fdes count) }
{
    for number in 0..count {
        put_fde(out, number)?;
    }
    Ok(())
}

/// `.debug_frame`.
#[tactic(auto, using(crate::proofs::Lengths::frames_size))]
pub(crate) fn debug_frame(alloc: Global) -> Result<Vec<u8>, Memory>
    ensures bytes { IfOk result (λ bytes. bytes.items ≡ debug_frame) }
    ensures size { IfOk result (λ bytes. length bytes.items ≡ 1552) }
{
    let mut out = Vec::new(alloc);
    out.extend_from_slice(&CIE)?;
    put_fdes(&mut out, FUNCTIONS)?;
    Ok(out)
}
