//! The program's code.
ghost use Rattle.std.specs.Prelude.{◌≡◌, ◌<◌, ◌≤◌, ◌+◌, ◌*◌, ◌++◌, IfOk, OnOk, length};
ghost use Rattle.guest_gen.specs.Draws.{draw_state};
ghost use Rattle.guest_gen.specs.Code.{call_instruction, code, functions_bytes, drawn_function};
ghost use Rattle.guest_gen.specs.Code.{function_start};
ghost use Rattle.guest_gen.specs.Code.{function_words, jal};
ghost use Rattle.prof_bytes.specs.Number.{words};
ghost use Rattle.guest_gen.specs.private.Fits.{IsFurther};

use crate::draws::Draws;
use prof_bytes::{Memory, put_words};
use std::alloc::Global;

/// How many functions there are.
pub(crate) const FUNCTIONS: u32 = 48;

/// Where the program begins, and how many bytes each function has.
pub(crate) const ENTRY: u32 = 0x10000;

pub(crate) const FUNCTION_SIZE: u32 = 52;

/// Where the function of this number begins.
pub(crate) fn function_start(number: u32) -> u32
    requires { number < 1000 }
    ensures { result ≡ function_start number }
{
    0x10010 + FUNCTION_SIZE * number
}

/// `JAL ra, offset`.
fn jal_ra(offset: u32) -> u32
    ensures { result ≡ jal 1 offset }
{
    offset / 0x10_0000 % 2 * 0x8000_0000
        + offset / 2 % 0x400 * 0x20_0000
        + offset / 0x800 % 2 * 0x10_0000
        + offset / 0x1000 % 0x100 * 0x1000
        + 0x80
        + 0x6f
}

/// A call of a function further on, or `NOP` where there is none.
fn call(address: u32, callee: u32) -> u32
    requires few { callee < 1000 }
    requires further { address < function_start callee }
    ensures { result ≡ call_instruction address callee }
{
    if callee < FUNCTIONS {
        jal_ra(function_start(callee) - address)
    } else {
        0x0000_0013
    }
}

/// What a function does: how often it counts, and the numbers of the functions that it calls.
#[derive(Clone, Copy)]
pub(crate) struct DrawnFunction {
    pub(crate) turns: u32,
    pub(crate) first: u32,
    pub(crate) second: u32,
}

#[tactic(auto, unfolding(crate::specs::Draws::draw_state))]
fn drawn_function(draws: &mut Draws, number: u32) -> DrawnFunction
    requires { number < 48 }
    ensures function { result ≡ drawn_function draws.old.state number }
    ensures few { IsFurther number result }
    ensures state { draws.new.state ≡ draw_state 3 draws.old.state }
{
    let turns = 1 + draws.draw() % 31;
    let first = number + 1 + draws.draw() % 3;
    let second = number + 1 + draws.draw() % 5;
    DrawnFunction {
        turns,
        first,
        second,
    }
}

/// The code of a function, with its number.
fn put_code(out: &mut Vec<u8>, number: u32, function: DrawnFunction) -> Result<(), Memory>
    requires number { number < 48 }
    requires few { IsFurther number function }
    ensures { OnOk result (out.new.items ≡ out.old.items ++ words (function_words number function)) }
{
    let start = function_start(number);
    let turns = 0x0000_0413 + function.turns * 0x10_0000;
    let first = call(start + 28, function.first);
    let second = call(start + 32, function.second);
    put_words(
        out,
        &[
            0xff01_0113,
            0x0011_2623,
            0x0081_2423,
            turns,
            0x0017_8793,
            0xfff4_0413,
            0xfe04_1ce3,
            first,
            second,
            0x00c1_2083,
            0x0081_2403,
            0x0101_0113,
            0x0000_8067,
        ],
    )?;
    Ok(())
}

/// A function, with its number.
fn put_function(out: &mut Vec<u8>, draws: &mut Draws, number: u32) -> Result<(), Memory>
    requires { number < 48 }
    ensures code { OnOk result (out.new.items
        ≡ out.old.items ++ words (function_words number (drawn_function draws.old.state number))) }
    ensures state { OnOk result (draws.new.state ≡ draw_state 3 draws.old.state) }
{
    let function = drawn_function(draws, number);
    put_code(out, number, function)?;
    Ok(())
}

/// So many functions.
fn put_functions(out: &mut Vec<u8>, draws: &mut Draws, count: u32) -> Result<(), Memory>
    requires { count ≤ 48 }
    ensures code { OnOk result (out.new.items ≡ out.old.items ++ functions_bytes draws.old.state count) }
    ensures state { OnOk result (draws.new.state ≡ draw_state (3 * count) draws.old.state) }
{
    for number in 0..count {
        put_function(out, draws, number)?;
    }
    Ok(())
}

/// The program's code.
#[tactic(auto, using(crate::proofs::Lengths::code_size))]
pub(crate) fn code(alloc: Global, draws: &mut Draws) -> Result<Vec<u8>, Memory>
    ensures code { IfOk result (λ bytes. bytes.items ≡ code draws.old.state) }
    ensures state { OnOk result (draws.new.state ≡ draw_state (3 * 48) draws.old.state) }
    ensures size { IfOk result (λ bytes. length bytes.items ≡ 2512) }
{
    let mut out = Vec::new(alloc);
    put_words(
        &mut out,
        &[0x0100_00ef, 0xffdf_f06f, 0x0010_0073, 0x0010_0073],
    )?;
    put_functions(&mut out, draws, FUNCTIONS)?;
    Ok(out)
}
