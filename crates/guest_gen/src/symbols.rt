//! The symbols and their names.
ghost use Rattle.std.specs.Prelude.{◌≡◌, ◌<◌, ◌≤◌, ◌++◌, IfOk, OnOk, length};
ghost use Rattle.guest_gen.specs.File.{function_name, name_bytes, strtab, symbol_bytes, symtab};
ghost use Rattle.guest_gen.specs.private.Names.{function_names, function_symbols, short_offset, short_symbol};

use crate::code::{ENTRY, FUNCTION_SIZE, FUNCTIONS, function_start};
use crate::put::put_half;
use elf_image::{ELF32_SYM_SIZE, SHN_ABS, STB_GLOBAL, STT_FUNC};
use prof_bytes::{Memory, put_decimal, put_words};
use std::alloc::Global;

/// A global function's symbol.
fn put_symbol(out: &mut Vec<u8>, name: u32, value: u32, size: u32) -> Result<(), Memory>
    ensures { OnOk result (out.new.items ≡ out.old.items ++ symbol_bytes name value size) }
{
    put_words(out, &[name, value, size])?;
    out.push(16 * STB_GLOBAL + STT_FUNC)?;
    out.push(0)?;
    put_half(out, SHN_ABS)
}

/// Where the name of a function begins, whose number has one digit or two.
fn name_offset(number: u32) -> u32
    requires { number < 48 }
    ensures { result ≡ short_offset number }
{
    if number < 10 {
        8 + 3 * number
    } else {
        4 * number - 2
    }
}

fn put_function_symbol(out: &mut Vec<u8>, number: u32) -> Result<(), Memory>
    requires { number < 48 }
    ensures { OnOk result (out.new.items ≡ out.old.items ++ short_symbol number) }
{
    let name = name_offset(number);
    let start = function_start(number);
    put_symbol(out, name, start, FUNCTION_SIZE)?;
    Ok(())
}

/// The symbols of a given number of functions.
fn put_function_symbols(out: &mut Vec<u8>, count: u32) -> Result<(), Memory>
    requires { count ≤ 48 }
    ensures { OnOk result (out.new.items ≡ out.old.items ++ function_symbols count) }
{
    for number in 0..count {
        put_function_symbol(out, number)?;
    }
    Ok(())
}

/// `.symtab`.
#[tactic(auto, using(crate::proofs::Names::symtab_made, crate::proofs::Lengths::symbols_size))]
pub(crate) fn symtab(alloc: Global) -> Result<Vec<u8>, Memory>
    ensures bytes { IfOk result (λ bytes. bytes.items ≡ symtab) }
    ensures size { IfOk result (λ bytes. length bytes.items ≡ 800) }
{
    let mut out = Vec::new(alloc);
    out.extend_from_slice(&[0; ELF32_SYM_SIZE as usize])?;
    put_symbol(&mut out, 1, ENTRY, 16)?;
    put_function_symbols(&mut out, FUNCTIONS)?;
    Ok(out)
}

/// A function's name, and the 0 byte after it.
fn put_function_name(out: &mut Vec<u8>, number: u32) -> Result<(), Memory>
    ensures { OnOk result (out.new.items ≡ out.old.items ++ name_bytes (function_name number)) }
{
    out.push(b'f')?;
    put_decimal(out, u64::from(number))?;
    out.push(0)?;
    Ok(())
}

/// The names of a given number of functions.
fn put_function_names(out: &mut Vec<u8>, count: u32) -> Result<(), Memory>
    ensures { OnOk result (out.new.items ≡ out.old.items ++ function_names count) }
{
    for number in 0..count {
        put_function_name(out, number)?;
    }
    Ok(())
}

/// `.strtab`.
#[tactic(auto, using(crate::proofs::Names::strtab_made, crate::proofs::Lengths::names_size))]
pub(crate) fn strtab(alloc: Global) -> Result<Vec<u8>, Memory>
    ensures bytes { IfOk result (λ bytes. bytes.items ≡ strtab) }
    ensures size { IfOk result (λ bytes. length bytes.items ≡ 190) }
{
    let mut out = Vec::new(alloc);
    out.extend_from_slice(b"\0_start\0")?;
    put_function_names(&mut out, FUNCTIONS)?;
    Ok(out)
}
