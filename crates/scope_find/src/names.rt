//! Procedures by the program's function symbols.
ghost use Rattle.std.specs.Prelude.{◌≡◌, ◌==◌, find, IfOk};
ghost use Rattle.std.specs.List.Sorted.{IsNonDecreasingBy};
ghost use Rattle.std.specs.Option.{option_copied};
ghost use Rattle.scope_find.specs.Symbols.{procedure_by_symbol};
ghost use Rattle.scope_find.specs.private.Starts.{AreByStart, name_at_start};

use elf_image::{Function, Image};
use prof_bytes::Memory;
use scope_types::{ProcId, cut_name};
use std::alloc::Global;

/// The function symbols in the order of their starts; those of one start are in symbol order. Takes time n log n.
pub(crate) fn symbols_by_start<'a>(
    alloc: Global,
    image: &Image<'a>,
) -> Result<Vec<Function<'a>>, Memory>
    ensures { IfOk result (λ starts. AreByStart image.now.functions starts.items) }
{
    let functions = image.functions();
    // room: `functions.len()`, each symbol once
    let mut starts = Vec::with_capacity(alloc, functions.len())?;
    starts.extend_from_slice(functions)?;
    starts.sort_by_key(|function| function.start)?;
    Ok(starts)
}

/// The first function symbol that starts at an address.
fn starting<'a, 'f>(starts: &'f [Function<'a>], start: u32) -> Option<&'f Function<'a>>
    requires { IsNonDecreasingBy (λ f. f.start) starts.now }
    ensures { option_copied result ≡ find (λ f. f.start == start) starts.now }
{
    let index = starts.partition_point(|function| function.start < start);
    match starts.get(index) {
        Some(function) if function.start == start => Some(function),
        _ => None,
    }
}

/// The name of a procedure that is known by a symbol. Takes time logarithmic in the number of function symbols.
pub(crate) fn name_at_start<'a>(starts: &[Function<'a>], start: u32) -> &'a [u8]
    requires { IsNonDecreasingBy (λ f. f.start) starts.now }
    ensures { result.now ≡ name_at_start starts.now start }
{
    match starting(starts, start) {
        Some(function) => cut_name(function.name),
        None => b"<unnamed>",
    }
}

/// The procedure at an address, by the first function symbol that holds it.
#[tactic(auto, using(crate::proofs::SymbolsFound::at_steps))]
pub(crate) fn procedure_by_symbol(image: &Image<'_>, pc: u32) -> ProcId
    ensures { result ≡ procedure_by_symbol image.now pc }
{
    match image.function_at(pc) {
        Some(function) => ProcId::Sym(function.start),
        None => ProcId::Nameless,
    }
}
