//! The symbol table, its function symbols, and what is refused there.
ghost use Rattle.std.specs.Prelude.{◌≡◌, ◌+◌, ◌*◌, ◌/◌, ◌<◌, ◌≤◌, ◌^◌, ◌&&◌, ◌==◌, is_none, IfOk};
ghost use Rattle.std.specs.Prelude.{Ok, Some, None, length, map, find, IsTrue, All, AllPairs};
ghost use Rattle.prof_bytes.specs.Outcome.{Gives};
ghost use Rattle.elf_image.specs.Fields.{string_in};
ghost use Rattle.elf_image.specs.Image.{symbol_view, are_apart};
ghost use Rattle.elf_image.specs.Headers.{section_headers, segments, bytes_of_index, symbol_table, symbol_entry};
ghost use Rattle.elf_image.specs.Headers.{is_function, function_symbol, functions_of};
ghost use Rattle.elf_image.specs.Headers.{functions};
ghost use Rattle.elf_image.specs.Refusals.{is_string_table, bad_table, function_with_unterminated_name};
ghost use Rattle.elf_image.specs.Reading.{checked_sections, checked_symbols};
ghost use Rattle.elf_image.specs.private.Checks.{after};

use crate::elf::{ELF32_SYM_SIZE, SHN_UNDEF, SHT_STRTAB, SHT_SYMTAB, STT_FUNC};
use crate::fault::{ElfFault, ElfRule, first_of, refuse};
use crate::header::{SectionHeader, Symbol, symbol_entry};
use crate::part::{Function, Segment};
use crate::section::bytes_of_index;
use crate::segments::counts;
use crate::string_table::StringTable;
use address_ranges::RangeTable;
use prof_bytes::{Fail, Memory};
use std::alloc::Global;

fn first_table(headers: &[SectionHeader]) -> Option<SectionHeader>
    ensures { result ≡ find (λ h. h.sh_type == SHT_SYMTAB) headers.now }
{
    headers.iter().copied().find(|h| h.sh_type == SHT_SYMTAB)
}

#[tactic(auto, unfolding(crate::specs::Headers::symbol_table))]
fn symbol_table(file: &[u8], headers: &[SectionHeader]) -> Option<SectionHeader>
    requires { headers.now ≡ section_headers file.now }
    ensures { result ≡ symbol_table file.now }
{
    first_table(headers)
}

fn is_string_table(headers: &[SectionHeader], index: u32) -> bool
    ensures { result ≡ is_string_table headers.now index }
{
    match headers.get(index as usize) {
        Some(header) => header.sh_type == SHT_STRTAB,
        None => false,
    }
}

#[tactic(auto, unfolding(crate::specs::Refusals::bad_table))]
fn bad_table(file: &[u8], headers: &[SectionHeader], table: &SectionHeader) -> Option<u32>
    requires { headers.now ≡ section_headers file.now }
    ensures { result ≡ bad_table file.now table.now }
{
    first_of(&[
        (table.sh_entsize != ELF32_SYM_SIZE, table.offset),
        (table.sh_size % ELF32_SYM_SIZE != 0, table.offset),
        (!is_string_table(headers, table.sh_link), table.offset),
    ])
}

fn is_function(loaded: &RangeTable<Segment>, symbol: &Symbol) -> bool
    requires { AllPairs (λ s t. IsTrue (are_apart s t)) loaded.now }
    ensures function { result ≡ is_function loaded.now symbol.now }
    ensures fits { IsTrue result → symbol.now.st_value + symbol.now.st_size < 2 ^ 32 }
{
    symbol.st_type == STT_FUNC
        && symbol.st_shndx != SHN_UNDEF
        && counts(
            loaded,
            symbol.st_value,
            u64::from(symbol.st_value) + u64::from(symbol.st_size),
        )
}

fn has_unterminated_function_name(
    loaded: &RangeTable<Segment>,
    names: &StringTable<'_>,
    symbol: &Symbol,
) -> bool
    requires { AllPairs (λ s t. IsTrue (are_apart s t)) loaded.now }
    ensures { result ≡ (is_function loaded.now symbol.now && is_none (string_in names.now symbol.now.st_name)) }
{
    is_function(loaded, symbol) && names.string_at(symbol.st_name).is_none()
}

/// The offset of the first function symbol whose name is unterminated.
#[tactic(auto, unfolding(crate::specs::Refusals::function_with_unterminated_name))]
fn function_with_unterminated_name(
    file: &[u8],
    loaded: &RangeTable<Segment>,
    names: &StringTable<'_>,
    table: &SectionHeader,
) -> Option<u32>
    requires loaded { loaded.now ≡ segments file.now }
    requires apart { AllPairs (λ s t. IsTrue (are_apart s t)) loaded.now }
    requires names { names.now ≡ bytes_of_index file.now table.now.sh_link }
    requires within { 0 < table.now.sh_size → table.now.sh_offset + table.now.sh_size ≤ 2 ^ 26 }
    ensures { result ≡ function_with_unterminated_name file.now table.now }
{
    for k in 0..table.sh_size / ELF32_SYM_SIZE {
        let symbol = symbol_entry(file, table.sh_offset + ELF32_SYM_SIZE * k);
        if has_unterminated_function_name(loaded, names, &symbol) {
            return Some(symbol.offset);
        }
    }
    None
}

#[tactic(auto, unfolding(crate::specs::Reading::checked_symbols))]
fn check_symbols(
    file: &[u8],
    loaded: &RangeTable<Segment>,
    headers: &[SectionHeader],
    names: &StringTable<'_>,
    table: &SectionHeader,
) -> Result<(), Fail<ElfFault>>
    requires loaded { loaded.now ≡ segments file.now }
    requires apart { AllPairs (λ s t. IsTrue (are_apart s t)) loaded.now }
    requires headers { headers.now ≡ section_headers file.now }
    requires names { names.now ≡ bytes_of_index file.now table.now.sh_link }
    requires within { 0 < table.now.sh_size → table.now.sh_offset + table.now.sh_size ≤ 2 ^ 26 }
    ensures { Gives (λ done. done) result (checked_symbols file.now (Some table.now)) }
{
    refuse(ElfRule::SymbolPlace, bad_table(file, headers, table))?;
    refuse(
        ElfRule::SymbolPlace,
        function_with_unterminated_name(file, loaded, names, table),
    )
}

fn function_symbol<'a>(
    file: &[u8],
    names: &StringTable<'a>,
    table: &SectionHeader,
    symbol: &Symbol,
) -> Function<'a>
    requires { names.now ≡ bytes_of_index file.now table.now.sh_link }
    ensures { symbol_view result ≡ function_symbol file.now table.now symbol.now }
{
    Function {
        start: symbol.st_value,
        size: symbol.st_size,
        name: match names.string_at(symbol.st_name) {
            Some(name) => name,
            None => &[],
        },
    }
}

/// The function symbols of the table, in symbol order.
fn functions_of<'a>(
    alloc: Global,
    file: &[u8],
    loaded: &RangeTable<Segment>,
    names: &StringTable<'a>,
    table: &SectionHeader,
) -> Result<Vec<Function<'a>>, Memory>
    requires loaded { loaded.now ≡ segments file.now }
    requires apart { AllPairs (λ s t. IsTrue (are_apart s t)) loaded.now }
    requires names { names.now ≡ bytes_of_index file.now table.now.sh_link }
    requires within { 0 < table.now.sh_size → table.now.sh_offset + table.now.sh_size ≤ 2 ^ 26 }
    ensures functions { IfOk result (λ all. map symbol_view all.items ≡ functions_of file.now (Some table.now)) }
    ensures fit { IfOk result (λ all. All (λ f. f.start + f.size < 2 ^ 32) (map symbol_view all.items)) }
    ensures few { IfOk result (λ all. length all.items < 2 ^ 32) }
{
    let mut all = Vec::new(alloc);
    for k in 0..table.sh_size / ELF32_SYM_SIZE {
        let symbol = symbol_entry(file, table.sh_offset + ELF32_SYM_SIZE * k);
        if is_function(loaded, &symbol) {
            all.push(function_symbol(file, names, table, &symbol))?;
        }
    }
    Ok(all)
}

/// The function symbols of the file, or the first fault of its symbol table.
#[tactic(auto, unfolding(crate::specs::Headers::functions))]
pub(crate) fn read_functions<'a>(
    alloc: Global,
    file: &'a [u8],
    loaded: &RangeTable<Segment>,
    headers: &[SectionHeader],
) -> Result<RangeTable<Function<'a>>, Fail<ElfFault>>
    requires small { length file.now ≤ 2 ^ 26 }
    requires loaded { loaded.now ≡ segments file.now }
    requires apart { AllPairs (λ s t. IsTrue (are_apart s t)) loaded.now }
    requires headers { headers.now ≡ section_headers file.now }
    requires checked { checked_sections file.now ≡ Ok tt }
    ensures fit { IfOk result (λ all. All (λ f. f.start + f.size < 2 ^ 32) (map symbol_view all)) }
    ensures functions { Gives (λ all. map symbol_view all) result
        (after (checked_symbols file.now (symbol_table file.now)) (functions file.now)) }
{
    match symbol_table(file, headers) {
        Some(table) => {
            let names = StringTable::of(
                alloc,
                bytes_of_index(file, headers, table.sh_link as usize),
            )?;
            check_symbols(file, loaded, headers, &names, &table)?;
            let all = functions_of(alloc, file, loaded, &names, &table)?;
            Ok(RangeTable::of(alloc, all)?)
        }
        None => Ok(RangeTable::of(alloc, Vec::new(alloc))?),
    }
}
