//! The file's own header, and the headers and symbols that it leads to.
ghost use Rattle.std.specs.Prelude.{◌≡◌, ◌+◌, ◌*◌, ◌<◌, ◌≤◌, ◌^◌, IfOk, Ok, length};
ghost use Rattle.prof_bytes.specs.Outcome.{Gives};
ghost use Rattle.elf_image.specs.Headers.{program_header_at, section_header_at, symbol_entry, e_phoff, e_phnum};
ghost use Rattle.elf_image.specs.Headers.{e_shoff};
ghost use Rattle.elf_image.specs.Headers.{e_shnum, e_shstrndx, program_headers, section_headers};
ghost use Rattle.elf_image.specs.Refusals.{not_elf, not_riscv32_exec, compressed_code, header_place};
ghost use Rattle.elf_image.specs.Reading.{checked_header};

use crate::elf::{
    E_FLAGS, E_MACHINE, E_PHENTSIZE, E_PHNUM, E_PHOFF, E_SHENTSIZE, E_SHNUM, E_SHOFF, E_SHSTRNDX,
    E_TYPE, E_VERSION, EF_RISCV_RVC, EI_CLASS, EI_DATA, EI_MAG0, EI_MAG1, EI_MAG2, EI_MAG3,
    EI_VERSION, ELF32_EHDR_SIZE, ELF32_PHDR_SIZE, ELF32_SHDR_SIZE, ELFCLASS32, ELFDATA2LSB,
    ELFMAG0, ELFMAG1, ELFMAG2, ELFMAG3, EM_RISCV, ET_EXEC, EV_CURRENT, P_FILESZ, P_FLAGS, P_MEMSZ,
    P_OFFSET, P_TYPE, P_VADDR, SH_ADDR, SH_ENTSIZE, SH_FLAGS, SH_LINK, SH_NAME, SH_OFFSET, SH_SIZE,
    SH_TYPE, ST_INFO, ST_NAME, ST_SHNDX, ST_SIZE, ST_VALUE, elf32_st_type, has_flag,
};
use crate::fault::{ElfFault, ElfRule, first_of, refuse};
use crate::field::{byte_at, half_at, lies_within, word_at};
use prof_bytes::{Fail, Memory};
use std::alloc::Global;

/// The fields of a program header that are looked at, by their names there, and its offset in the file.
#[derive(Clone, Copy)]
pub(crate) struct ProgramHeader {
    pub(crate) offset: u32,
    pub(crate) p_type: u32,
    pub(crate) p_offset: u32,
    pub(crate) p_vaddr: u32,
    pub(crate) p_filesz: u32,
    pub(crate) p_memsz: u32,
    pub(crate) p_flags: u32,
}

/// The fields of a section header that are looked at, by their names there, and its offset in the file.
#[derive(Clone, Copy)]
pub(crate) struct SectionHeader {
    pub(crate) offset: u32,
    pub(crate) sh_name: u32,
    pub(crate) sh_type: u32,
    pub(crate) sh_flags: u32,
    pub(crate) sh_addr: u32,
    pub(crate) sh_offset: u32,
    pub(crate) sh_size: u32,
    pub(crate) sh_link: u32,
    pub(crate) sh_entsize: u32,
}

/// The fields of a symbol that are looked at, by their names there, and its offset in the file.
#[derive(Clone, Copy)]
pub(crate) struct Symbol {
    pub(crate) offset: u32,
    pub(crate) st_name: u32,
    pub(crate) st_value: u32,
    pub(crate) st_size: u32,
    pub(crate) st_type: u8,
    pub(crate) st_shndx: u16,
}

fn program_header_at(file: &[u8], offset: u32) -> ProgramHeader
    ensures { result ≡ program_header_at file.now offset }
{
    let start = offset as usize;
    ProgramHeader {
        offset,
        p_type: word_at(file, start + P_TYPE as usize),
        p_offset: word_at(file, start + P_OFFSET as usize),
        p_vaddr: word_at(file, start + P_VADDR as usize),
        p_filesz: word_at(file, start + P_FILESZ as usize),
        p_memsz: word_at(file, start + P_MEMSZ as usize),
        p_flags: word_at(file, start + P_FLAGS as usize),
    }
}

fn section_header_at(file: &[u8], offset: u32) -> SectionHeader
    ensures { result ≡ section_header_at file.now offset }
{
    let start = offset as usize;
    SectionHeader {
        offset,
        sh_name: word_at(file, start + SH_NAME as usize),
        sh_type: word_at(file, start + SH_TYPE as usize),
        sh_flags: word_at(file, start + SH_FLAGS as usize),
        sh_addr: word_at(file, start + SH_ADDR as usize),
        sh_offset: word_at(file, start + SH_OFFSET as usize),
        sh_size: word_at(file, start + SH_SIZE as usize),
        sh_link: word_at(file, start + SH_LINK as usize),
        sh_entsize: word_at(file, start + SH_ENTSIZE as usize),
    }
}

pub(crate) fn symbol_entry(file: &[u8], offset: u32) -> Symbol
    ensures { result ≡ symbol_entry file.now offset }
{
    let start = offset as usize;
    Symbol {
        offset,
        st_name: word_at(file, start + ST_NAME as usize),
        st_value: word_at(file, start + ST_VALUE as usize),
        st_size: word_at(file, start + ST_SIZE as usize),
        st_type: elf32_st_type(byte_at(file, start + ST_INFO as usize)),
        st_shndx: half_at(file, start + ST_SHNDX as usize),
    }
}

fn e_phoff(file: &[u8]) -> u32
    ensures { result ≡ e_phoff file.now }
{
    word_at(file, E_PHOFF as usize)
}

fn e_phnum(file: &[u8]) -> u16
    ensures { result ≡ e_phnum file.now }
{
    half_at(file, E_PHNUM as usize)
}

fn e_shoff(file: &[u8]) -> u32
    ensures { result ≡ e_shoff file.now }
{
    word_at(file, E_SHOFF as usize)
}

fn e_shnum(file: &[u8]) -> u16
    ensures { result ≡ e_shnum file.now }
{
    half_at(file, E_SHNUM as usize)
}

/// The index of the section that has the names, and 0 where there is none.
pub(crate) fn e_shstrndx(file: &[u8]) -> u16
    ensures { result ≡ e_shstrndx file.now }
{
    half_at(file, E_SHSTRNDX as usize)
}

#[tactic(auto, unfolding(crate::specs::Refusals::not_elf))]
fn not_elf(file: &[u8]) -> Option<u32>
    requires { length file.now ≤ 2 ^ 26 }
    ensures { result ≡ not_elf file.now }
{
    first_of(&[
        (byte_at(file, EI_MAG0 as usize) != ELFMAG0, EI_MAG0),
        (byte_at(file, EI_MAG1 as usize) != ELFMAG1, EI_MAG1),
        (byte_at(file, EI_MAG2 as usize) != ELFMAG2, EI_MAG2),
        (byte_at(file, EI_MAG3 as usize) != ELFMAG3, EI_MAG3),
        (file.len() < ELF32_EHDR_SIZE as usize, file.len() as u32),
    ])
}

#[tactic(auto, unfolding(crate::specs::Refusals::not_riscv32_exec))]
fn not_riscv32_exec(file: &[u8]) -> Option<u32>
    ensures { result ≡ not_riscv32_exec file.now }
{
    first_of(&[
        (byte_at(file, EI_CLASS as usize) != ELFCLASS32, EI_CLASS),
        (byte_at(file, EI_DATA as usize) != ELFDATA2LSB, EI_DATA),
        (byte_at(file, EI_VERSION as usize) != EV_CURRENT, EI_VERSION),
        (half_at(file, E_TYPE as usize) != ET_EXEC, E_TYPE),
        (half_at(file, E_MACHINE as usize) != EM_RISCV, E_MACHINE),
        (
            word_at(file, E_VERSION as usize) != u32::from(EV_CURRENT),
            E_VERSION,
        ),
    ])
}

#[tactic(auto, unfolding(crate::specs::Refusals::compressed_code))]
fn compressed_code(file: &[u8]) -> Option<u32>
    ensures { result ≡ compressed_code file.now }
{
    first_of(&[(
        has_flag(EF_RISCV_RVC, word_at(file, E_FLAGS as usize)),
        E_FLAGS,
    )])
}

#[tactic(auto, unfolding(crate::specs::Refusals::header_place))]
fn header_place(file: &[u8]) -> Option<u32>
    ensures { result ≡ header_place file.now }
{
    let programs = ELF32_PHDR_SIZE * u32::from(e_phnum(file));
    let sections = ELF32_SHDR_SIZE * u32::from(e_shnum(file));
    first_of(&[
        (
            e_phnum(file) != 0 && u32::from(half_at(file, E_PHENTSIZE as usize)) != ELF32_PHDR_SIZE,
            E_PHENTSIZE,
        ),
        (!lies_within(file, e_phoff(file), programs), E_PHOFF),
        (
            e_shnum(file) != 0 && u32::from(half_at(file, E_SHENTSIZE as usize)) != ELF32_SHDR_SIZE,
            E_SHENTSIZE,
        ),
        (!lies_within(file, e_shoff(file), sections), E_SHOFF),
        (
            e_shnum(file) != 0 && e_shnum(file) <= e_shstrndx(file),
            E_SHSTRNDX,
        ),
    ])
}

/// The tests of the file's own header.
#[tactic(auto, unfolding(crate::specs::Reading::checked_header))]
pub(crate) fn check_header(file: &[u8]) -> Result<(), Fail<ElfFault>>
    requires { length file.now ≤ 2 ^ 26 }
    ensures { Gives (λ done. done) result (checked_header file.now) }
{
    refuse(ElfRule::NotElf, not_elf(file))?;
    refuse(ElfRule::NotRiscv32Exec, not_riscv32_exec(file))?;
    refuse(ElfRule::CompressedCode, compressed_code(file))?;
    refuse(ElfRule::HeaderPlace, header_place(file))
}

#[tactic(auto, unfolding(crate::specs::Headers::program_headers))]
pub(crate) fn program_headers(alloc: Global, file: &[u8]) -> Result<Vec<ProgramHeader>, Memory>
    requires small { length file.now ≤ 2 ^ 26 }
    requires checked { checked_header file.now ≡ Ok tt }
    ensures { IfOk result (λ headers. headers.items ≡ program_headers file.now) }
{
    let first = e_phoff(file);
    let mut headers = Vec::new(alloc);
    for k in 0..u32::from(e_phnum(file)) {
        headers.push(program_header_at(file, first + ELF32_PHDR_SIZE * k))?;
    }
    Ok(headers)
}

#[tactic(auto, unfolding(crate::specs::Headers::section_headers))]
pub(crate) fn section_headers(alloc: Global, file: &[u8]) -> Result<Vec<SectionHeader>, Memory>
    requires small { length file.now ≤ 2 ^ 26 }
    requires checked { checked_header file.now ≡ Ok tt }
    ensures { IfOk result (λ headers. headers.items ≡ section_headers file.now) }
{
    let first = e_shoff(file);
    let mut headers = Vec::new(alloc);
    for k in 0..u32::from(e_shnum(file)) {
        headers.push(section_header_at(file, first + ELF32_SHDR_SIZE * k))?;
    }
    Ok(headers)
}
