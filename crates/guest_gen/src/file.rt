//! The program's file.
ghost use Rattle.std.specs.Prelude.{◌≡◌, ◌≤◌, ◌++◌, IfOk, OnOk, length};
ghost use Rattle.std.specs.List.{flat_map};
ghost use Rattle.guest_gen.specs.Frames.{debug_frame};
ghost use Rattle.guest_gen.specs.File.{elf_header, guest_file, program_header, section_header_bytes, guest_section_headers};
ghost use Rattle.guest_gen.specs.File.{frames_at, headers_at, names_at, plain_header, section_names_at};
ghost use Rattle.guest_gen.specs.File.{symbols_at, strtab, symtab};
ghost use Rattle.guest_gen.specs.private.Fits.{AreFew, sized};

use crate::code::ENTRY;
use crate::frames::debug_frame;
use crate::put::put_halves;
use crate::symbols::{strtab, symtab};
use elf_image::{
    ELF32_EHDR_SIZE, ELF32_PHDR_SIZE, ELF32_SHDR_SIZE, ELF32_SYM_SIZE, ELFCLASS32, ELFDATA2LSB,
    ELFMAG0, ELFMAG1, ELFMAG2, ELFMAG3, EM_RISCV, ET_EXEC, EV_CURRENT, PF_R, PF_X, PT_LOAD,
    SHT_PROGBITS, SHT_STRTAB, SHT_SYMTAB,
};
use prof_bytes::{Memory, Text, put_words};
use std::alloc::Global;

/// The sizes in bytes of the code and of the sections, in their order.
#[derive(Clone, Copy)]
pub(crate) struct Sizes {
    pub(crate) code: u32,
    pub(crate) frames: u32,
    pub(crate) symbols: u32,
    pub(crate) names: u32,
    pub(crate) section_names: u32,
}

/// What a section header says; its other fields are 0.
#[derive(Clone, Copy)]
pub(crate) struct SectionHeader {
    pub(crate) sh_name: u32,
    pub(crate) sh_type: u32,
    pub(crate) sh_offset: u32,
    pub(crate) sh_size: u32,
    pub(crate) sh_link: u32,
    pub(crate) sh_info: u32,
    pub(crate) sh_entsize: u32,
}

/// Where the code begins.
const CODE_AT: u32 = ELF32_EHDR_SIZE + ELF32_PHDR_SIZE;

/// `.shstrtab`; its names begin at 1, 14, 22 and 30.
static SECTION_NAMES: [u8; 40] = *b"\0.debug_frame\0.symtab\0.strtab\0.shstrtab\0";

impl Sizes {
    fn frames_at(self) -> u32
        requires { AreFew self }
        ensures { result ≡ frames_at self }
    {
        CODE_AT + self.code
    }

    fn symbols_at(self) -> u32
        requires { AreFew self }
        ensures { result ≡ symbols_at self }
    {
        self.frames_at() + self.frames
    }

    fn names_at(self) -> u32
        requires { AreFew self }
        ensures { result ≡ names_at self }
    {
        self.symbols_at() + self.symbols
    }

    fn section_names_at(self) -> u32
        requires { AreFew self }
        ensures { result ≡ section_names_at self }
    {
        self.names_at() + self.names
    }

    fn headers_at(self) -> u32
        requires { AreFew self }
        ensures { result ≡ headers_at self }
    {
        self.section_names_at() + self.section_names
    }
}

#[tactic(auto, using(crate::proofs::Parts::four_parts), unfolding(crate::specs::File::elf_header))]
fn put_elf_header(out: &mut Vec<u8>, sizes: Sizes) -> Result<(), Memory>
    requires { AreFew sizes }
    ensures { OnOk result (out.new.items ≡ out.old.items ++ elf_header sizes) }
{
    let ident = [
        ELFMAG0,
        ELFMAG1,
        ELFMAG2,
        ELFMAG3,
        ELFCLASS32,
        ELFDATA2LSB,
        EV_CURRENT,
        0,
        0,
        0,
        0,
        0,
        0,
        0,
        0,
        0,
    ];
    out.extend_from_slice(&ident)?;
    put_halves(out, &[ET_EXEC, EM_RISCV])?;
    put_words(
        out,
        &[
            u32::from(EV_CURRENT),
            ENTRY,
            ELF32_EHDR_SIZE,
            sizes.headers_at(),
            0,
        ],
    )?;
    put_halves(
        out,
        &[
            ELF32_EHDR_SIZE as u16,
            ELF32_PHDR_SIZE as u16,
            1,
            ELF32_SHDR_SIZE as u16,
            5,
            4,
        ],
    )?;
    Ok(())
}

#[tactic(auto, unfolding(crate::specs::File::program_header))]
fn put_program_header(out: &mut Vec<u8>, sizes: Sizes) -> Result<(), Memory>
    ensures { OnOk result (out.new.items ≡ out.old.items ++ program_header sizes) }
{
    let size = sizes.code;
    put_words(
        out,
        &[PT_LOAD, CODE_AT, ENTRY, ENTRY, size, size, PF_R + PF_X, 4],
    )
}

#[tactic(auto, unfolding(crate::specs::File::section_header_bytes))]
fn put_section_header(out: &mut Vec<u8>, header: SectionHeader) -> Result<(), Memory>
    ensures { OnOk result (out.new.items ≡ out.old.items ++ section_header_bytes header) }
{
    put_words(
        out,
        &[
            header.sh_name,
            header.sh_type,
            0,
            0,
            header.sh_offset,
            header.sh_size,
            header.sh_link,
            header.sh_info,
            0,
            header.sh_entsize,
        ],
    )
}

fn plain_header(sh_name: u32, sh_type: u32, sh_offset: u32, sh_size: u32) -> SectionHeader
    ensures { result ≡ plain_header sh_name sh_type sh_offset sh_size }
{
    SectionHeader {
        sh_name,
        sh_type,
        sh_offset,
        sh_size,
        sh_link: 0,
        sh_info: 0,
        sh_entsize: 0,
    }
}

fn put_section_headers(out: &mut Vec<u8>, sizes: Sizes) -> Result<(), Memory>
    requires { AreFew sizes }
    ensures { OnOk result (out.new.items
        ≡ out.old.items ++ flat_map section_header_bytes (guest_section_headers sizes)) }
{
    let frames = plain_header(1, SHT_PROGBITS, sizes.frames_at(), sizes.frames);
    let symbols = SectionHeader {
        sh_link: 3,
        sh_info: 1,
        sh_entsize: ELF32_SYM_SIZE,
        ..plain_header(14, SHT_SYMTAB, sizes.symbols_at(), sizes.symbols)
    };
    let names = plain_header(22, SHT_STRTAB, sizes.names_at(), sizes.names);
    let section_names = plain_header(
        30,
        SHT_STRTAB,
        sizes.section_names_at(),
        sizes.section_names,
    );
    put_section_header(out, plain_header(0, 0, 0, 0))?;
    put_section_header(out, frames)?;
    put_section_header(out, symbols)?;
    put_section_header(out, names)?;
    put_section_header(out, section_names)
}

/// The file of these parts, whose sizes are given.
fn spelled(
    alloc: Global,
    code: &[u8],
    frames: &[u8],
    symbols: &[u8],
    names: &[u8],
    sizes: Sizes,
) -> Result<Text, Memory>
    requires few { AreFew sizes }
    requires sizes { sizes ≡ sized code.now frames.now symbols.now names.now }
    requires frames { frames.now ≡ debug_frame }
    requires symbols { symbols.now ≡ symtab }
    requires names { names.now ≡ strtab }
    ensures { IfOk result (λ text. text ≡ guest_file code.now) }
{
    let mut out = Vec::new(alloc);
    put_elf_header(&mut out, sizes)?;
    put_program_header(&mut out, sizes)?;
    out.extend_from_slice(code)?;
    out.extend_from_slice(frames)?;
    out.extend_from_slice(symbols)?;
    out.extend_from_slice(names)?;
    out.extend_from_slice(&SECTION_NAMES)?;
    put_section_headers(&mut out, sizes)?;
    Ok(Text::from_vec(out))
}

/// The file of a program with this code.
pub(crate) fn file(alloc: Global, code: &[u8]) -> Result<Text, Memory>
    requires { length code.now ≤ 65536 }
    ensures { IfOk result (λ text. text ≡ guest_file code.now) }
{
    let frames = debug_frame(alloc)?;
    let symbols = symtab(alloc)?;
    let names = strtab(alloc)?;
    let sizes = Sizes {
        code: code.len() as u32,
        frames: frames.len() as u32,
        symbols: symbols.len() as u32,
        names: names.len() as u32,
        section_names: 40,
    };
    let text = spelled(alloc, code, &frames, &symbols, &names, sizes)?;
    Ok(text)
}
