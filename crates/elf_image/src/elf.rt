//! Numbers of the format by the names that the standard gives them: System V ABI, chapters 4 and 5
//! (`elf.h`), and the RISC-V ELF psABI.
ghost use Rattle.std.specs.Prelude.{◌≡◌, ◌<◌, ◌∷◌, []};
ghost use Rattle.elf_image.specs.Headers.{elf32_st_type};
ghost use Rattle.elf_image.specs.Image.{has_flag};

// Offsets of the bytes of `e_ident`, with which the file begins.
pub const EI_MAG0: u32 = 0;

pub const EI_MAG1: u32 = 1;

pub const EI_MAG2: u32 = 2;

pub const EI_MAG3: u32 = 3;

pub const EI_CLASS: u32 = 4;

pub const EI_DATA: u32 = 5;

pub const EI_VERSION: u32 = 6;

// Offsets of the fields of the file's header.
pub const E_TYPE: u32 = 16;

pub const E_MACHINE: u32 = 18;

pub const E_VERSION: u32 = 20;

pub const E_ENTRY: u32 = 24;

pub const E_PHOFF: u32 = 28;

pub const E_SHOFF: u32 = 32;

pub const E_FLAGS: u32 = 36;

pub const E_PHENTSIZE: u32 = 42;

pub const E_PHNUM: u32 = 44;

pub const E_SHENTSIZE: u32 = 46;

pub const E_SHNUM: u32 = 48;

pub const E_SHSTRNDX: u32 = 50;

// Offsets of the fields of a program header.
pub const P_TYPE: u32 = 0;

pub const P_OFFSET: u32 = 4;

pub const P_VADDR: u32 = 8;

pub const P_FILESZ: u32 = 16;

pub const P_MEMSZ: u32 = 20;

pub const P_FLAGS: u32 = 24;

// Offsets of the fields of a section header.
pub const SH_NAME: u32 = 0;

pub const SH_TYPE: u32 = 4;

pub const SH_FLAGS: u32 = 8;

pub const SH_ADDR: u32 = 12;

pub const SH_OFFSET: u32 = 16;

pub const SH_SIZE: u32 = 20;

pub const SH_LINK: u32 = 24;

pub const SH_ENTSIZE: u32 = 36;

// Offsets of the fields of a symbol.
pub const ST_NAME: u32 = 0;

pub const ST_VALUE: u32 = 4;

pub const ST_SIZE: u32 = 8;

pub const ST_INFO: u32 = 12;

pub const ST_SHNDX: u32 = 14;

// How an ELF file begins (`e_ident`).
pub const ELFMAG0: u8 = 0x7f;

pub const ELFMAG1: u8 = b'E';

pub const ELFMAG2: u8 = b'L';

pub const ELFMAG3: u8 = b'F';

// `e_ident`: 32-bit objects, little endian, the current version.
pub const ELFCLASS32: u8 = 1;

pub const ELFDATA2LSB: u8 = 1;

pub const EV_CURRENT: u8 = 1;

/// `e_type`: an executable file.
pub const ET_EXEC: u16 = 2;

/// `e_machine`: RISC-V.
pub const EM_RISCV: u16 = 243;

/// `e_flags`: the program has compressed instructions.
pub const EF_RISCV_RVC: u32 = 1;

// The sizes in bytes of the file's header, a program header, a section header and a symbol.
pub const ELF32_EHDR_SIZE: u32 = 52;

pub const ELF32_PHDR_SIZE: u32 = 32;

pub const ELF32_SHDR_SIZE: u32 = 40;

pub const ELF32_SYM_SIZE: u32 = 16;

/// `p_type`: a segment that is loaded.
pub const PT_LOAD: u32 = 1;

// `p_flags`: a segment's rights to execute, write and read.
pub const PF_X: u32 = 1;

pub const PF_W: u32 = 2;

pub const PF_R: u32 = 4;

// `sh_type`: no section, bytes of the program, a symbol table, a string table, and a section without bytes.
pub const SHT_NULL: u32 = 0;

pub const SHT_PROGBITS: u32 = 1;

pub const SHT_SYMTAB: u32 = 2;

pub const SHT_STRTAB: u32 = 3;

pub const SHT_NOBITS: u32 = 8;

/// `sh_flags`: the section's bytes are compressed.
pub const SHF_COMPRESSED: u32 = 0x800;

/// `st_shndx`: the symbol is undefined; `e_shstrndx`: the sections have no names.
pub const SHN_UNDEF: u16 = 0;

/// `st_shndx`: the symbol's value is an address.
pub const SHN_ABS: u16 = 0xfff1;

/// The high four bits of `st_info`: a global symbol.
pub const STB_GLOBAL: u8 = 1;

/// The low four bits of `st_info`: a function.
pub const STT_FUNC: u8 = 2;

/// The numbers that the definitions cite by their names are those of the standard.
pub fn elf_constant_values()
    ensures ident_offsets { EI_MAG0 ∷ EI_MAG1 ∷ EI_MAG2 ∷ EI_MAG3 ∷ EI_CLASS ∷ EI_DATA ∷ EI_VERSION ∷ []
        ≡ 0 ∷ 1 ∷ 2 ∷ 3 ∷ 4 ∷ 5 ∷ 6 ∷ [] }
    ensures header_offsets { E_TYPE ∷ E_MACHINE ∷ E_VERSION ∷ E_ENTRY ∷ E_PHOFF ∷ E_SHOFF ∷ E_FLAGS ∷ []
        ≡ 16 ∷ 18 ∷ 20 ∷ 24 ∷ 28 ∷ 32 ∷ 36 ∷ [] }
    ensures table_offsets { E_PHENTSIZE ∷ E_PHNUM ∷ E_SHENTSIZE ∷ E_SHNUM ∷ E_SHSTRNDX ∷ []
        ≡ 42 ∷ 44 ∷ 46 ∷ 48 ∷ 50 ∷ [] }
    ensures program_header_offsets { P_TYPE ∷ P_OFFSET ∷ P_VADDR ∷ P_FILESZ ∷ P_MEMSZ ∷ P_FLAGS ∷ []
        ≡ 0 ∷ 4 ∷ 8 ∷ 16 ∷ 20 ∷ 24 ∷ [] }
    ensures section_header_offsets { SH_NAME ∷ SH_TYPE ∷ SH_FLAGS ∷ SH_ADDR ∷ SH_OFFSET ∷ SH_SIZE ∷ SH_LINK
        ∷ SH_ENTSIZE ∷ [] ≡ 0 ∷ 4 ∷ 8 ∷ 12 ∷ 16 ∷ 20 ∷ 24 ∷ 36 ∷ [] }
    ensures symbol_offsets { ST_NAME ∷ ST_VALUE ∷ ST_SIZE ∷ ST_INFO ∷ ST_SHNDX ∷ [] ≡ 0 ∷ 4 ∷ 8 ∷ 12 ∷ 14 ∷ [] }
    ensures ident { ELFMAG0 ∷ ELFMAG1 ∷ ELFMAG2 ∷ ELFMAG3 ∷ ELFCLASS32 ∷ ELFDATA2LSB ∷ EV_CURRENT ∷ []
        ≡ 0x7f ∷ 69 ∷ 76 ∷ 70 ∷ 1 ∷ 1 ∷ 1 ∷ [] }
    ensures header { ET_EXEC ∷ EM_RISCV ∷ EF_RISCV_RVC ∷ SHN_UNDEF ∷ [] ≡ 2 ∷ 243 ∷ 1 ∷ 0 ∷ [] }
    ensures sizes { ELF32_EHDR_SIZE ∷ ELF32_PHDR_SIZE ∷ ELF32_SHDR_SIZE ∷ ELF32_SYM_SIZE ∷ []
        ≡ 52 ∷ 32 ∷ 40 ∷ 16 ∷ [] }
    ensures segments { PT_LOAD ∷ PF_X ∷ PF_W ∷ PF_R ∷ [] ≡ 1 ∷ 1 ∷ 2 ∷ 4 ∷ [] }
    ensures sections { SHT_NULL ∷ SHT_PROGBITS ∷ SHT_SYMTAB ∷ SHT_STRTAB ∷ SHT_NOBITS ∷ SHF_COMPRESSED ∷ []
        ≡ 0 ∷ 1 ∷ 2 ∷ 3 ∷ 8 ∷ 0x800 ∷ [] }
    ensures symbols { SHN_ABS ∷ STB_GLOBAL ∷ STT_FUNC ∷ [] ≡ 0xfff1 ∷ 1 ∷ 2 ∷ [] }
{}

/// The type of a symbol (`ELF32_ST_TYPE`).
pub(crate) fn elf32_st_type(st_info: u8) -> u8
    ensures { result ≡ elf32_st_type st_info }
{
    st_info % 16
}

/// Whether a flag of one bit is set.
pub(crate) fn has_flag(flag: u32, flags: u32) -> bool
    requires { 0 < flag }
    ensures { result ≡ has_flag flag flags }
{
    flags / flag % 2 == 1
}
