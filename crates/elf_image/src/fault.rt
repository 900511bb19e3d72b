ghost use Rattle.std.specs.Prelude.{◌≡◌, find, option_map};
ghost use Rattle.prof_bytes.specs.Outcome.{Gives};
ghost use Rattle.elf_image.specs.Refusals.{first_of};
ghost use Rattle.elf_image.specs.Reading.{refused_at};

use prof_bytes::Fail;

/// What is refused in a file (System V ABI, chapters 4 and 5, and the RISC-V psABI), in the order in which the
/// rules are tried.
#[derive(Clone, Copy, Debug, PartialEq, Eq)]
pub enum ElfRule {
    /// Does not begin with the ELF magic number (`EI_MAG0` to `EI_MAG3`), or is shorter than the file's header.
    NotElf,
    /// Not a 32-bit little-endian RISC-V executable (`EI_CLASS`, `EI_DATA`, `EI_VERSION`, `e_type`,
    /// `e_machine`, `e_version`).
    NotRiscv32Exec,
    /// The code has compressed instructions (`EF_RISCV_RVC` in `e_flags`).
    CompressedCode,
    /// A header table lies outside the file or has the wrong entry size, or the file has sections and
    /// `e_shstrndx` is not the index of one.
    HeaderPlace,
    /// A loaded segment has more bytes in the file than in memory, lies outside the file, overlaps an earlier
    /// one, or reaches into the stacks; the offset is its header's.
    SegmentPlace,
    /// A section's bytes lie outside the file, or its name is unterminated; the offset is its header's.
    SectionPlace,
    /// One of these sections is compressed (`SHF_COMPRESSED`): `.debug_info`, `.debug_abbrev`, `.debug_line`,
    /// `.debug_str`, `.debug_line_str`, `.debug_str_offsets`, `.debug_addr`, `.debug_rnglists`, `.debug_frame`.
    /// The offset is its header's. `.eh_frame` is not tested: it is allocated, and the flag does not apply to
    /// allocated sections.
    CompressedSection,
    /// The symbol table's header is invalid (`sh_entsize`, `sh_size`, `sh_link`), or a function symbol's name is
    /// unterminated; the offset is the header's or the symbol's.
    SymbolPlace,
}

/// A refusal, and the offset in the file, in bytes, of the field, header or symbol that breaks the rule.
#[derive(Clone, Copy, Debug, PartialEq, Eq)]
pub struct ElfFault {
    pub rule: ElfRule,
    pub offset: u32,
}

/// A refusal by the rule, where there is an offset.
pub(crate) fn refuse(rule: ElfRule, offset: Option<u32>) -> Result<(), Fail<ElfFault>>
    ensures { Gives (λ done. done) result (refused_at rule offset) }
{
    match offset {
        Some(offset) => Err(Fail::Fault(ElfFault { rule, offset })),
        None => Ok(()),
    }
}

/// The offset beside the first test that holds.
pub(crate) fn first_of(tests: &[(bool, u32)]) -> Option<u32>
    ensures { result ≡ option_map (λ t. t.1) (find (λ t. t.0) tests.now) }
{
    tests
        .iter()
        .find(|(holds, _)| *holds)
        .map(|(_, offset)| *offset)
}
