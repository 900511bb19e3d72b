//! Files that are refused, by changes of single bytes of programs that are accepted.

/// What a row shows, changes of single bytes of a file, and the answer then: the rule that is broken and the
/// offset of the field, header or symbol that breaks it.
pub(super) type Row = (&'static str, &'static str, &'static str);

/// The file's header, test by test in the order in which they are made.
pub(super) static HEADER_ROWS: [Row; 23] = [
    ("as it is", "", "accepted"),
    ("e_ident without ELFMAG0", "0=0 3=0", "NotElf 0"),
    ("e_ident without ELFMAG1", "1=0 4=2", "NotElf 1"),
    ("e_ident without ELFMAG2", "2=0", "NotElf 2"),
    ("e_ident without ELFMAG3", "3=102", "NotElf 3"),
    ("EI_CLASS, before EI_DATA", "4=2 5=2", "NotRiscv32Exec 4"),
    ("EI_DATA, before e_type", "5=2 16=3", "NotRiscv32Exec 5"),
    ("EI_VERSION", "6=0", "NotRiscv32Exec 6"),
    ("e_type of a shared object", "16=3", "NotRiscv32Exec 16"),
    ("e_type by its high byte", "17=2", "NotRiscv32Exec 16"),
    (
        "e_machine of another processor",
        "18=62",
        "NotRiscv32Exec 18",
    ),
    (
        "e_version, before e_flags",
        "20=0 36=1",
        "NotRiscv32Exec 20",
    ),
    (
        "EF_RISCV_RVC, before e_phentsize",
        "36=1 42=31",
        "CompressedCode 36",
    ),
    (
        "EF_RISCV_RVC with another flag",
        "36=5",
        "CompressedCode 36",
    ),
    ("another flag alone", "36=4", "accepted"),
    (
        "e_phentsize, before e_phoff",
        "42=31 28=255",
        "HeaderPlace 42",
    ),
    (
        "e_phnum 0: size and offset are free",
        "42=31 44=0 31=255",
        "accepted",
    ),
    (
        "e_phnum past the end of the file",
        "44=255 45=255",
        "HeaderPlace 28",
    ),
    (
        "e_phoff past the end of the file",
        "31=255",
        "HeaderPlace 28",
    ),
    ("e_shentsize", "48=1 46=41", "HeaderPlace 46"),
    (
        "e_shoff past the end of the file",
        "48=1 35=255",
        "HeaderPlace 32",
    ),
    (
        "e_shnum 0: size and offset are free",
        "35=255 46=0 50=9",
        "accepted",
    ),
    (
        "p_filesz past the end of the file",
        "68=255 69=255 70=255 71=255",
        "SegmentPlace 52",
    ),
];

/// Segments that take more bytes than addresses, lie outside the file, too high, or over one another. The program
/// headers stand at 52, 84, 116, 148 and 180; in each p_offset is at 4, p_vaddr at 8, p_filesz at 16, p_memsz at 20.
pub(super) static SEGMENT_ROWS: [Row; 16] = [
    ("as they are", "", "accepted"),
    ("p_filesz above p_memsz", "68=9", "SegmentPlace 52"),
    (
        "p_filesz above p_memsz, before shared addresses",
        "196=17 124=7 126=3",
        "SegmentPlace 180",
    ),
    (
        "p_offset past the end of the file",
        "56=255 59=255",
        "SegmentPlace 52",
    ),
    (
        "p_offset of the last header past the end",
        "184=200",
        "SegmentPlace 180",
    ),
    (
        "p_filesz 0: p_offset is free",
        "155=255 123=255 132=0",
        "accepted",
    ),
    (
        "an end right at the stacks",
        "188=240 189=255 190=255 191=239",
        "accepted",
    ),
    (
        "an end one above the stacks",
        "188=241 189=255 190=255 191=239",
        "SegmentPlace 180",
    ),
    (
        "an end past 2^32",
        "188=255 189=255 190=255 191=255",
        "SegmentPlace 180",
    ),
    (
        "last addresses shared with an earlier segment",
        "188=248 189=255 190=0",
        "SegmentPlace 180",
    ),
    (
        "right above an earlier segment",
        "188=240 189=255 190=2",
        "accepted",
    ),
    (
        "first addresses shared with an earlier segment",
        "188=241 189=255 190=2",
        "SegmentPlace 180",
    ),
    (
        "a later header shares addresses with an earlier one",
        "124=7 126=3 190=3",
        "SegmentPlace 116",
    ),
    ("right below another segment", "124=8 126=3", "accepted"),
    (
        "p_memsz of a header that took no memory",
        "168=4 190=3",
        "SegmentPlace 148",
    ),
    (
        "PT_LOAD at a header that was not loaded",
        "84=1",
        "SegmentPlace 84",
    ),
];

/// Sections outside the file, names that do not end, and compressed ones: the nine that are read first. The section
/// headers stand at 202, 242, 282 and 322; in each sh_name is at 0, sh_type at 4, sh_flags at 8, sh_offset at 16,
/// sh_size at 20.
pub(super) static SECTION_ROWS: [Row; 26] = [
    ("compressed .debug_info", "242=1", "CompressedSection 242"),
    (
        "compressed .debug_abbrev",
        "242=13",
        "CompressedSection 242",
    ),
    ("compressed .debug_line", "242=27", "CompressedSection 242"),
    ("compressed .debug_str", "242=39", "CompressedSection 242"),
    (
        "compressed .debug_line_str",
        "242=50",
        "CompressedSection 242",
    ),
    (
        "compressed .debug_str_offsets",
        "242=66",
        "CompressedSection 242",
    ),
    ("compressed .debug_addr", "242=85", "CompressedSection 242"),
    (
        "compressed .debug_rnglists",
        "242=97",
        "CompressedSection 242",
    ),
    (
        "compressed .debug_frame",
        "242=113",
        "CompressedSection 242",
    ),
    (
        "a compressed section of another name",
        "242=126",
        "accepted",
    ),
    (
        "a compressed section of a longer name",
        "242=136",
        "accepted",
    ),
    (
        "a compressed section of a name without its dot",
        "242=2",
        "accepted",
    ),
    ("no SHF_COMPRESSED", "251=0", "accepted"),
    (
        "a compressed section of type SHT_NOBITS",
        "246=8",
        "CompressedSection 242",
    ),
    ("a header of type SHT_NULL", "246=0", "accepted"),
    (
        "sh_size past the end of the file",
        "262=255 263=255 264=255 265=255",
        "SectionPlace 242",
    ),
    (
        "sh_size 0: sh_offset is free",
        "262=0 261=255 251=0",
        "accepted",
    ),
    (
        "the section of names past the end of the file",
        "343=255",
        "SectionPlace 322",
    ),
    (
        "sh_name outside the section of names",
        "243=255",
        "SectionPlace 242",
    ),
    (
        "a name that the end of the section cuts",
        "342=149 242=136",
        "SectionPlace 242",
    ),
    (
        "sh_name of a later header outside",
        "283=255 251=0",
        "SectionPlace 282",
    ),
    (
        "e_shstrndx SHN_UNDEF: all names are empty",
        "50=0",
        "accepted",
    ),
    (
        "names in a header of type SHT_NULL",
        "50=1 246=0",
        "SectionPlace 282",
    ),
    ("names in another section", "50=2", "SectionPlace 242"),
    ("e_shstrndx past the headers", "50=4", "HeaderPlace 50"),
    ("e_shnum 0: e_shstrndx is free", "48=0 50=4", "accepted"),
];

/// The symbol table, and names of function symbols and of others. The symbols stand at 176, 192 (`_start`) and 208
/// (`f`), the header of their table at 354.
pub(super) static SYMBOL_ROWS: [Row; 14] = [
    ("as they are", "", "accepted"),
    (
        "sh_entsize, before names",
        "390=17 192=200",
        "SymbolPlace 354",
    ),
    (
        "sh_size that is no multiple of 16",
        "374=49",
        "SymbolPlace 354",
    ),
    (
        "sh_link to a section of another type",
        "378=1",
        "SymbolPlace 354",
    ),
    ("sh_link past the headers", "378=9", "SymbolPlace 354"),
    (
        "sh_link to the header of type SHT_NULL",
        "378=0",
        "SymbolPlace 354",
    ),
    (
        "the first of two names outside the strings",
        "192=200 208=200",
        "SymbolPlace 192",
    ),
    ("st_name outside the strings", "208=200", "SymbolPlace 208"),
    (
        "a name that the end of the strings cuts",
        "414=9",
        "SymbolPlace 208",
    ),
    (
        "st_name of another type than STT_FUNC is free",
        "208=200 220=17",
        "accepted",
    ),
    (
        "st_name of a symbol with SHN_UNDEF is free",
        "208=200 222=0 223=0",
        "accepted",
    ),
    (
        "st_name of a range past the segment is free",
        "208=200 216=33",
        "accepted",
    ),
    (
        "st_name of an empty range is free",
        "208=200 216=0",
        "accepted",
    ),
    (
        "the first of two symbol tables counts",
        "318=2",
        "SymbolPlace 314",
    ),
];
