//! Ranges of an entry: each range list entry, and each cause by which a list counts as absent. The bytes are put together
//! by hand after DWARF 5, chapter 7.
use super::Case;
use super::Has::{self, Nothing, Ranges};
use super::Part::{self, Addr, Entry, RngLists, Unit};
use dwarf_forms::constants::{
    DW_FORM_addr, DW_FORM_addrx, DW_FORM_addrx1, DW_FORM_addrx2, DW_FORM_data1, DW_FORM_data4,
    DW_FORM_implicit_const, DW_FORM_rnglistx, DW_FORM_sdata, DW_FORM_sec_offset,
};
use dwarf_info::constants::{
    DW_AT_addr_base, DW_AT_high_pc, DW_AT_low_pc, DW_AT_ranges, DW_AT_rnglists_base,
    DW_RLE_base_address, DW_RLE_base_addressx, DW_RLE_end_of_list, DW_RLE_offset_pair,
    DW_RLE_start_end, DW_RLE_start_length, DW_RLE_startx_endx, DW_RLE_startx_length,
};

/// The range from DW_AT_low_pc up to DW_AT_high_pc, which counts where a list doesn't.
const LOW_HIGH: Has = Ranges(&[(0x100, 0x110)]);

/// Attributes and forms of an entry with a range and a list.
const LOW_HIGH_RANGES: &[u64] = &[
    DW_AT_low_pc,
    DW_FORM_addr,
    DW_AT_high_pc,
    DW_FORM_data1,
    DW_AT_ranges,
    DW_FORM_sec_offset,
];

const LOW_HIGH_RNGLISTX: &[u64] = &[
    DW_AT_low_pc,
    DW_FORM_addr,
    DW_AT_high_pc,
    DW_FORM_data1,
    DW_AT_ranges,
    DW_FORM_rnglistx,
];

/// Those of the first entry with the base of `.debug_addr` or `.debug_rnglists`.
const ADDR_BASE: &[u64] = &[DW_AT_addr_base, DW_FORM_sec_offset];

const RNGLISTS_BASE: &[u64] = &[DW_AT_rnglists_base, DW_FORM_sec_offset];

/// The addresses 0x200 and 0x300 from 4 on.
const ADDRESSES: Part = Addr(&[0, 0, 0, 0, 0, 2, 0, 0, 0, 3, 0, 0]);

/// The addresses 0x1000 and 0x2000.
const TWO_ADDRESSES: Part = Addr(&[0, 0x10, 0, 0, 0, 0x20, 0, 0]);

/// From 4 on the offsets 9 and 8 from there, and the lists.
const OFFSETS: Part = RngLists(&[
    &[0, 0, 0, 0],
    &[9, 0, 0, 0],
    &[8, 0, 0, 0],
    &[DW_RLE_start_end, 0x10, 0, 0, 0, 0x20, 0, 0, 0],
    &[DW_RLE_end_of_list],
]);

/// An entry from 0x100 up to 0x110 with the list at the beginning of `.debug_rnglists`.
const ENTRY_AT_0: Part = Entry(LOW_HIGH_RANGES, &[0, 1, 0, 0, 0x10, 0, 0, 0, 0]);

pub(super) static CASES: [Case; 17] = [
    (
        "DW_AT_high_pc as a number",
        &[Entry(
            &[DW_AT_low_pc, DW_FORM_addr, DW_AT_high_pc, DW_FORM_data1],
            &[0, 1, 0, 0, 0x10],
        )],
        LOW_HIGH,
    ),
    (
        "DW_AT_high_pc as an address",
        &[Entry(
            &[DW_AT_low_pc, DW_FORM_addr, DW_AT_high_pc, DW_FORM_addr],
            &[0, 1, 0, 0, 0x20, 1, 0, 0],
        )],
        Ranges(&[(0x100, 0x120)]),
    ),
    (
        "DW_AT_high_pc signed and negative",
        &[Entry(
            &[DW_AT_low_pc, DW_FORM_addr, DW_AT_high_pc, DW_FORM_sdata],
            &[0, 1, 0, 0, 0x7c],
        )],
        Ranges(&[(0x100, 0xfc)]),
    ),
    (
        "sums are modulo 2^32",
        &[Entry(
            &[DW_AT_low_pc, DW_FORM_addr, DW_AT_high_pc, DW_FORM_data4],
            &[0xf0, 0xff, 0xff, 0xff, 0x20, 0, 0, 0],
        )],
        Ranges(&[(0xfffffff0, 0x10)]),
    ),
    (
        "DW_AT_high_pc by DW_FORM_implicit_const",
        &[Entry(
            &[
                DW_AT_low_pc,
                DW_FORM_addr,
                DW_AT_high_pc,
                DW_FORM_implicit_const,
                8,
            ],
            &[0, 1, 0, 0],
        )],
        Ranges(&[(0x100, 0x108)]),
    ),
    (
        "DW_AT_low_pc by DW_FORM_addrx",
        &[
            Unit(ADDR_BASE, &[4, 0, 0, 0]),
            Entry(
                &[DW_AT_low_pc, DW_FORM_addrx, DW_AT_high_pc, DW_FORM_data1],
                &[1, 0x10],
            ),
            ADDRESSES,
        ],
        Ranges(&[(0x300, 0x310)]),
    ),
    (
        "DW_AT_low_pc by DW_FORM_addrx without base",
        &[
            Entry(
                &[DW_AT_low_pc, DW_FORM_addrx1, DW_AT_high_pc, DW_FORM_data1],
                &[1, 0x10],
            ),
            ADDRESSES,
        ],
        Nothing,
    ),
    (
        "DW_AT_low_pc by DW_FORM_addrx past the section",
        &[
            Unit(ADDR_BASE, &[4, 0, 0, 0]),
            Entry(
                &[DW_AT_low_pc, DW_FORM_addrx2, DW_AT_high_pc, DW_FORM_data1],
                &[2, 0, 0x10],
            ),
            ADDRESSES,
        ],
        Nothing,
    ),
    (
        "DW_AT_low_pc alone",
        &[Entry(&[DW_AT_low_pc, DW_FORM_addr], &[0, 1, 0, 0])],
        Nothing,
    ),
    (
        "DW_AT_low_pc of a form that is none of its own",
        &[Entry(
            &[DW_AT_low_pc, DW_FORM_data4, DW_AT_high_pc, DW_FORM_data1],
            &[0, 1, 0, 0, 0x10],
        )],
        Nothing,
    ),
    (
        "DW_RLE_offset_pair from the base of the unit",
        &[
            Unit(&[DW_AT_low_pc, DW_FORM_addr], &[0, 5, 0, 0]),
            ENTRY_AT_0,
            RngLists(&[&[DW_RLE_offset_pair, 2, 6], &[DW_RLE_end_of_list]]),
        ],
        Ranges(&[(0x502, 0x506)]),
    ),
    (
        "an index without base",
        &[
            ENTRY_AT_0,
            TWO_ADDRESSES,
            RngLists(&[&[DW_RLE_startx_length, 1, 8], &[DW_RLE_end_of_list]]),
        ],
        LOW_HIGH,
    ),
    (
        "a list outside the section",
        &[
            Entry(LOW_HIGH_RANGES, &[0, 1, 0, 0, 0x10, 2, 0, 0, 0]),
            RngLists(&[&[DW_RLE_end_of_list]]),
        ],
        LOW_HIGH,
    ),
    (
        "DW_FORM_rnglistx",
        &[
            Unit(RNGLISTS_BASE, &[4, 0, 0, 0]),
            Entry(&[DW_AT_ranges, DW_FORM_rnglistx], &[1]),
            OFFSETS,
        ],
        Ranges(&[(0x10, 0x20)]),
    ),
    (
        "DW_FORM_rnglistx without base",
        &[Entry(LOW_HIGH_RNGLISTX, &[0, 1, 0, 0, 0x10, 1]), OFFSETS],
        LOW_HIGH,
    ),
    (
        "DW_FORM_rnglistx past the section",
        &[
            Unit(RNGLISTS_BASE, &[4, 0, 0, 0]),
            Entry(LOW_HIGH_RNGLISTX, &[0, 1, 0, 0, 0x10, 0xe]),
            OFFSETS,
        ],
        LOW_HIGH,
    ),
    (
        "DW_AT_ranges by a number",
        &[
            Entry(
                &[
                    DW_AT_low_pc,
                    DW_FORM_addr,
                    DW_AT_high_pc,
                    DW_FORM_data1,
                    DW_AT_ranges,
                    DW_FORM_data4,
                ],
                &[0, 1, 0, 0, 0x10, 0, 0, 0, 0],
            ),
            RngLists(&[&[DW_RLE_end_of_list]]),
        ],
        LOW_HIGH,
    ),
];

/// An entry from 0x100 up to 0x110, which has the list at the beginning of `.debug_rnglists`.
pub(super) static AT_START: [Part; 1] = [ENTRY_AT_0];

/// Lists of this entry.
pub(super) static LISTS: [Case; 8] = [
    (
        "DW_RLE_base_address, DW_RLE_offset_pair",
        &[RngLists(&[
            &[DW_RLE_base_address, 0, 4, 0, 0],
            &[DW_RLE_offset_pair, 2, 6],
            &[DW_RLE_end_of_list],
        ])],
        Ranges(&[(0x402, 0x406)]),
    ),
    (
        "DW_RLE_offset_pair from base 0",
        &[RngLists(&[&[DW_RLE_offset_pair, 2, 6], &[DW_RLE_end_of_list]])],
        Ranges(&[(0x2, 0x6)]),
    ),
    (
        "DW_RLE_start_end, DW_RLE_start_length",
        &[RngLists(&[
            &[DW_RLE_start_end, 0x10, 0, 0, 0, 0x20, 0, 0, 0],
            &[DW_RLE_start_length, 0x30, 0, 0, 0, 5],
            &[DW_RLE_end_of_list],
        ])],
        Ranges(&[(0x10, 0x20), (0x30, 0x35)]),
    ),
    (
        "an empty list",
        &[RngLists(&[&[DW_RLE_end_of_list]])],
        Nothing,
    ),
    (
        "an entry above 7",
        &[RngLists(&[
            &[DW_RLE_start_end, 0x10, 0, 0, 0, 0x20, 0, 0, 0],
            &[8],
            &[DW_RLE_end_of_list],
        ])],
        LOW_HIGH,
    ),
    (
        "a list without end",
        &[RngLists(&[&[DW_RLE_start_end, 0x10, 0, 0, 0, 0x20, 0, 0, 0]])],
        LOW_HIGH,
    ),
    (
        "an entry that is not whole",
        &[RngLists(&[&[DW_RLE_start_end, 0x10, 0, 0, 0, 0x20, 0, 0]])],
        LOW_HIGH,
    ),
    (
        "a number too wide",
        &[RngLists(&[
            &[
                DW_RLE_offset_pair,
                0xff,
                0xff,
                0xff,
                0xff,
                0xff,
                0xff,
                0xff,
                0xff,
                0xff,
                2,
                0,
            ],
            &[DW_RLE_end_of_list],
        ])],
        LOW_HIGH,
    ),
];

/// The same where the unit has two addresses, 0x1000 and 0x2000.
pub(super) static WITH_ADDRESSES: [Part; 3] = [
    Unit(ADDR_BASE, &[0, 0, 0, 0]),
    ENTRY_AT_0,
    TWO_ADDRESSES,
];

/// Lists of this entry that name addresses by their indices.
pub(super) static INDEXED_LISTS: [Case; 4] = [
    (
        "DW_RLE_base_addressx",
        &[RngLists(&[
            &[DW_RLE_base_addressx, 1],
            &[DW_RLE_offset_pair, 2, 6],
            &[DW_RLE_end_of_list],
        ])],
        Ranges(&[(0x2002, 0x2006)]),
    ),
    (
        "DW_RLE_startx_endx",
        &[RngLists(&[&[DW_RLE_startx_endx, 0, 1], &[DW_RLE_end_of_list]])],
        Ranges(&[(0x1000, 0x2000)]),
    ),
    (
        "DW_RLE_startx_length",
        &[RngLists(&[&[DW_RLE_startx_length, 1, 8], &[DW_RLE_end_of_list]])],
        Ranges(&[(0x2000, 0x2008)]),
    ),
    (
        "an index past the section",
        &[RngLists(&[&[DW_RLE_startx_length, 2, 8], &[DW_RLE_end_of_list]])],
        LOW_HIGH,
    ),
];
