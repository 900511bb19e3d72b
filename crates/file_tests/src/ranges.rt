use address_ranges::{AddressRange, HasRange, RangeTable};
use prof_bytes::Memory;
use std::alloc::Global;
use std::test::Fail;

/// A range with a name.
#[derive(Clone, Copy)]
struct Named {
    name: &'static str,
    range: AddressRange,
}

impl HasRange for Named {
    ghost range_of = { λ named. named.range };

    fn range(&self) -> AddressRange {
        self.range
    }
}

/// Ranges that overlap, in their order.
static RANGES: [(&str, u32, u64); 6] = [
    ("within another", 20, 30),
    ("around it", 10, 40),
    ("hidden", 15, 25),
    ("empty", 7, 7),
    ("from the lowest address on", 0, 0xffff_ffff),
    ("past 2^32", 0xffff_fff0, 0x1_0000_0010),
];

fn named_ranges(alloc: Global) -> Result<Vec<Named>, Memory> {
    let mut all = Vec::new(alloc);
    for (name, start, end) in &RANGES {
        let range = AddressRange {
            start: *start,
            end: *end,
        };
        all.push(Named { name, range })?;
    }
    Ok(all)
}

fn table_of(alloc: Global) -> Result<RangeTable<Named>, Memory> {
    let all = named_ranges(alloc)?;
    Ok(RangeTable::of(alloc, all)?)
}

/// Addresses, and the first range that holds each.
static HELD: [(u32, &str); 5] = [
    (25, "within another"),
    (30, "around it"),
    (7, "from the lowest address on"),
    (0xffff_fffe, "from the lowest address on"),
    (0xffff_ffff, "past 2^32"),
];

fn other_address(table: &RangeTable<Named>) -> Option<u32> {
    for (address, name) in HELD {
        match table.first(address) {
            Some(found) if found.name == name => {}
            _ => return Some(address),
        }
    }
    None
}

/// Indices of items, and whether each is the first to hold all addresses from 20 up to 30.
static FIRST: [(usize, bool); 2] = [(0, true), (1, false)];

/// The first index of which the table says otherwise.
fn other_index(table: &RangeTable<Named>) -> Option<usize> {
    let part = AddressRange { start: 20, end: 30 };
    for (index, first) in FIRST {
        if table.is_first(part, index) != first {
            return Some(index);
        }
    }
    None
}

/// How many items a table of the ranges has, and the first address and index of which it says otherwise.
fn findings(alloc: Global) -> Result<(usize, Option<u32>, Option<usize>), Memory> {
    let table = table_of(alloc)?;
    let count = table.items().len();
    Ok((count, other_address(&table), other_index(&table)))
}

#[test]
fn the_first_of_many_ranges_that_holds_an_address(rt: HostRuntime) -> Result<(), Fail> {
    assert_eq!(rt; findings(rt.alloc())?, (6, None, None));
    Ok(())
}
