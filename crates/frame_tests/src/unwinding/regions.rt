//! Where the first procedure lies, and at how many words of code an unwind rule is made ready. No path depends on the
//! latter, so that no contract speaks of it: it is read of an unwinder's debug text.
use super::*;
use std::fmt::Write;

/// A name, changes of the program, its entry region, and how many words have an unwind rule ready.
static REGIONS: [(&str, &[(usize, u8)], (u32, u32), usize); 11] = [
    (
        "the function symbol that holds the entry",
        &[],
        (0x1_0000, 0x1_0010),
        12,
    ),
    (
        "the entry is not its first address",
        &[(24, 0x0c)],
        (0x1_0000, 0x1_0010),
        12,
    ),
    (
        "the entry is at the next symbol",
        &[(24, 0x10)],
        (0x1_0010, 0x1_0030),
        12,
    ),
    (
        "of two function symbols that hold it the first",
        &[(24, 0x10), (200, 0x30)],
        (0x1_0000, 0x1_0030),
        12,
    ),
    (
        "none holds it: up to the next symbol, which begins before the next FDE",
        &[(204, 0x11), (156, 0x14), (160, 0x1c)],
        (0x1_0000, 0x1_0010),
        12,
    ),
    (
        "no function symbols: up to the next FDE",
        &[(204, 0x11), (220, 0x11), (156, 0x14), (160, 0x1c)],
        (0x1_0000, 0x1_0014),
        12,
    ),
    (
        "an FDE past the segment's end does not count: up to that end",
        &[(204, 0x11), (220, 0x11), (156, 0x14)],
        (0x1_0000, 0x1_0030),
        12,
    ),
    (
        "an FDE that starts at the entry is none above it",
        &[(24, 0x10), (204, 0x11), (220, 0x11)],
        (0x1_0010, 0x1_0030),
        12,
    ),
    (
        "a symbol that starts at the entry is none above it",
        &[(24, 0x14), (216, 0x04)],
        (0x1_0014, 0x1_0030),
        12,
    ),
    (
        "the entry lies in no segment",
        &[(25, 0x01)],
        (0x1_0100, 0x1_0100),
        12,
    ),
    (
        "its segment is not executable",
        &[(76, 4)],
        (0x1_0000, 0x1_0000),
        0,
    ),
];

/// How many words of the code from 0x10000 on have an unwind rule ready, by an unwinder's debug text. Its index has the
/// number of the first word, the address by 4, and the ids of the rules, of which the last number means none.
fn ready_words(text: &str) -> Option<usize> {
    let (_, index) = text.split_once("index: Index { first: ")?;
    let (first, ids) = index.split_once(", ids: [")?;
    let (ids, _) = ids.split_once(']')?;
    let ready = ids
        .split(", ")
        .filter(|id| !id.is_empty() && *id != "4294967295")
        .count();
    if ready > 0 && first != "16384" {
        return None;
    }
    Some(ready)
}

/// The entry region of a program, and how many words have an unwind rule ready.
fn found_by_frames(
    alloc: Global,
    table: &FrameTable,
    image: &Image<'_>,
) -> Result<((u32, u32), Option<usize>), Unread> {
    let unwinder = Unwinder::of(alloc, table, image);
    let text = format!(in alloc; "{unwinder:?}")?;
    Ok((unwinder.entry_region(), ready_words(text.as_str())))
}

/// The same by its image.
fn found_in_image(alloc: Global, image: &Image<'_>) -> Result<((u32, u32), Option<usize>), Unread> {
    let table = table_of(alloc, image.section(b".debug_frame"), image)?;
    found_by_frames(alloc, &table, image)
}

/// The same of a file.
fn found_in(alloc: Global, file: &[u8]) -> Result<((u32, u32), Option<usize>), Unread> {
    let image = image_of(alloc, file)?;
    found_in_image(alloc, &image)
}

/// The same of the program with these changes.
fn found(alloc: Global, changes: &[(usize, u8)]) -> Result<((u32, u32), Option<usize>), Unread> {
    let file = replaced(alloc, RECURSION, changes)?;
    found_in(alloc, &file)
}

/// The first row whose program has another entry region, or another number of words ready.
fn other_region(alloc: Global) -> Result<Option<&'static str>, Unread> {
    for (name, changes, region, ready) in &REGIONS {
        if found(alloc, changes)? != (*region, Some(*ready)) {
            return Ok(Some(name));
        }
    }
    Ok(None)
}

#[test]
fn the_entry_region_and_unwind_rules_that_are_ready(rt: HostRuntime) -> Result<(), Fail> {
    no_row(other_region(rt.alloc())?)
}
