//! The inlined subroutines that are listed, and those that are open at an item.
ghost use Rattle.std.specs.Prelude.{◌≡◌, ◌+◌, ◌<◌, ◌^◌, ◌++◌, nat_lt, count_by, filter, length, map};
ghost use Rattle.std.specs.Prelude.{slice_get, Some, IfOk, OnOk};
ghost use Rattle.dwarf_inline.specs.Structure.{ProgramStructure, IsWholeStructure};
ghost use Rattle.scope_find.specs.Laws.{item_descendants};
ghost use Rattle.struct_listing.specs.Listing.{is_listed_inline};
ghost use Rattle.struct_listing.specs.private.Opened.{KeepsOpen, IsOpened};
ghost use Rattle.struct_listing.specs.private.Opened.{listed_inlines, listed_of, listed_part};

use dwarf_inline::{Structure, Subroutine};
use prof_bytes::Memory;
use std::alloc::Global;

/// An inlined subroutine that is listed below each subprogram that it is a descendant of.
#[derive(Clone, Copy, Debug)]
pub(crate) struct ListedInline {
    /// The number of its item.
    pub number: u32,
    /// How many inlined subroutines of the program are it, or have it below them.
    pub depth: u32,
}

/// Closes inlined subroutines from the last one on, up to one that ends above a number. Where they nest, those that
/// are left all do. Each is closed once.
fn close_ended(ends: &mut Vec<u32>, number: u32)
    ensures { KeepsOpen number ends.old.items ends.new.items }
{
    let mut kept = ends.len();
    while kept > 0 && ends[kept - 1] <= number {
        kept -= 1;
    }
    ends.truncate(kept);
}

/// Opens the item with a number, where it is an inlined subroutine, by the number at which it ends.
pub(crate) fn open_item(ends: &mut Vec<u32>, number: u32, item: Subroutine) -> Result<(), Memory>
    ensures { OnOk result (IsOpened number item ends.old.items ends.new.items) }
{
    if item.inlined {
        close_ended(ends, number);
        ends.push(item.next_after_subtree)?;
    }
    Ok(())
}

/// How many of these inlined subroutines end above a number.
pub(crate) fn count_open(ends: &[u32], number: u32) -> usize
    ensures { result ≡ count_by (λ end. nat_lt number end) ends.now }
{
    let mut count = 0;
    for end in ends {
        if number < *end {
            count += 1;
        }
    }
    count
}

/// Appends an item, where it is listed as an inlined subroutine.
fn put_listed(
    inlines: &mut Vec<ListedInline>,
    ends: &[u32],
    number: u32,
    item: Subroutine,
) -> Result<(), Memory>
    requires { count_by (λ end. nat_lt number end) ends.now < 2 ^ 32 }
    ensures { OnOk result (inlines.new.items ≡ inlines.old.items
        ++ listed_part (count_by (λ end. nat_lt number end) ends.now) (number, item)) }
{
    if item.inlined && item.range_count > 0 {
        let depth = count_open(ends, number) as u32;
        inlines.push(ListedInline { number, depth })?;
    }
    Ok(())
}

/// The inlined subroutines that are listed, in section order. Takes time linear in the items, and for each of these
/// inlined subroutines in those that it is below.
pub(crate) fn listed_inlines(
    alloc: Global,
    structure: &Structure<'_>,
) -> Result<Vec<ListedInline>, Memory>
    ensures { IfOk result (λ inlines. inlines.items ≡ listed_inlines structure.now) }
{
    let mut inlines = Vec::new(alloc);
    let mut ends = Vec::new(alloc);
    for number in 0..structure.len() {
        let item = structure.subroutine(number);
        open_item(&mut ends, number, item)?;
        put_listed(&mut inlines, ends.as_slice(), number, item)?;
    }
    Ok(inlines)
}

/// Those of the listed inlined subroutines that are descendants of an item. Takes logarithmic time.
pub(crate) fn listed_below(
    inlines: &[ListedInline],
    number: u32,
    item: Subroutine,
) -> &[ListedInline]
    ensures { (s : ProgramStructure) → inlines.now ≡ listed_inlines s
        → result.now ≡ map (listed_of s) (filter is_listed_inline (item_descendants s (number, item))) }
{
    let start = inlines.partition_point(|inline| inline.number <= number);
    let rest = &inlines[start..];
    let count = rest.partition_point(|inline| inline.number < item.next_after_subtree);
    &rest[..count]
}
