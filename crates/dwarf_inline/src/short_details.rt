//! The details of items, in few bytes.
ghost use Rattle.std.specs.Prelude.{◌≡◌, ◌+◌, ◌<◌, ◌^◌, ◌++◌, ◌∷◌, [], length, take, sum_by, slice_index_or, OnOk};
ghost use Rattle.dwarf_inline.specs.private.ShortDetails.{AreFirsts, count_ranges};

use crate::details::Detail;
use crate::short_detail::ShortDetail;
use prof_bytes::Memory;
use std::alloc::Global;
use std::marker::Model;

/// Of one in so many details it is kept how many ranges are before it.
const BLOCK: usize = 4;

/// The details of items. Contracts see their list.
#[derive(Drop)]
pub(crate) struct Details {
    list: Vec<ShortDetail>,
    /// The index of the first range of each `BLOCK`th.
    firsts: Vec<u64>,
}

impl Model for Details {
    ghost use Rattle.std.specs.Prelude.{List};
    ghost use Rattle.dwarf_inline.specs.declared.details.Detail.{Detail};
    ghost use Rattle.dwarf_inline.specs.private.ShortDetails.{AreFirsts, wholes};

    ghost Value = { List Detail };

    ghost view = { λ details. wholes 0 details.list.items };

    ghost invariant = { λ details. AreFirsts details.list.items details.firsts.items };
}

/// How many ranges are before a detail.
#[inline(always)]
fn ranges_before(list: &[ShortDetail], firsts: &[u64], at: usize) -> u64
    requires here { at < length list.now }
    requires firsts { AreFirsts list.now firsts.now }
    ensures { result ≡ count_ranges (take at list.now) }
{
    let block = at / BLOCK;
    let mut index = block * BLOCK;
    let mut count = firsts[block];
    while index < at {
        count += u64::from(list[index].range_count());
        index += 1;
    }
    count
}

/// Appends a detail that has so many ranges before it.
#[inline(always)]
fn push_short(
    list: &mut Vec<ShortDetail>,
    firsts: &mut Vec<u64>,
    first: u64,
    detail: ShortDetail,
) -> Result<(), Memory>
    requires firsts { AreFirsts list.old.items firsts.old.items }
    requires first { first ≡ count_ranges list.old.items }
    requires few { first + detail.range_count < 2 ^ 64 }
    ensures firsts { AreFirsts list.new.items firsts.new.items }
    ensures pushed { OnOk result (list.new.items ≡ list.old.items ++ detail ∷ []) }
{
    if list.len() / BLOCK >= firsts.len() {
        firsts.push(first)?;
    }
    list.push(detail)?;
    Ok(())
}

impl Details {
    /// None.
    pub(crate) fn new(alloc: Global) -> Details
        ensures { result ≡ [] }
    {
        Details {
            list: Vec::new(alloc),
            firsts: Vec::new(alloc),
        }
    }

    /// The number of details.
    pub(crate) fn len(&self) -> usize
        ensures { result ≡ length self.now }
    {
        self.list.len()
    }

    /// The detail with an index.
    #[inline(always)]
    pub(crate) fn get(&self, at: usize) -> Detail
        requires { at < length self.now }
        ensures { result ≡ slice_index_or self.now at result }
    {
        let detail = &self.list[at];
        Detail {
            first_range: ranges_before(self.list.as_slice(), self.firsts.as_slice(), at),
            call: detail.call(),
            range_count: detail.range_count(),
            at: detail.at(),
        }
    }

    /// Appends a detail.
    #[inline(always)]
    pub(crate) fn push(&mut self, detail: Detail) -> Result<(), Memory>
        requires first { detail.first_range ≡ sum_by (λ d. d.range_count) self.old }
        requires few { detail.first_range + detail.range_count < 2 ^ 64 }
        requires small { detail.range_count < 2 ^ 31 }
        ensures { OnOk result (self.new ≡ self.old ++ detail ∷ []) }
    {
        let short = ShortDetail::new(detail.call, detail.range_count, detail.at);
        push_short(&mut self.list, &mut self.firsts, detail.first_range, short)?;
        Ok(())
    }
}
