//! Declarations of entries, and tables of them.
ghost use Rattle.std.specs.Prelude.{◌≡◌, ◌≤◌, ◌<◌, ◌==◌, ℕ, List, drop, find, position, length, option_copied, take};
ghost use Rattle.std.specs.Prelude.{option_map};
ghost use Rattle.std.specs.Prelude.{slice_get, IfOk, IfSome, Some, Ok};
ghost use Rattle.prof_bytes.specs.declared.fail.Fail.TheVariants as fails;
ghost use Rattle.dwarf_forms.specs.Abbreviations.{table_at};
ghost use Rattle.dwarf_forms.specs.Sizes.{fixed_size, in_32_bits, IsFixedFront};
ghost use Rattle.dwarf_forms.specs.private.Indices.{AreKept};

use crate::constants::FEW_ATTRIBUTES;
use crate::first_attributes::{first_among, first_index};
use crate::fronts::{FixedFront, NO_FRONT, front_between};
use crate::sizes::fixed_size;
use crate::spec_index::{SpecIndex, index_for};
use prof_bytes::{Fail, Memory};
use std::alloc::Global;
use std::collections::BTreeMap;
use std::marker::Model;

/// The bytes of an abbreviation table run out before the code 0 that ends it, or a number in it is wider than
/// 64 bits (DWARF 5, section 7.5.3).
#[derive(Clone, Copy, Debug, PartialEq, Eq)]
pub struct BadTable;

impl From<BadTable> for Fail<BadTable> {
    ghost from_gives = { λ fault fail. fail ≡ fails.Fault fault };

    fn from(fault: BadTable) -> Fail<BadTable> {
        Fail::Fault(fault)
    }
}

/// One attribute specification of a declaration (DWARF 5, section 7.5.3).
#[derive(Clone, Copy, Debug, PartialEq, Eq)]
pub struct Spec {
    /// The attribute's code.
    pub attribute: u64,
    /// The form of its value.
    pub form: u64,
    /// The constant of the form `DW_FORM_implicit_const`; 0 for every other form.
    pub implicit: i64,
}

/// The attributes of a declaration, in order. Contracts see them as a list. More than 32 attributes take eight bytes
/// for each beside them, and four for each code of the standard; fewer take a pointer.
#[derive(Debug, Drop)]
pub struct Specs {
    items: Vec<Spec>,
    /// The number of bytes of their values, where their forms fix it.
    size: Option<u32>,
    /// What is kept of them where they are more than a few.
    index: Option<Box<SpecIndex>>,
}

impl Model for Specs {
    ghost use Rattle.std.specs.Prelude.{◌≡◌, IfSome, List};
    ghost use Rattle.dwarf_forms.specs.declared.declaration.Spec.{Spec};
    ghost use Rattle.dwarf_forms.specs.Sizes.{fixed_size, in_32_bits};
    ghost use Rattle.dwarf_forms.specs.private.SpecParts.{IsSpecIndex};

    ghost Value = { List Spec };

    ghost view = { λ specs. specs.items.items };

    ghost invariant = { λ specs. (specs.size ≡ in_32_bits (fixed_size specs.items.items))
        × IfSome specs.index (λ index. IsSpecIndex specs.items.items index.value.fronts.items index.value.firsts.items) };
}

/// The attributes; where they are more than a few, without the room for more of them.
fn without_room(mut items: Vec<Spec>) -> Vec<Spec>
    ensures { result.items ≡ items.items }
{
    if FEW_ATTRIBUTES < items.len() {
        items.shrink_to_fit();
    }
    items
}

impl Specs {
    /// These attributes.
    pub fn from_vec(alloc: Global, items: Vec<Spec>) -> Result<Specs, Memory>
        ensures { IfOk result (λ specs. specs ≡ items.items) }
    {
        let items = without_room(items);
        let size = fixed_size(items.as_slice());
        let index = index_for(alloc, items.as_slice())?;
        Ok(Specs { items, size, index })
    }

    /// The number of bytes of the values of an entry with these attributes, where it is the same for all such entries.
    /// `None` also where it is 2^32 or more.
    pub fn size(&self) -> Option<u32>
        ensures { result ≡ in_32_bits (fixed_size self.now) }
    {
        self.size
    }

    /// Of the attributes from index `from` up to index `to`, the first whose forms fix the sizes of their values: how
    /// many, and the number of bytes of these. Takes a few steps. All of them up to the first other form, where there
    /// are more than 32 attributes and fewer than 2^32 bytes; no clause says so, and each can be read by itself.
    #[tactic(auto, using(crate::proofs::FixedFronts::none_fixed))]
    pub fn fixed_front(&self, from: usize, to: usize) -> FixedFront
        requires from { from ≤ to }
        requires to { to ≤ length self.now }
        ensures { IsFixedFront (drop from (take to self.now)) result }
    {
        match &self.index {
            Some(index) => {
                front_between(index.as_ref().fronts.as_slice(), self.items.len(), from, to)
            }
            None => NO_FRONT,
        }
    }

    /// The index of the first attribute with a code. Takes one step for a code of the standard where there are more
    /// than 32 attributes, and else at most as many steps as there are attributes.
    pub fn index_of(&self, code: u64) -> Option<usize>
        ensures first { result ≡ position (λ spec. spec.attribute == code) self.now }
        ensures within { IfSome result (λ index. index < length self.now) }
    {
        let items = self.items.as_slice();
        match &self.index {
            Some(index) => first_index(items, index.as_ref().firsts.as_slice(), code),
            None => first_among(items, code),
        }
    }

    /// The attributes.
    pub fn as_slice(&self) -> &[Spec]
        ensures { result.now ≡ self.now }
    {
        self.items.as_slice()
    }
}

/// An abbreviation declaration: what an abbreviation table says of one code (DWARF 5, section 7.5.3).
#[derive(Debug, Drop)]
pub struct Abbrev {
    /// Its offset in `.debug_abbrev`.
    pub offset: usize,
    /// The code by which an entry names the declaration, 1 or more.
    pub code: u64,
    /// The tag of such an entry.
    pub tag: u64,
    /// Whether an entry with this declaration has children.
    pub children: bool,
    /// Its attributes.
    pub specs: Specs,
}

/// An abbreviation table (DWARF 5, section 7.5.3): its declarations in order. Contracts see them as a list.
#[derive(Drop)]
pub struct Abbrevs {
    items: Vec<Abbrev>,
    /// How many declarations at the front have the codes 1, 2, 3 and so on.
    numbered: usize,
    /// The index of the first declaration of each code, where not all codes are 1, 2, 3 and so on.
    indices: BTreeMap<u64, usize>,
}

impl Model for Abbrevs {
    ghost use Rattle.std.specs.Prelude.{List};
    ghost use Rattle.dwarf_forms.specs.declared.declaration.Abbrev.{Abbrev};
    ghost use Rattle.dwarf_forms.specs.private.Indices.{AreKept};

    ghost Value = { List Abbrev };

    ghost view = { λ table. table.items.items };

    ghost invariant = { λ table. AreKept table.items.items table.numbered table.indices };
}

fn element(items: &[Abbrev], index: usize) -> Option<&Abbrev>
    ensures { option_copied result ≡ slice_get items.now index }
{
    items.get(index)
}

/// The declarations from an index on.
pub(crate) fn items_from(items: &[Abbrev], count: usize) -> &[Abbrev]
    requires { count ≤ length items.now }
    ensures { result.now ≡ drop count items.now }
{
    &items[count..]
}

/// The index of the declaration at an offset, by binary search.
fn index_at(items: &[Abbrev], offset: usize) -> Option<usize>
    ensures { IfSome result (λ index. option_map (λ d. d.offset) (slice_get items.now index) ≡ Some offset) }
{
    let index = items.partition_point(|declared| declared.offset < offset);
    match items.get(index) {
        Some(declared) if declared.offset == offset => Some(index),
        _ => None,
    }
}

/// The first of some declarations that has a code.
fn first_of(items: &[Abbrev], code: u64) -> Option<&Abbrev>
    ensures { option_copied result ≡ find (λ declared. declared.code == code) items.now }
{
    items.iter().find(|declared| declared.code == code)
}

impl Abbrevs {
    pub(crate) fn of(items: Vec<Abbrev>, numbered: usize, indices: BTreeMap<u64, usize>) -> Abbrevs
        requires { AreKept items.items numbered indices }
        ensures { result ≡ items.items }
    {
        Abbrevs {
            items,
            numbered,
            indices,
        }
    }

    /// Its declarations.
    pub fn as_slice(&self) -> &[Abbrev]
        ensures { result.now ≡ self.now }
    {
        self.items.as_slice()
    }

    /// The index of the first declaration of a code.
    fn index_of(&self, code: u64) -> Option<usize>
        ensures { result ≡ position (λ declared. declared.code == code) self.now }
    {
        if 0 < code && code <= self.numbered as u64 {
            return Some((code - 1) as usize);
        }
        if self.numbered == self.items.len() {
            return None;
        }
        self.indices.get(&code).copied()
    }

    /// The first declaration of a code, in time that does not grow with the table where its codes are 1, 2, 3 and so
    /// on, as compilers write them, and with its logarithm elsewhere.
    pub fn find(&self, code: u64) -> Option<&Abbrev>
        ensures { option_copied result ≡ find (λ declared. declared.code == code) self.now }
    {
        match self.index_of(code) {
            Some(index) => element(self.items.as_slice(), index),
            None => None,
        }
    }

    /// The first declaration of a code among those from an index on. Where the code is also declared before that index,
    /// this looks at each of them.
    fn find_from(&self, from: usize, code: u64) -> Option<&Abbrev>
        requires { from ≤ length self.now }
        ensures { option_copied result ≡ find (λ declared. declared.code == code) (drop from self.now) }
    {
        match self.index_of(code) {
            Some(index) if from <= index => element(self.items.as_slice(), index),
            Some(_) => first_of(items_from(self.items.as_slice(), from), code),
            None => None,
        }
    }

    /// Whether no code is declared twice.
    fn are_distinct(&self) -> bool {
        self.numbered == self.items.len() || self.indices.len() == self.items.len()
    }

    /// The index of the declaration at an offset, counted from another one; `None` also where a code is declared twice.
    fn index_after(&self, from: usize, offset: usize) -> Option<usize>
        requires { from ≤ length self.now }
        ensures { IfSome result (λ index.
            option_map (λ d. d.offset) (slice_get (drop from self.now) index) ≡ Some offset) }
    {
        if self.are_distinct() {
            return index_at(items_from(self.items.as_slice(), from), offset);
        }
        None
    }

    /// The declarations from an index on; none, where they are fewer. Takes no memory.
    #[tactic(auto, using(crate::proofs::Indices::drop_fewer))]
    pub fn from_index(&self, index: usize) -> Declarations<'_>
        ensures { result ≡ drop index self.now }
    {
        let count = self.items.len();
        let from = if index < count { index } else { count };
        Declarations { table: self, from }
    }
}

/// The declarations of a table from one of them on: they are the table at its offset. Contracts see them as a list.
#[derive(Drop)]
pub struct Declarations<'a> {
    table: &'a Abbrevs,
    from: usize,
}

impl<'a> Model for Declarations<'a> {
    ghost use Rattle.std.specs.Prelude.{List, drop, length, ◌≤◌};
    ghost use Rattle.dwarf_forms.specs.declared.declaration.Abbrev.{Abbrev};

    ghost Value = { List Abbrev };

    ghost view = { λ declarations. drop declarations.from declarations.table.now };

    ghost invariant = { λ declarations. declarations.from ≤ length declarations.table.now };
}

impl<'a> Declarations<'a> {
    /// The first declaration of a code, as a table's `find` gives it.
    pub fn find(&self, code: u64) -> Option<&'a Abbrev>
        ensures { option_copied result ≡ find (λ declared. declared.code == code) self.now }
    {
        self.table.find_from(self.from, code)
    }

    /// The index among them of the declaration at an offset of `.debug_abbrev`, from which on they are the table at
    /// that offset. `None` where there is none, or where the table declares a code twice: no clause says so, and
    /// the table at that offset is then read for itself.
    #[tactic(auto, using(crate::proofs::Suffixes::suffix_at))]
    pub fn index_at(&self, offset: u32) -> Option<usize>
        ensures in_range { IfSome result (λ index. index < length self.now) }
        ensures table { (section : List ℕ) (start : ℕ) → table_at section start ≡ Ok self.now
            → IfSome result (λ index. table_at section offset ≡ Ok (drop index self.now)) }
    {
        self.table.index_after(self.from, offset as usize)
    }
}
