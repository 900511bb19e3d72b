//! The identities of items, and their names.
ghost use Rattle.std.specs.Prelude.{◌≡◌, ◌==◌, ◌++◌, ◌∷◌, [], map, find, option_map, option_to_list, IfOk, OnOk};
ghost use Rattle.std.specs.List.Sorted.{IsNonDecreasingBy, IsPermutation};
ghost use Rattle.dwarf_inline.specs.Links.{entry_offset};
ghost use Rattle.dwarf_forms.specs.Sections.{section_text};
ghost use Rattle.dwarf_inline.specs.private.Answers.{AreAnswers};
ghost use Rattle.dwarf_inline.specs.private.Names.{named, paired, pair_of};

use crate::long_entries::LongEntries;
use dwarf_forms::SectionText;
use dwarf_info::Entry;
use prof_bytes::Memory;
use scope_types::limits::MOST_NAME_BYTES;
use std::alloc::Global;

/// The name of a procedure.
#[derive(Clone, Copy, Debug)]
pub(crate) struct ProcName<'a> {
    /// The offset of the procedure's identity in `.debug_info`.
    pub(crate) identity: u32,
    pub(crate) name: SectionText<'a>,
}

/// The identities of items.
#[derive(Drop)]
pub(crate) struct Identities<'a> {
    /// The offset of the identity of each item.
    pub(crate) offsets: Vec<u32>,
    /// The names of those identities that have one.
    pub(crate) names: Vec<ProcName<'a>>,
}

impl<'a> Identities<'a> {
    /// None yet.
    pub(crate) fn new(alloc: Global) -> Identities<'a>
        ensures offsets { result.offsets.items ≡ [] }
        ensures names { result.names.items ≡ [] }
    {
        Identities {
            offsets: Vec::new(alloc),
            names: Vec::new(alloc),
        }
    }
}

/// Appends a name, if there is one.
fn add_name<'a>(
    names: &mut Vec<ProcName<'a>>,
    name: Option<SectionText<'a>>,
    identity: u32,
) -> Result<(), Memory>
    ensures { OnOk result (map pair_of names.new.items ≡ map pair_of names.old.items
        ++ option_to_list (paired identity (option_map section_text name.entry))) }
{
    if let Some(name) = name {
        names.push(ProcName { identity, name })?;
    }
    Ok(())
}

/// The offset of an entry.
fn offset_of(entry: &Entry<'_, '_>) -> u32
    ensures { result ≡ entry_offset entry.now.info entry.now.index }
{
    entry.offset()
}

/// Appends the identity of an item whose entry is at the offset `own`, with its name.
#[inline(always)]
pub(crate) fn add_identity<'i, 'a>(
    identities: &mut Identities<'a>,
    long: &mut LongEntries<'i, 'a>,
    entry: &Entry<'i, 'a>,
    own: u32,
) -> Result<(), Memory>
    requires { AreAnswers entry.now.info long.old.answers }
    ensures answers { IfOk result (λ _. AreAnswers entry.now.info long.new.answers) }
    ensures offsets { OnOk result (identities.new.offsets.items
        ≡ identities.old.offsets.items ++ entry_offset entry.now.info entry.now.index ∷ []) }
    ensures names { OnOk result (map pair_of identities.new.names.items ≡ map pair_of identities.old.names.items
        ++ option_to_list (named entry.now.info entry.now.index (entry_offset entry.now.info entry.now.index))) }
{
    let offset = offset_of(entry);
    identities.offsets.push(offset)?;
    let name = long.name(entry, own);
    add_name(&mut identities.names, name, offset)
}

/// Sorts names by their identities.
pub(crate) fn sort_names(names: &mut Vec<ProcName<'_>>)
    ensures same { IsPermutation names.old.items names.new.items }
    ensures sorted { IsNonDecreasingBy (λ n. n.identity) names.new.items }
{
    names.sort_unstable_by_key(|name| name.identity);
}

/// The name of an identity, by a binary search. No more than `MOST_NAME_BYTES` bytes are looked at.
pub(crate) fn name_in<'a>(names: &[ProcName<'a>], identity: u32) -> Option<&'a [u8]>
    requires { IsNonDecreasingBy (λ n. n.identity) names.now }
    ensures { option_map (λ name. name.now) result
        ≡ option_map (λ p. p.1) (find (λ p. p.0 == identity) (map pair_of names.now)) }
{
    let index = names.partition_point(|name| name.identity < identity);
    match names.get(index) {
        Some(name) if name.identity == identity => Some(name.name.cut(MOST_NAME_BYTES)),
        _ => None,
    }
}
