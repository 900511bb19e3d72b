//! The lines at some addresses, which are looked for together in one table after the other.
ghost use Rattle.std.specs.Prelude.{◌≡◌, All, IfOk, IfSome, List, None, map};
ghost use Rattle.dwarf_line.specs.declared.sequence.Sequence.{Sequence};
ghost use Rattle.dwarf_line.specs.private.Found.{found_after, IsFoundIn};
ghost use Rattle.dwarf_line.specs.private.Unkept.{first_line};

use crate::sequence::Sequence;
use address_ranges::RangeTable;
use prof_bytes::Memory;
use scope_types::LineId;
use std::alloc::Global;

/// An address, and the line in force there in the first of some sequences that holds it; `None` where none does.
#[derive(Clone, Copy)]
pub(crate) struct FoundLine {
    pub(crate) address: u32,
    pub(crate) line: Option<Option<LineId>>,
}

/// The addresses, of which nothing is found yet. Of equal ones that follow one another there is one.
pub(crate) fn wanted(alloc: Global, addresses: &[u32]) -> Result<Vec<FoundLine>, Memory>
    ensures { IfOk result (λ wanted. All (λ f. f.line ≡ None) wanted.items) }
{
    let mut wanted = Vec::new(alloc);
    let mut last = None;
    for address in addresses {
        if last != Some(*address) {
            wanted.push(FoundLine {
                address: *address,
                line: None,
            })?;
            last = Some(*address);
        }
    }
    Ok(wanted)
}

/// The line in force at an address in the first of the sequences that holds it, by binary search.
fn line_of_first(sequences: &RangeTable<Sequence>, pc: u32) -> Option<Option<LineId>>
    ensures { result ≡ first_line pc sequences.now }
{
    match sequences.first(pc) {
        Some(sequence) => Some(sequence.line_at(pc)),
        None => None,
    }
}

/// What is found once these sequences follow.
fn found_after(found: FoundLine, sequences: &RangeTable<Sequence>) -> FoundLine
    ensures { result ≡ found_after sequences.now found }
{
    match found.line {
        Some(_) => found,
        None => FoundLine {
            address: found.address,
            line: line_of_first(sequences, found.address),
        },
    }
}

fn look_up_each(found: &mut [FoundLine], sequences: &RangeTable<Sequence>)
    ensures { found.new ≡ map (found_after sequences.now) found.old }
{
    for line in found.iter_mut() {
        *line = found_after(*line, sequences);
    }
}

/// Looks for the lines at the addresses of which nothing is found yet.
pub(crate) fn look_up(found: &mut Vec<FoundLine>, sequences: &RangeTable<Sequence>)
    ensures { found.new.items ≡ map (found_after sequences.now) found.old.items }
{
    look_up_each(found.as_mut_slice(), sequences);
}

/// What was found at an address, by binary search where the addresses ascend; `None` where nothing is seen of it.
pub(crate) fn line_among(found: &[FoundLine], pc: u32) -> Option<Option<Option<LineId>>>
    ensures { IfSome result (λ line. (sequences : List Sequence)
        → All (IsFoundIn sequences) found.now → line ≡ first_line pc sequences) }
{
    let index = found.partition_point(|line| line.address < pc);
    match found.get(index) {
        Some(line) if line.address == pc => Some(line.line),
        _ => None,
    }
}
