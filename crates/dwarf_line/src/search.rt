//! The row in force at an address by the rows of a program one after the other, without a list of them.
ghost use Rattle.std.specs.Prelude.{◌≡◌, ◌<◌, ◌^◌, length};
ghost use Rattle.dwarf_line.specs.Programs.{matrix_from};
ghost use Rattle.dwarf_line.specs.private.Unkept.{no_search, closed, seen, seen_effect, searched};

use crate::code::Segments;
use crate::encoding::LineEncoding;
use crate::fault::LineFault;
use crate::program::{read_opcode, start};
use crate::registers::LineRow;
use crate::rows::{BestRow, NO_ROW, better};
use prof_bytes::Reader;

/// What rows so far say of an address: the first address of the open sequence and its best row, and the best row of the
/// first sequence before that counts and holds the address.
#[derive(Clone, Copy)]
pub(crate) struct RowSearch {
    pub(crate) first: Option<u32>,
    pub(crate) best: BestRow,
    pub(crate) found: Option<BestRow>,
}

/// The best row of the open sequence, which ends here, if the sequence counts and holds the address.
fn closed(segments: &Segments, address: u32, search: RowSearch, end: u32) -> Option<BestRow>
    ensures { result ≡ closed segments.now address search.best end search.first }
{
    match search.first {
        Some(first) => {
            if first <= address && address < end && segments.counts(first, end) {
                return Some(search.best);
            }
            None
        }
        None => None,
    }
}

fn seen(segments: &Segments, address: u32, search: RowSearch, row: LineRow) -> RowSearch
    ensures { result ≡ seen segments.now address search row }
{
    if row.end_sequence {
        return RowSearch {
            first: None,
            best: NO_ROW,
            found: search
                .found
                .or(closed(segments, address, search, row.address)),
        };
    }
    RowSearch {
        first: search.first.or(Some(row.address)),
        best: better(address, search.best, row),
        found: search.found,
    }
}

fn seen_effect(
    segments: &Segments,
    address: u32,
    search: RowSearch,
    row: Option<LineRow>,
) -> RowSearch
    ensures { result ≡ seen_effect segments.now address search row }
{
    match row {
        Some(row) => seen(segments, address, search, row),
        None => search,
    }
}

/// The run that looks for a row.
struct Searched;

/// Runs a program to its end, and looks for the row in force at an address. Takes no memory.
pub(crate) fn search(
    encoding: &LineEncoding<'_>,
    program: &mut Reader<'_, LineFault>,
    segments: &Segments,
    address: u32,
) -> Result<RowSearch, LineFault>
    requires { length program.old.at.whole < 2 ^ 32 }
    ensures { result ≡ searched segments.now address no_search (matrix_from encoding.now program.old) }
{
    let mut found = RowSearch {
        first: None,
        best: NO_ROW,
        found: None,
    };
    let mut registers = start();
    let room = program.left();
    for _ in 0..room {
        if program.left() == 0 {
            return Ok(found);
        }
        let effect = read_opcode::<Searched>(encoding, registers, program)?;
        found = seen_effect(segments, address, found, effect.row);
        registers = effect.registers;
    }
    Ok(found)
}
