//! The cells of a summary's row.
ghost use Rattle.std.specs.Prelude.{◌≡◌, ◌<◌, ◌++◌, codes, decimal, length, OnOk};
ghost use Rattle.tree_types.specs.TopDown.{right, spaces};
ghost use Rattle.prof_stats.specs.StatsTable.{fraction};

use crate::divisor::divisor_of;
use itoa::Buffer;
use prof_bytes::Memory;
use view_tables::put_spaces;

/// Appends a text at the right of a cell of this width.
fn put_right(out: &mut Vec<u8>, width: usize, text: &[u8]) -> Result<(), Memory>
    ensures { OnOk result (out.new.items ≡ out.old.items ++ right width text.now) }
{
    put_spaces(out, width.saturating_sub(text.len()))?;
    out.extend_from_slice(text)?;
    Ok(())
}

/// Appends a number at the right of a cell of this width, and a blank.
pub fn put_number(out: &mut Vec<u8>, width: usize, number: u128) -> Result<(), Memory>
    ensures { OnOk result (out.new.items ≡ out.old.items ++ (right width (decimal number) ++ spaces 1)) }
{
    let mut buffer = Buffer::new();
    put_right(out, width, buffer.format(number).as_bytes())?;
    out.extend_from_slice(b" ")?;
    Ok(())
}

/// Appends two numbers with a slash between at the right of a cell of this width.
fn put_pair(out: &mut Vec<u8>, width: usize, a: u64, b: u64) -> Result<(), Memory>
    ensures { OnOk result (out.new.items ≡ out.old.items ++ right width (decimal a ++ codes "/" ++ decimal b)) }
{
    let mut first = Buffer::new();
    let mut second = Buffer::new();
    let a = first.format(a).as_bytes();
    let b = second.format(b).as_bytes();
    put_spaces(out, width.saturating_sub(a.len() + 1 + b.len()))?;
    out.extend_from_slice(a)?;
    out.extend_from_slice(b"/")?;
    out.extend_from_slice(b)?;
    Ok(())
}

/// Appends one number over another, which is not 0, as a fraction in lowest terms at the right of a cell of this width.
pub fn put_fraction(out: &mut Vec<u8>, width: usize, a: u64, b: u64) -> Result<(), Memory>
    requires { 0 < b }
    ensures { OnOk result (out.new.items ≡ out.old.items ++ right width (fraction a b)) }
{
    let divisor = divisor_of(a, b);
    put_pair(out, width, a / divisor, b / divisor)
}
