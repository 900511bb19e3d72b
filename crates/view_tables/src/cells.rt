//! The cells of a table's rows.
ghost use Rattle.std.specs.Prelude.{◌≡◌, ◌<◌, ◌≤◌, ◌^◌, ◌++◌, decimal, OnOk};
ghost use Rattle.tree_types.specs.TopDown.{percent, right, spaces};

use itoa::write_digits;
use prof_bytes::Memory;

/// As many blanks as are appended at once.
static BLANKS: [u8; 2048] = [b' '; 2048];

#[tactic(auto, using(crate::proofs::Blanks::blank_steps))]
fn put_few_spaces(out: &mut Vec<u8>, count: usize) -> Result<(), Memory>
    requires { count ≤ 2048 }
    ensures { OnOk result (out.new.items ≡ out.old.items ++ spaces count) }
{
    out.extend_from_slice(&BLANKS[..count])?;
    Ok(())
}

/// Appends a given number of blanks.
#[tactic(auto, using(crate::proofs::Blanks::blank_steps))]
pub fn put_spaces(out: &mut Vec<u8>, count: usize) -> Result<(), Memory>
    ensures { OnOk result (out.new.items ≡ out.old.items ++ spaces count) }
{
    for _ in 0..count / 2048 {
        put_few_spaces(out, 2048)?;
    }
    put_few_spaces(out, count % 2048)
}

/// The cells of values: a value, its share of a total that is not 0, in tenths of a percent and rounded down, another
/// value. No value is above the total.
pub fn put_values(out: &mut Vec<u8>, first: u64, total: u64, third: u64) -> Result<(), Memory>
    requires some { 0 < total }
    requires small { total ≤ 2 ^ 52 }
    requires first { first ≤ total }
    requires third { third ≤ total }
    ensures { OnOk result (out.new.items ≡ out.old.items ++ (right 16 (decimal first) ++ spaces 1
        ++ right 6 (percent first total) ++ spaces 1 ++ right 16 (decimal third))) }
{
    let tenths = first * 1000 / total;
    let mut text = [b' '; 40];
    write_digits(first, &mut text, 16);
    write_digits(tenths / 10, &mut text, 21);
    text[21] = b'.';
    text[22] = b'0' + (tenths % 10) as u8;
    write_digits(third, &mut text, 40);
    out.extend_from_slice(&text)?;
    Ok(())
}
