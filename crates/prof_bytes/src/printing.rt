//! Words, names and addresses as reports print them.
ghost use Rattle.std.specs.Prelude.{◌≡◌, ◌<◌, ◌∷◌, ◌++◌, [], OnOk, OnErr};
ghost use Rattle.prof_bytes.specs.Printing.{address_text, hex_digit, place_text, printed};

use crate::fail::Memory;
use crate::number::put_decimal;

/// Appends the text's bytes. If memory runs out, nothing is appended.
pub fn put_text(out: &mut Vec<u8>, text: &str) -> Result<(), Memory>
    ensures ok { OnOk result (out.new.items ≡ out.old.items ++ text.now) }
    ensures err { OnErr result (out.new.items ≡ out.old.items) }
{
    out.extend_from_slice(text.as_bytes())?;
    Ok(())
}

fn printed_byte(byte: u8) -> u8
    ensures { printed (byte ∷ []) ≡ result ∷ [] }
{
    if byte < 32 || byte == 127 { b'?' } else { byte }
}

fn make_printed(name: &mut [u8])
    ensures { name.new ≡ printed name.old }
{
    for byte in name.iter_mut() {
        *byte = printed_byte(*byte);
    }
}

/// Appends a name as it is printed: bytes below 32 and 127 as a question mark.
pub fn put_printed(out: &mut Vec<u8>, name: &[u8]) -> Result<(), Memory>
    ensures { OnOk result (out.new.items ≡ out.old.items ++ printed name.now) }
{
    let start = out.len();
    out.extend_from_slice(name)?;
    make_printed(&mut out.as_mut_slice()[start..]);
    Ok(())
}

/// Appends a place in a source text: the file's name as it is printed, and the line.
pub fn put_place(out: &mut Vec<u8>, file: &[u8], line: u32) -> Result<(), Memory>
    ensures { OnOk result (out.new.items ≡ out.old.items ++ place_text file.now line) }
{
    put_printed(out, file)?;
    out.extend_from_slice(b":")?;
    put_decimal(out, u64::from(line))
}

/// A digit of base 16, in small letters.
fn digit_byte(digit: u32) -> u8
    requires { digit < 16 }
    ensures { result ≡ hex_digit digit }
{
    let byte = if digit < 10 { 48 + digit } else { 87 + digit };
    byte as u8
}

/// Appends `0x` and the address's eight hexadecimal digits. If memory runs out, nothing is appended.
pub fn put_address(out: &mut Vec<u8>, address: u32) -> Result<(), Memory>
    ensures ok { OnOk result (out.new.items ≡ out.old.items ++ address_text address) }
    ensures err { OnErr result (out.new.items ≡ out.old.items) }
{
    let text = [
        b'0',
        b'x',
        digit_byte(address / 0x1000_0000 % 16),
        digit_byte(address / 0x0100_0000 % 16),
        digit_byte(address / 0x0010_0000 % 16),
        digit_byte(address / 0x0001_0000 % 16),
        digit_byte(address / 0x1000 % 16),
        digit_byte(address / 0x0100 % 16),
        digit_byte(address / 0x0010 % 16),
        digit_byte(address % 16),
    ];
    out.extend_from_slice(&text)?;
    Ok(())
}
