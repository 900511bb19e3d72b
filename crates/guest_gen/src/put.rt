//! What is appended to bytes. Each call's bytes are whole where it succeeds.
ghost use Rattle.std.specs.Prelude.{◌≡◌, ◌++◌, OnOk};
ghost use Rattle.guest_gen.specs.File.{half, halves};

use byteorder::{ByteOrder, LittleEndian};
use prof_bytes::Memory;

pub(crate) fn put_half(out: &mut Vec<u8>, number: u16) -> Result<(), Memory>
    ensures { OnOk result (out.new.items ≡ out.old.items ++ half number) }
{
    let mut bytes = [0; 2];
    LittleEndian::write_u16(&mut bytes, number);
    out.extend_from_slice(&bytes)?;
    Ok(())
}

pub(crate) fn put_halves(out: &mut Vec<u8>, numbers: &[u16]) -> Result<(), Memory>
    ensures { OnOk result (out.new.items ≡ out.old.items ++ halves numbers.now) }
{
    for number in numbers {
        put_half(out, *number)?;
    }
    Ok(())
}
