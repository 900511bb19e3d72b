//! Files in memory, by name.
ghost use Rattle.std.specs.Prelude.{◌≡◌, None, Some, OnOk, OnErr, position};
ghost use Rattle.std.specs.Option.{option_copied};
ghost use Rattle.prof_devices.specs.Files.{file_bytes, file_of, has_name, Holds};

use prof_bytes::{Memory, Text};
use std::alloc::Global;

/// Where the first file of this name is.
fn index_of(files: &[(Text, Text)], name: &[u8]) -> Option<usize>
    ensures { result ≡ position (has_name name.now) files.now }
{
    files.iter().position(|file| file.0.bytes() == name)
}

pub(crate) fn file_in<'a>(files: &'a [(Text, Text)], name: &[u8]) -> Option<&'a [u8]>
    ensures { option_copied result ≡ file_of files.now name.now }
{
    match index_of(files, name) {
        Some(i) => Some(files[i].1.bytes()),
        None => None,
    }
}

/// The bytes of the file, where a name that no file has is that of an empty one.
pub(crate) fn bytes_in<'a>(files: &'a [(Text, Text)], name: &[u8]) -> &'a [u8]
    ensures { result.now ≡ file_bytes files.now name.now }
{
    match file_in(files, name) {
        Some(bytes) => bytes,
        None => b"",
    }
}

pub(crate) fn write_file(
    alloc: Global,
    files: &mut Vec<(Text, Text)>,
    name: &[u8],
    text: Text,
) -> Result<(), Memory>
    ensures ok { OnOk result (Holds files.old.items files.new.items name.now text) }
    ensures err { OnErr result (files.new.items ≡ files.old.items) }
{
    match index_of(files, name) {
        Some(i) => files[i].1 = text,
        None => files.push((Text::of(alloc, name)?, text))?,
    }
    Ok(())
}
