//! Storing a file of a folder: whole, or not at all.
use crate::read::ReadStop;
use prof_bytes::Memory;
use std::alloc::Global;
use std::fs::{File, OpenFile, OpenOptions, Permissions};
use std::io::{ErrorKind, Write};
use std::rt::Files;
use std::{fs, io};

/// How many names are tried for a new file.
const MOST_NAMES: u32 = 65_536;

/// What has a name.
#[derive(Drop)]
enum Standing {
    /// A regular file, which these may read and write.
    File(Permissions),
    /// No file.
    Nothing,
    /// A device, a pipe, a symbolic link, or what can't be told.
    Other,
}

fn look_at<R: Files>(rt: &R, name: &str) -> Standing {
    match fs::symlink_metadata(rt, name) {
        Ok(found) if found.is_file() => Standing::File(found.permissions()),
        Err(error) if error.kind() == ErrorKind::NotFound => Standing::Nothing,
        _ => Standing::Other,
    }
}

/// The name of a new file in the folder of another.
fn name_beside(alloc: Global, name: &str, number: u32) -> Result<String, Memory> {
    match name.rsplit_once('/') {
        Some((folder, _)) => Ok(format!(in alloc; "{folder}/.hpc-store-{number}")?),
        None => Ok(format!(in alloc; ".hpc-store-{number}")?),
    }
}

/// Makes a new file in the folder of another, under the first name that no file has.
fn create_beside<R: Files>(
    rt: &R,
    alloc: Global,
    name: &str,
) -> Result<(R::File, String), ReadStop> {
    for number in 0..MOST_NAMES {
        let new_name = name_beside(alloc, name, number)?;
        match File::create_new(rt, new_name.as_str()) {
            Ok(file) => return Ok((file, new_name)),
            Err(error) if error.kind() == ErrorKind::AlreadyExists => {}
            Err(_) => return Err(ReadStop::Failed),
        }
    }
    Err(ReadStop::Failed)
}

/// Gives a file the permissions of the one that it is to replace.
fn permit<F: OpenFile>(file: &F, permissions: Option<Permissions>) -> io::Result<()> {
    let Some(permissions) = permissions else {
        return Ok(());
    };
    if file.metadata()?.permissions() == permissions {
        return Ok(());
    }
    file.set_permissions(permissions)
}

/// Writes a new file to the disk, and gives it its name.
fn write_new<R: Files>(
    rt: &R,
    mut file: R::File,
    new_name: &str,
    name: &str,
    permissions: Option<Permissions>,
    bytes: &[u8],
) -> io::Result<()> {
    permit(&file, permissions)?;
    file.write_all(bytes)?;
    file.sync_all()?;
    drop(file);
    fs::rename(rt, new_name, name)
}

/// Writes a new file beside a name, and puts it in the place of what has the name.
fn replace<R: Files>(
    rt: &R,
    alloc: Global,
    name: &str,
    permissions: Option<Permissions>,
    bytes: &[u8],
) -> Result<(), ReadStop> {
    let (file, new_name) = create_beside(rt, alloc, name)?;
    match write_new(rt, file, new_name.as_str(), name, permissions, bytes) {
        Ok(()) => Ok(()),
        Err(_) => {
            let _ = fs::remove_file(rt, new_name.as_str());
            Err(ReadStop::Failed)
        }
    }
}

/// Replaces a file that may be written.
fn overwrite<R: Files>(
    rt: &R,
    alloc: Global,
    name: &str,
    permissions: Permissions,
    bytes: &[u8],
) -> Result<(), ReadStop> {
    match OpenOptions::new().write(true).open(rt, name) {
        Ok(_) => replace(rt, alloc, name, Some(permissions), bytes),
        Err(_) => Err(ReadStop::Failed),
    }
}

/// Makes these bytes the file of a name. A new file is written in the same folder, brought to the disk, and renamed: so
/// the old file is there until the new one is whole, and after a failure. A device, a pipe, and what a symbolic link
/// leads to is written as it is.
pub(crate) fn store_file<R: Files>(
    rt: &R,
    alloc: Global,
    name: &str,
    bytes: &[u8],
) -> Result<(), ReadStop> {
    match look_at(rt, name) {
        Standing::File(permissions) => overwrite(rt, alloc, name, permissions, bytes),
        Standing::Nothing => replace(rt, alloc, name, None, bytes),
        Standing::Other => match fs::write(rt, name, bytes) {
            Ok(()) => Ok(()),
            Err(_) => Err(ReadStop::Failed),
        },
    }
}
