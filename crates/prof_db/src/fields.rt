//! The single fields of a database.
ghost use Rattle.std.specs.Prelude.{◌≡◌};
ghost use Rattle.prof_bytes.specs.Outcome.{GivesAt, GivesFrom};
ghost use Rattle.prof_db.specs.Fields.{bytes_field, fault, number_field, word_field};
ghost use Rattle.prof_db.specs.Layout.{stored_text_from};

use crate::fault::DbFault;
use prof_bytes::{Cursor, Fail, Text};
use std::alloc::Global;

pub(crate) fn fault_at(rule: u32, offset: u64) -> DbFault
    ensures { result ≡ fault rule offset }
{
    DbFault { offset, rule }
}

/// What begins there is not whole, or no part of the format.
pub(crate) fn not_whole(offset: usize) -> DbFault
    ensures { result ≡ fault 2 offset }
{
    fault_at(2, offset as u64)
}

pub(crate) fn read_word(cursor: &mut Cursor<'_>) -> Result<u32, DbFault>
    ensures { GivesAt (λ n. n) result cursor.new (word_field cursor.old) }
{
    let offset = cursor.place();
    match cursor.u32() {
        Some(number) => Ok(number),
        None => Err(not_whole(offset)),
    }
}

pub(crate) fn read_long(cursor: &mut Cursor<'_>) -> Result<u64, DbFault>
    ensures { GivesAt (λ n. n) result cursor.new (number_field 8 cursor.old) }
{
    let offset = cursor.place();
    match cursor.u64() {
        Some(number) => Ok(number),
        None => Err(not_whole(offset)),
    }
}

fn read_bytes<'a>(cursor: &mut Cursor<'a>, count: u32) -> Result<&'a [u8], DbFault>
    ensures { GivesAt (λ bytes. bytes.now) result cursor.new (bytes_field count cursor.old) }
{
    let offset = cursor.place();
    match cursor.take(count as usize) {
        Some(bytes) => Ok(bytes),
        None => Err(not_whole(offset)),
    }
}

#[tactic(auto, unfolding(crate::specs::Layout::stored_text_from))]
pub(crate) fn read_text(alloc: Global, cursor: &mut Cursor<'_>) -> Result<Text, Fail<DbFault>>
    ensures { GivesFrom (λ text. text) result cursor.new (stored_text_from cursor.old) }
{
    let size = read_word(cursor)?;
    let bytes = read_bytes(cursor, size)?;
    Ok(Text::of(alloc, bytes)?)
}
