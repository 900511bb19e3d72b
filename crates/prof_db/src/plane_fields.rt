//! The fields of a plane, compared with the bytes of a database.
ghost use Rattle.std.specs.Prelude.{◌<◌, ◌^◌, ◌∷◌, [], length};
ghost use Rattle.std.specs.List.{flat_map};
ghost use Rattle.prof_bytes.specs.Outcome.{GivesAt};
ghost use Rattle.prof_db.specs.private.Marks.{Stands};
ghost use Rattle.prof_db.specs.ValueRules.{list_fields, context_fields, fields_kept, plane_fields, profile_fields};
ghost use Rattle.prof_db.specs.ValueRules.{field_of_word};

use crate::fault::DbFault;
use crate::fields::fault_at;
use crate::write::kind_word;
use prof_bytes::Cursor;
use tree_types::{ContextEntry, ContextPlane, ProfileEntry, ProfilePlane};

/// The next field is this word of four bytes.
#[tactic(auto, unfolding(crate::specs::ValueRules::fields_kept))]
fn same_word(cursor: &mut Cursor<'_>, rule: u32, number: u64) -> Result<(), DbFault>
    ensures { GivesAt (λ done. done) result cursor.new (fields_kept rule (field_of_word number ∷ []) cursor.old) }
{
    let offset = cursor.place() as u64;
    match cursor.u32() {
        Some(found) if u64::from(found) == number => Ok(()),
        _ => Err(fault_at(rule, offset)),
    }
}

/// The next field is this number of eight bytes.
#[tactic(auto, unfolding(crate::specs::ValueRules::fields_kept))]
fn same_long(cursor: &mut Cursor<'_>, rule: u32, number: u64) -> Result<(), DbFault>
    ensures { GivesAt (λ done. done) result cursor.new (fields_kept rule ((8, number) ∷ []) cursor.old) }
{
    let offset = cursor.place() as u64;
    match cursor.u64() {
        Some(found) if found == number => Ok(()),
        _ => Err(fault_at(rule, offset)),
    }
}

#[tactic(auto, unfolding(crate::specs::ValueRules::fields_kept))]
fn same_profile_entry(cursor: &mut Cursor<'_>, e: ProfileEntry) -> Result<(), DbFault>
    ensures { GivesAt (λ done. done) result cursor.new (fields_kept 6 (profile_fields e) cursor.old) }
{
    same_word(cursor, 6, u64::from(e.node))?;
    same_word(cursor, 6, u64::from(kind_word(e.kind)))?;
    same_long(cursor, 6, e.value)
}

#[tactic(auto, unfolding(crate::specs::ValueRules::fields_kept))]
fn same_context_entry(cursor: &mut Cursor<'_>, e: ContextEntry) -> Result<(), DbFault>
    ensures { GivesAt (λ done. done) result cursor.new (fields_kept 7 (context_fields e) cursor.old) }
{
    same_word(cursor, 7, u64::from(kind_word(e.kind)))?;
    same_word(cursor, 7, u64::from(e.column))?;
    same_long(cursor, 7, e.value)
}

fn same_profile_entries(cursor: &mut Cursor<'_>, entries: &[ProfileEntry]) -> Result<(), DbFault>
    ensures { GivesAt (λ done. done) result cursor.new
        (fields_kept 6 (flat_map profile_fields entries.now) cursor.old) }
{
    for e in entries {
        same_profile_entry(cursor, *e)?;
    }
    Ok(())
}

fn same_context_entries(cursor: &mut Cursor<'_>, entries: &[ContextEntry]) -> Result<(), DbFault>
    ensures { GivesAt (λ done. done) result cursor.new
        (fields_kept 7 (flat_map context_fields entries.now) cursor.old) }
{
    for e in entries {
        same_context_entry(cursor, *e)?;
    }
    Ok(())
}

fn same_profile_list(cursor: &mut Cursor<'_>, entries: &[ProfileEntry]) -> Result<(), DbFault>
    ensures { GivesAt (λ done. done) result cursor.new
        (fields_kept 6 (list_fields profile_fields entries.now) cursor.old) }
{
    same_word(cursor, 6, entries.len() as u64)?;
    same_profile_entries(cursor, entries)
}

fn same_context_list(cursor: &mut Cursor<'_>, entries: &[ContextEntry]) -> Result<(), DbFault>
    ensures { GivesAt (λ done. done) result cursor.new
        (fields_kept 7 (list_fields context_fields entries.now) cursor.old) }
{
    same_word(cursor, 7, entries.len() as u64)?;
    same_context_entries(cursor, entries)
}

fn same_profile_lists(cursor: &mut Cursor<'_>, plane: &ProfilePlane) -> Result<(), DbFault>
    requires { length plane.now < 2 ^ 32 }
    ensures { GivesAt (λ done. done) result cursor.new
        (fields_kept 6 (plane_fields profile_fields plane.now) cursor.old) }
{
    for column in 0..plane.columns() {
        same_profile_list(cursor, plane.column(column))?;
    }
    Ok(())
}

fn same_context_lists(cursor: &mut Cursor<'_>, plane: &ContextPlane) -> Result<(), DbFault>
    requires { length plane.now < 2 ^ 32 }
    ensures { GivesAt (λ done. done) result cursor.new
        (fields_kept 7 (plane_fields context_fields plane.now) cursor.old) }
{
    for node in 0..plane.nodes() {
        same_context_list(cursor, plane.node(node))?;
    }
    Ok(())
}

/// The profile plane's fields are there, or the first that differs is at fault.
pub(crate) fn judge_profiles(cursor: &Cursor<'_>, plane: &ProfilePlane) -> Result<(), DbFault>
    requires { length plane.now < 2 ^ 32 }
    ensures { Stands result (fields_kept 6 (plane_fields profile_fields plane.now) cursor.now) }
{
    let mut ahead = cursor.fork();
    same_profile_lists(&mut ahead, plane)
}

/// The context plane's fields are there, or the first that differs is at fault.
pub(crate) fn judge_contexts(cursor: &Cursor<'_>, plane: &ContextPlane) -> Result<(), DbFault>
    requires { length plane.now < 2 ^ 32 }
    ensures { Stands result (fields_kept 7 (plane_fields context_fields plane.now) cursor.now) }
{
    let mut ahead = cursor.fork();
    same_context_lists(&mut ahead, plane)
}
