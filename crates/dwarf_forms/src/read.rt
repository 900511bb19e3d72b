//! One value by its form (DWARF 5, sections 7.5.4 to 7.5.6).
ghost use Rattle.std.specs.Prelude.{◌≡◌, IfErr, IfOk};
ghost use Rattle.prof_bytes.specs.Outcome.{GivesAt};
ghost use Rattle.dwarf_forms.specs.Values.{form_value, word_value, number_value, sized_from, sized_block_from, encoded_from};
ghost use Rattle.dwarf_forms.specs.Values.{direct_from, named_from, value_from, form_value_at};

use crate::constants::{DW_FORM_implicit_const, DW_FORM_indirect};
use crate::encoding::{Encoding, NumberClass, Size, WordClass, encoding_of};
use crate::value::{FormFault, Value};
use prof_bytes::{Cursor, Reader};

#[inline(always)]
fn sized<F: Copy>(reader: &mut Reader<'_, F>, size: Size) -> Result<u64, F>
    ensures { GivesAt (λ n. n) result reader.new (sized_from size reader.old) }
{
    match size {
        Size::One => reader.u8().map(u64::from),
        Size::Two => reader.u16().map(u64::from),
        Size::Three => reader.u24().map(u64::from),
        Size::Four => reader.u32().map(u64::from),
        Size::Eight => reader.u64(),
        Size::Uleb => reader.uleb(),
    }
}

#[inline(always)]
fn word_value<'a>(number: u32, class: WordClass) -> Value<'a>
    ensures { form_value result ≡ word_value class number }
{
    match class {
        WordClass::Address => Value::Address(number),
        WordClass::StrAt => Value::StrAt(number),
        WordClass::LineStrAt => Value::LineStrAt(number),
        WordClass::InfoRef => Value::InfoRef(number),
        WordClass::Section => Value::Section(number),
    }
}

#[inline(always)]
fn number_value<'a>(number: u64, class: NumberClass) -> Value<'a>
    ensures { form_value result ≡ number_value class number }
{
    match class {
        NumberClass::Number => Value::Number(number),
        NumberClass::Flag => Value::Flag(number != 0),
        NumberClass::StrIndex => Value::StrIndex(number),
        NumberClass::AddrIndex => Value::AddrIndex(number),
        NumberClass::UnitRef => Value::UnitRef(number),
        NumberClass::ListIndex => Value::ListIndex(number),
        NumberClass::Passed => Value::Passed,
    }
}

#[inline(always)]
fn block<'a, F: Copy>(reader: &mut Reader<'a, F>, size: Size) -> Result<&'a [u8], F>
    ensures { GivesAt (λ bytes. bytes.now) result reader.new (sized_block_from size reader.old) }
{
    let length = sized(reader, size)?;
    reader.take(length as usize)
}

#[inline(always)]
fn encoded<'a, F: Copy>(
    reader: &mut Reader<'a, F>,
    encoding: Encoding,
    implicit: i64,
) -> Result<Value<'a>, F>
    ensures { GivesAt form_value result reader.new (encoded_from encoding implicit reader.old) }
{
    match encoding {
        Encoding::Word(class) => Ok(word_value(reader.u32()?, class)),
        Encoding::Number(size, class) => Ok(number_value(sized(reader, size)?, class)),
        Encoding::Sleb => Ok(Value::Signed(reader.sleb()?)),
        Encoding::Block(size) => Ok(Value::Bytes(block(reader, size)?)),
        Encoding::Data16 => Ok(Value::Bytes(reader.take(16)?)),
        Encoding::String => Ok(Value::Name(reader.cstr()?)),
        Encoding::FlagPresent => Ok(Value::Flag(true)),
        Encoding::ImplicitConst => Ok(Value::Signed(implicit)),
    }
}

#[inline(always)]
fn direct<'a, F: Copy>(
    reader: &mut Reader<'a, F>,
    form: u64,
    implicit: i64,
    unknown: F,
) -> Result<Value<'a>, F>
    ensures { GivesAt form_value result reader.new (direct_from unknown form implicit reader.old) }
{
    match encoding_of(form) {
        Some(encoding) => encoded(reader, encoding, implicit),
        None => Err(unknown),
    }
}

#[inline(always)]
fn named<'a, F: Copy>(reader: &mut Reader<'a, F>, form: u64, unknown: F) -> Result<Value<'a>, F>
    ensures { GivesAt form_value result reader.new (named_from unknown form reader.old) }
{
    if form == DW_FORM_implicit_const {
        return Err(unknown);
    }
    direct(reader, form, 0, unknown)
}

#[tactic(auto, unfolding(crate::specs::Values::value_from))]
#[inline(always)]
fn value<'a, F: Copy>(
    reader: &mut Reader<'a, F>,
    form: u64,
    implicit: i64,
    unknown: F,
) -> Result<Value<'a>, F>
    ensures { GivesAt form_value result reader.new (value_from unknown form implicit reader.old) }
{
    if form == DW_FORM_indirect {
        let named_form = reader.uleb()?;
        return named(reader, named_form, unknown);
    }
    direct(reader, form, implicit, unknown)
}

/// The value of this form (DWARF 5, section 7.5.6); the reader is then after it. `unknown` is the fault of a form
/// that is not one of DWARF 5, or that `DW_FORM_indirect` may not name. `implicit` is the constant that the attribute's
/// declaration has for the form `DW_FORM_implicit_const`.
#[inline(always)]
pub fn read_form<'a, F: Copy>(
    reader: &mut Reader<'a, F>,
    form: u64,
    implicit: i64,
    unknown: F,
) -> Result<Value<'a>, F>
    ensures value { GivesAt form_value result reader.new (value_from unknown form implicit reader.old) }
    ensures keeps { IfOk result (λ _. reader.new.at.whole ≡ reader.old.at.whole) }
{
    value(reader, form, implicit, unknown)
}

/// The value of this form at the cursor, which is then after it (DWARF 5, section 7.5.6). `implicit` is the
/// constant that the attribute's declaration has for the form `DW_FORM_implicit_const`. After a fault the cursor is
/// where it was.
pub fn read_value<'a>(
    cursor: &mut Cursor<'a>,
    form: u64,
    implicit: i64,
) -> Result<Value<'a>, FormFault>
    ensures value { GivesAt form_value result cursor.new (form_value_at form implicit cursor.old) }
    ensures stays { IfErr result (λ _. cursor.new ≡ cursor.old) }
{
    let mut reader = Reader::of(cursor.fork(), FormFault::Short);
    let value = read_form(&mut reader, form, implicit, FormFault::Unknown)?;
    *cursor = reader.cursor();
    Ok(value)
}
