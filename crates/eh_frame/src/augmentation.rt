//! The augmentation of a CIE (LSB, core specification, "The Common Information Entry Format").
ghost use Rattle.std.specs.Prelude.{◌≡◌, ◌==◌};
ghost use Rattle.std.specs.List.{list_any, list_all};
ghost use Rattle.prof_bytes.specs.Outcome.{GivesAt};
ghost use Rattle.eh_frame.specs.Cies.{is_letter, is_read_augmentation, letter_from, application_from};
ghost use Rattle.eh_frame.specs.declared.address.Application.TheVariants as applications;
ghost use Rattle.eh_frame.specs.declared.constants.TheConstants.{LETTER_ADDRESSES};

use crate::address::{Application, application_of, format_of, pointer};
use crate::constants::{
    LETTER_ADDRESSES, LETTER_DATA, LETTER_LANGUAGE_DATA, LETTER_PERSONALITY, LETTER_SIGNAL_FRAME,
};
use cfi_table::FrameFault;
use prof_bytes::Reader;

fn is_letter(letter: u8) -> bool
    ensures { result ≡ is_letter letter }
{
    letter == LETTER_ADDRESSES
        || letter == LETTER_LANGUAGE_DATA
        || letter == LETTER_PERSONALITY
        || letter == LETTER_SIGNAL_FRAME
}

fn are_letters(letters: &[u8]) -> bool
    ensures { result ≡ list_all is_letter letters.now }
{
    letters.iter().all(|l| is_letter(*l))
}

/// Whether CIEs of the augmentation are read: it is empty, or `z` and then letters that are known.
pub(crate) fn is_read(augmentation: &[u8]) -> bool
    ensures { result ≡ is_read_augmentation augmentation.now }
{
    match augmentation {
        [] => true,
        [first, letters @ ..] => *first == LETTER_DATA && are_letters(letters),
    }
}

fn has_addresses(letters: &[u8]) -> bool
    ensures { result ≡ list_any (λ l. l == LETTER_ADDRESSES) letters.now }
{
    letters.iter().any(|l| *l == LETTER_ADDRESSES)
}

/// The data of a letter: the application of addresses after it, and `None` where the CIE is passed over.
#[tactic(auto, unfolding(crate::specs::Cies::letter_from))]
fn letter(
    letter: u8,
    others: &[u8],
    application: Application,
    reader: &mut Reader<'_, FrameFault>,
) -> Result<Option<Application>, FrameFault>
    ensures { GivesAt (λ a. a) result reader.new (letter_from letter others.now application reader.old) }
{
    if letter == LETTER_ADDRESSES {
        let encoding = reader.u8()?;
        if has_addresses(others) {
            return Ok(Some(application));
        }
        return Ok(application_of(encoding));
    }
    if letter == LETTER_LANGUAGE_DATA {
        reader.u8()?;
        return Ok(Some(application));
    }
    if letter == LETTER_PERSONALITY {
        let encoding = reader.u8()?;
        if !pointer(format_of(encoding), reader)? {
            return Ok(None);
        }
    }
    Ok(Some(application))
}

/// The application of addresses after the letters; `None` where the CIE is passed over.
#[tactic(auto, unfolding(crate::specs::Cies::application_from))]
pub(crate) fn application(
    letters: &[u8],
    reader: &mut Reader<'_, FrameFault>,
) -> Result<Option<Application>, FrameFault>
    ensures { result ≡ application_from letters.now applications.Absolute reader.old }
{
    let mut application = Application::Absolute;
    let mut left = letters;
    while let Some((first, others)) = left.split_first() {
        let Some(next) = letter(*first, others, application, reader)? else {
            return Ok(None);
        };
        application = next;
        left = others;
    }
    Ok(Some(application))
}
