//! What is at an offset of a section.
ghost use Rattle.std.specs.Prelude.{◌≡◌};
ghost use Rattle.dwarf_forms.specs.Sections.{input_at};

use prof_bytes::Reader;

/// A reader of a section's bytes from an offset on; `missing` where the offset lies past the end.
pub fn reader_at<F: Copy>(section: &[u8], offset: usize, missing: F) -> Result<Reader<'_, F>, F>
    ensures { result ≡ input_at section.now offset missing }
{
    if offset > section.len() {
        return Err(missing);
    }
    Ok(Reader::new(section, offset, missing))
}
