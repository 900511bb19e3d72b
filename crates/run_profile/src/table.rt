//! The table of a content, after other lines.
ghost use Rattle.std.specs.Prelude.{◌≡◌, ◌^◌, ◌++◌, ◌-◌, length, min, IfOk};
ghost use Rattle.tree_types.specs.OfContent.{IsProfile, content_table};

use prof_bytes::{Memory, Text};
use tree_types::Content;
use view_tables::put_top_down;

/// The report of a profile: the lines on its run, and the content's table, which has `size` bytes.
pub fn report(lines: Text, size: u64, content: &Content) -> Result<Text, Memory>
    requires profile { IsProfile content.now }
    requires size { size ≡ min (length (content_table content.now)) (2 ^ 64 - 1) }
    ensures { IfOk result (λ text. text ≡ lines ++ content_table content.now) }
{
    let mut bytes = lines.into_vec();
    // room: `size as usize`, the table's bytes, which may be gigabytes: where there is no room for
    // them, memory runs out before anything is stored
    bytes.reserve(size as usize)?;
    put_top_down(&mut bytes, content)?;
    Ok(Text::from_vec(bytes))
}
