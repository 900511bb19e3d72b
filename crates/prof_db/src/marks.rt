//! Which of the numbers below a count are among others.
ghost use Rattle.std.specs.Prelude.{◌≡◌, ℕ, ◌<◌, ◌==◌, ◌||◌, false, length, slice_index_or, IfOk};
ghost use Rattle.prof_db.specs.private.Marks.{AreMarks};

use prof_bytes::Memory;
use std::alloc::Global;

#[tactic(auto, using(crate::proofs::Marking::mark_set, crate::proofs::Marking::mark_out))]
fn mark(marks: &mut Vec<bool>, index: usize)
    ensures long { length marks.new.items ≡ length marks.old.items }
    ensures each { (k : ℕ) → k < length marks.old.items
        → slice_index_or marks.new.items k false ≡ (slice_index_or marks.old.items k false || index == k) }
{
    if index >= marks.len() {
        return;
    }
    marks[index] = true;
}

/// For each number below the count, whether it is among these. In time linear in the numbers and in the count.
pub(crate) fn marks(alloc: Global, numbers: &[u32], count: usize) -> Result<Vec<bool>, Memory>
    ensures { IfOk result (λ marks. AreMarks numbers.now count marks.items) }
{
    let mut marks = Vec::new(alloc);
    // room: `count`, a mark for each name of the database
    marks.resize(count, false)?;
    for number in numbers {
        mark(&mut marks, *number as usize);
    }
    Ok(marks)
}

pub(crate) fn is_marked(marks: &Vec<bool>, i: usize) -> bool
    requires { i < length marks.now.items }
    ensures { result ≡ slice_index_or marks.now.items i false }
{
    marks[i]
}
