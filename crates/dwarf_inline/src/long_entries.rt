//! What long entries were asked.
ghost use Rattle.std.specs.Prelude.{◌≡◌, ℕ, OnErr, OnOk, Some, option_map, if◌then◌else◌, ◌==◌};
ghost use Rattle.std.specs.Ordering.{nat_cmp};
ghost use Rattle.std.specs.BTreeMap.{get};
ghost use Rattle.dwarf_forms.specs.Sections.{section_text};
ghost use Rattle.dwarf_info.specs.Queries.{entry_with, link_of, name_of};
ghost use Rattle.dwarf_info.specs.Units.{DebugInfo};
ghost use Rattle.dwarf_inline.specs.private.Answers.{AreAnswers, IsAnswer};

use dwarf_forms::SectionText;
use dwarf_info::Entry;
use prof_bytes::Memory;
use std::alloc::Global;
use std::collections::BTreeMap;

/// What an entry answers.
#[derive(Drop)]
pub(crate) struct Answer<'i, 'a> {
    /// The entry that it refers to.
    pub(crate) link: Option<Entry<'i, 'a>>,
    pub(crate) name: Option<SectionText<'a>>,
}

/// The answers of long entries, by their indices. Each is asked once, however many items refer to it.
#[derive(Drop)]
pub(crate) struct LongEntries<'i, 'a> {
    pub(crate) answers: BTreeMap<u32, Answer<'i, 'a>>,
}

fn answer_of<'i, 'a>(entry: &Entry<'i, 'a>) -> Answer<'i, 'a>
    ensures { IsAnswer entry.now.info entry.now.index result }
{
    Answer {
        link: entry.link(),
        name: entry.name(),
    }
}

/// The same answer.
fn copied<'i, 'a>(answer: &Answer<'i, 'a>) -> Answer<'i, 'a>
    ensures { result ≡ answer.now }
{
    let link = match &answer.link {
        Some(link) => Some(link.copied()),
        None => None,
    };
    Answer {
        link,
        name: answer.name,
    }
}

fn add_answer<'i, 'a>(
    answers: &mut BTreeMap<u32, Answer<'i, 'a>>,
    index: u32,
    answer: Answer<'i, 'a>,
) -> Result<(), Memory>
    ensures ok { OnOk result ((q : ℕ) → get nat_cmp answers.new q
        ≡ (if index == q then Some answer.entry else get nat_cmp answers.old q)) }
    ensures err { OnErr result ((q : ℕ) → get nat_cmp answers.new q ≡ get nat_cmp answers.old q) }
{
    answers.insert(index, answer)?;
    Ok(())
}

/// Keeps an answer. Without memory for it the entry is asked again.
fn keep<'i, 'a>(answers: &mut BTreeMap<u32, Answer<'i, 'a>>, index: u32, answer: Answer<'i, 'a>)
    ensures { (info : DebugInfo) → AreAnswers info answers.old → IsAnswer info index answer.entry
        → AreAnswers info answers.new }
{
    match add_answer(answers, index, answer) {
        Ok(()) => {}
        Err(_) => {}
    }
}

impl<'i, 'a> LongEntries<'i, 'a> {
    /// None was asked yet.
    pub(crate) fn new(alloc: Global) -> LongEntries<'i, 'a>
        ensures { (info : DebugInfo) → AreAnswers info result.answers }
    {
        LongEntries {
            answers: BTreeMap::new(alloc),
        }
    }

    /// What an entry answers. It is asked the first time alone.
    #[inline(never)]
    fn answer(&mut self, entry: &Entry<'i, 'a>) -> Answer<'i, 'a>
        requires { AreAnswers entry.now.info self.old.answers }
        ensures is { IsAnswer entry.now.info entry.now.index result }
        ensures answers { AreAnswers entry.now.info self.new.answers }
    {
        let index = entry.index();
        if let Some(answer) = self.answers.get(&index) {
            return copied(answer);
        }
        let answer = answer_of(entry);
        let kept = copied(&answer);
        keep(&mut self.answers, index, kept);
        answer
    }

    /// The entry that an entry refers to.
    #[inline(always)]
    pub(crate) fn link(&mut self, entry: &Entry<'i, 'a>) -> Option<Entry<'i, 'a>>
        requires { AreAnswers entry.now.info self.old.answers }
        ensures link { result ≡ option_map (entry_with entry.now.info) (link_of entry.now.info entry.now.index) }
        ensures answers { AreAnswers entry.now.info self.new.answers }
    {
        if !entry.is_long() {
            return entry.link();
        }
        let answer = self.answer(entry);
        answer.link
    }

    /// The name of an entry, to which the links of an item lead whose entry is at the offset `own`. The item's own entry
    /// isn't kept.
    #[inline(always)]
    pub(crate) fn name(&mut self, entry: &Entry<'i, 'a>, own: u32) -> Option<SectionText<'a>>
        requires { AreAnswers entry.now.info self.old.answers }
        ensures name { option_map section_text result ≡ name_of entry.now.info entry.now.index }
        ensures answers { AreAnswers entry.now.info self.new.answers }
    {
        if entry.offset() == own || !entry.is_long() {
            return entry.name();
        }
        let answer = self.answer(entry);
        answer.name
    }
}
