//! The memory of a program: what may be loaded and stored, and what stands there then.
use crate::guests::{ADDER, Trouble, guest, hart_at, space_of};
use rv_hart::{Cause, Space, Stepped, step};
use scope_types::Look;
use std::alloc::Global;
use std::test::Fail;

mod tables;

use tables::{
    LAST_STORES, LAST_WORDS, SEGMENT_STEPS, SEGMENT_STORES, SEGMENT_WORDS, SEGMENTS, STORES, WORDS,
};

/// The first of these addresses where another word is loaded.
fn other_word(space: &Space, wanted: &[(&'static str, u32, Option<u32>)]) -> Option<&'static str> {
    for (name, at, word) in wanted {
        if space.word(*at) != *word {
            return Some(name);
        }
    }
    None
}

/// The first of these addresses where a store gives another answer.
fn other_store(
    space: &mut Space,
    wanted: &[(&'static str, u32, &[u8], bool)],
) -> Result<Option<&'static str>, Trouble> {
    for (name, at, bytes, answer) in wanted {
        if space.store(*at, bytes)? != *answer {
            return Ok(Some(name));
        }
    }
    Ok(None)
}

fn other_store_or_word(
    space: &mut Space,
    stores: &[(&'static str, u32, &[u8], bool)],
    words: &[(&'static str, u32, Option<u32>)],
) -> Result<Option<&'static str>, Trouble> {
    match other_store(space, stores)? {
        Some(name) => Ok(Some(name)),
        None => Ok(other_word(space, words)),
    }
}

/// The first load of one or two bytes that differs.
fn other_load(space: &Space) -> Option<&'static str> {
    if space.load(0xf00f_fff0, 1) != Some(7) {
        return Some("the byte that was stored");
    }
    if space.load(0x1_0053, 2).is_some() {
        return Some("two bytes over the end of the code");
    }
    None
}

/// The first step that ends otherwise.
fn other_step(space: &mut Space) -> Result<Option<&'static str>, Trouble> {
    for (name, pc, end, x7) in &SEGMENT_STEPS {
        let mut hart = hart_at(*pc, 0, 0);
        let stepped = step(&mut hart, space)?;
        if stepped != *end || hart.regs[7] != *x7 {
            return Ok(Some(name));
        }
    }
    Ok(None)
}

/// What is looked at in a memory.
enum Wanted {
    Program,
    LastStack,
    Segments,
}

/// The first store, word, load or step that differs in a memory.
fn other_row(space: &mut Space, wanted: &Wanted) -> Result<Option<&'static str>, Trouble> {
    match wanted {
        Wanted::Program => {
            let other = other_store_or_word(space, &STORES, &WORDS)?;
            Ok(other.or(other_load(space)))
        }
        Wanted::LastStack => other_store_or_word(space, &LAST_STORES, &LAST_WORDS),
        Wanted::Segments => {
            let other = other_store_or_word(space, &SEGMENT_STORES, &SEGMENT_WORDS)?;
            Ok(other.or(other_step(space)?))
        }
    }
}

/// The same in the memory of the program in a file, for a given number of harts.
fn other_in_file(
    alloc: Global,
    file: &[u8],
    harts: u32,
    wanted: &Wanted,
) -> Result<Option<&'static str>, Trouble> {
    let mut space = space_of(alloc, file, harts)?;
    other_row(&mut space, wanted)
}

/// The same for the program that adds, on one hart and on 64.
fn other_in_adder(alloc: Global) -> Result<Option<&'static str>, Trouble> {
    let file = guest(alloc, &ADDER)?;
    let one = other_in_file(alloc, &file, 1, &Wanted::Program)?;
    Ok(one.or(other_in_file(alloc, &file, 64, &Wanted::LastStack)?))
}

#[test]
fn memory_of_a_program_its_last_stack_and_segments_in_a_page(rt: HostRuntime) -> Result<(), Fail> {
    assert_eq!(rt; other_in_adder(rt.alloc())?, None);
    let segments = other_in_file(rt.alloc(), &SEGMENTS, 1, &Wanted::Segments)?;
    assert_eq!(rt; segments, None);
    Ok(())
}
