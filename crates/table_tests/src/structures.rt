//! What `struct` puts: the structure of a program. The text is written by hand from its layout.
use std::test::Fail;
use test_programs::debug_programs::WITH_INLINES;
use test_programs::files::files;
use test_programs::products::STRUCTURE;
use test_runs::answers::puts_over;

#[test]
fn the_structure_of_inlined_calls(rt: HostRuntime) -> Result<(), Fail> {
    let files = files(rt.alloc(), WITH_INLINES, b"", b"")?;
    assert!(rt; puts_over(&rt, "struct p", files, STRUCTURE)?);
    Ok(())
}
