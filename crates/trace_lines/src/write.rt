//! A trace as bytes.
ghost use Rattle.std.specs.Prelude.{◌≡◌, ◌<◌, ◌≤◌, ◌++◌, length, IfOk, OnOk};
ghost use Rattle.std.specs.List.{flat_map};
ghost use Rattle.measure_file.specs.Spelling.{frame_bytes};
ghost use Rattle.trace_lines.specs.Traces.{AreFinished, IsTrace, distinct_paths, hart_in};
ghost use Rattle.trace_lines.specs.Spelling.{hart_bytes, place_among, places_bytes, trace_head_bytes, trace_limit};
ghost use Rattle.trace_lines.specs.Spelling.{trace_spelling, traced_path_bytes, traced_paths_bytes};
ghost use Rattle.prof_bytes.specs.Number.{word};

use crate::paths::HartPaths;
use crate::trace::Trace;
use prof_bytes::{Memory, Text, put_u32, put_u64};
use scope_types::{Frame, RawPath};
use std::alloc::Global;

fn put_frames(out: &mut Vec<u8>, frames: &[Frame]) -> Result<(), Memory>
    ensures { OnOk result (out.new.items ≡ out.old.items ++ flat_map frame_bytes frames.now) }
{
    for frame in frames {
        put_u32(out, frame.pc)?;
    }
    Ok(())
}

fn put_path(out: &mut Vec<u8>, raw: &RawPath) -> Result<(), Memory>
    ensures { OnOk result (out.new.items ≡ out.old.items ++ traced_path_bytes raw.now) }
{
    let frames = raw.frames();
    put_u32(out, raw.end().number())?;
    put_u32(out, frames.len() as u32)?;
    put_frames(out, frames)?;
    Ok(())
}

fn put_each_path(out: &mut Vec<u8>, hart: &HartPaths) -> Result<(), Memory>
    ensures { OnOk result (out.new.items
        ≡ out.old.items ++ flat_map traced_path_bytes (distinct_paths hart.now.samples)) }
{
    for place in 0..hart.paths() {
        put_path(out, hart.path(place))?;
    }
    Ok(())
}

fn put_paths(out: &mut Vec<u8>, hart: &HartPaths) -> Result<(), Memory>
    ensures { OnOk result (out.new.items
        ≡ out.old.items ++ traced_paths_bytes (distinct_paths hart.now.samples)) }
{
    put_u32(out, hart.paths())?;
    put_each_path(out, hart)?;
    Ok(())
}

fn put_each_place(out: &mut Vec<u8>, hart: &HartPaths) -> Result<(), Memory>
    ensures { OnOk result (out.new.items ≡ out.old.items
        ++ flat_map (λ raw. word (place_among (distinct_paths hart.now.samples) raw)) hart.now.samples) }
{
    for sample in 0..hart.samples() {
        put_u32(out, hart.place(sample))?;
    }
    Ok(())
}

fn put_places(out: &mut Vec<u8>, hart: &HartPaths) -> Result<(), Memory>
    ensures { OnOk result (out.new.items
        ≡ out.old.items ++ places_bytes (distinct_paths hart.now.samples) hart.now.samples) }
{
    put_u32(out, hart.samples())?;
    put_each_place(out, hart)?;
    Ok(())
}

fn put_hart(out: &mut Vec<u8>, hart: &HartPaths) -> Result<(), Memory>
    ensures { OnOk result (out.new.items ≡ out.old.items ++ hart_bytes hart.now) }
{
    put_u64(out, hart.retired())?;
    put_paths(out, hart)?;
    put_places(out, hart)?;
    Ok(())
}

fn put_harts(out: &mut Vec<u8>, trace: &Trace) -> Result<(), Memory>
    ensures { OnOk result (out.new.items ≡ out.old.items ++ flat_map hart_bytes trace.now.harts) }
{
    for hart in 0..trace.harts() {
        put_hart(out, trace.hart(hart))?;
    }
    Ok(())
}

fn put_head(out: &mut Vec<u8>, trace: &Trace) -> Result<(), Memory>
    ensures head { OnOk result (out.new.items ≡ out.old.items ++ trace_head_bytes trace.now) }
    ensures trace { OnOk result (IsTrace trace.now) }
{
    out.extend_from_slice(b"HPCTRAC1")?;
    put_u32(out, trace.length())?;
    put_u32(out, trace.entry())?;
    put_u32(out, trace.period())?;
    put_u32(out, trace.harts())?;
    Ok(())
}

#[tactic(auto, unfolding(crate::specs::Spelling::trace_spelling))]
fn spelled(alloc: Global, trace: &Trace) -> Result<Text, Memory>
    ensures spelled { IfOk result (λ text. text ≡ trace_spelling trace.now) }
    ensures short { IfOk result (λ text. length text ≤ trace_limit) }
{
    let mut out = Vec::new(alloc);
    put_head(&mut out, trace)?;
    put_harts(&mut out, trace)?;
    Ok(Text::from_vec(out))
}

/// The bytes of a trace whose harts are finished.
pub fn write_trace(alloc: Global, trace: &Trace) -> Result<Text, Memory>
    requires { AreFinished trace.now }
    ensures spelled { IfOk result (λ text. text ≡ trace_spelling trace.now) }
    ensures short { IfOk result (λ text. length text ≤ trace_limit) }
{
    spelled(alloc, trace)
}
