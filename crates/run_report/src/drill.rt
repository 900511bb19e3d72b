//! The four lines of `drill` on the profile of a guest.
ghost use Rattle.std.specs.Prelude.{◌≡◌, ◌++◌, decimal, fold, IfOk, length, OnOk};
ghost use Rattle.scope_types.specs.Key.{fnv};
ghost use Rattle.run_report.specs.Drill.{database_line, drill_lines, nodes_line, number_line, retired_by, totals_line};

use crate::lines::put_count;
use itoa::Buffer;
use prof_bytes::{Memory, Text, put_address, put_text};
use rv_run::Machine;
use scope_types::{FNV_BASIS, fnv_step};
use std::alloc::Global;

// ---- the numbers

/// How many instructions all harts retired.
#[tactic(auto, using(crate::proofs::DrillLines::retired_steps))]
pub fn all_retired(harts: u32, machine: &Machine<'_>) -> u128
    requires { harts ≡ length machine.now.state.harts }
    ensures { result ≡ retired_by machine.now.state }
{
    let mut retired: u128 = 0;
    for hart in 0..harts {
        retired += u128::from(machine.retired(hart));
    }
    retired
}

/// The FNV-1a hash of 32 bits.
fn fold_of(bytes: &[u8]) -> u32
    ensures { result ≡ fnv bytes.now }
{
    bytes
        .iter()
        .fold(FNV_BASIS, |key, byte| fnv_step(key, u32::from(*byte)))
}

// ---- the lines

/// A sum of many harts' instructions.
fn put_sum(out: &mut Vec<u8>, sum: u128) -> Result<(), Memory>
    ensures { OnOk result (out.new.items ≡ out.old.items ++ decimal sum) }
{
    let mut buffer = Buffer::new();
    out.extend_from_slice(buffer.format(sum).as_bytes())?;
    Ok(())
}

fn put_number_line(out: &mut Vec<u8>, number: u32) -> Result<(), Memory>
    ensures { OnOk result (out.new.items ≡ out.old.items ++ number_line number) }
{
    put_count(out, "drill ", u64::from(number))?;
    put_text(out, " harts 4 period 97\n")?;
    Ok(())
}

#[tactic(auto, unfolding(crate::specs::Drill::totals_line))]
fn put_totals_line(out: &mut Vec<u8>, retired: u128, samples: u64) -> Result<(), Memory>
    ensures { OnOk result (out.new.items ≡ out.old.items ++ totals_line retired samples) }
{
    put_text(out, "retired ")?;
    put_sum(out, retired)?;
    put_count(out, " samples ", samples)?;
    put_text(out, "\n")
}

#[tactic(auto, unfolding(crate::specs::Drill::nodes_line))]
fn put_nodes_line(out: &mut Vec<u8>, count: u64) -> Result<(), Memory>
    ensures { OnOk result (out.new.items ≡ out.old.items ++ nodes_line count) }
{
    put_count(out, "nodes ", count)?;
    put_text(out, "\n")
}

#[tactic(auto, unfolding(crate::specs::Drill::database_line))]
fn put_database_line(out: &mut Vec<u8>, database: &[u8]) -> Result<(), Memory>
    ensures { OnOk result (out.new.items ≡ out.old.items ++ database_line database.now) }
{
    put_count(out, "database ", database.len() as u64)?;
    put_text(out, " bytes fold ")?;
    put_address(out, fold_of(database))?;
    put_text(out, "\n")
}

/// The four lines on a run: how many instructions and samples all its harts have, the nodes of its tree, and its
/// database.
pub fn drill_lines(
    alloc: Global,
    number: u32,
    retired: u128,
    samples: u64,
    nodes: u64,
    database: &[u8],
) -> Result<Text, Memory>
    ensures { IfOk result (λ text. text ≡ drill_lines number retired samples nodes database.now) }
{
    let mut out = Vec::new(alloc);
    put_number_line(&mut out, number)?;
    put_totals_line(&mut out, retired, samples)?;
    put_nodes_line(&mut out, nodes)?;
    put_database_line(&mut out, database)?;
    Ok(Text::from_vec(out))
}
