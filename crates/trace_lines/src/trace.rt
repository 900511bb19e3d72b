//! The trace of a run, as it grows.
ghost use Rattle.std.specs.Prelude.{◌≡◌, ◌+◌, ◌/◌, ◌<◌, ◌≤◌, length, slice_get, Some, IfOk, OnOk, OnErr};
ghost use Rattle.prof_bytes.specs.Outcome.{Gives, viewed};
ghost use Rattle.scope_types.specs.Limits.{most_harts, most_samples};
ghost use Rattle.trace_lines.specs.Traces.{IsTrace, distinct_paths, hart_in, idle_harts, retired_by};
ghost use Rattle.trace_lines.specs.Traces.{sampled_once, samples_traced, with_harts};

use crate::harts::Harts;
use crate::paths::HartPaths;
use hash_key::HashKey;
use prof_bytes::{Fail, Memory};
use scope_types::RawPath;
use std::alloc::Global;
use std::marker::Model;

/// A new raw path would make the frames of all distinct raw paths more than 4,194,304.
#[derive(Clone, Copy, Debug, PartialEq, Eq, Drop)]
pub struct TraceFull;

impl From<TraceFull> for Fail<TraceFull> {
    ghost use Rattle.prof_bytes.specs.declared.fail.Fail.TheVariants as fails;

    ghost from_gives = { λ fault fail. fail ≡ fails.Fault fault };

    fn from(fault: TraceFull) -> Fail<TraceFull> {
        Fail::Fault(fault)
    }
}

/// Which program was traced, the period, and for each hart, by its number from 0, the instructions that it retired and
/// the raw path of each of its samples, in order. Each raw path of a hart is kept once.
#[derive(Drop)]
pub struct Trace {
    length: u32,
    entry: u32,
    period: u32,
    harts: Harts,
}

impl Model for Trace {
    ghost use Rattle.trace_lines.specs.Traces.{Traced};
    ghost use Rattle.trace_lines.specs.private.Paths.{IsSomeTrace};

    ghost Value = { Traced };

    ghost view = { λ trace. record {
      length = trace.length;
      entry = trace.entry;
      period = trace.period;
      harts = trace.harts;
    } };

    ghost invariant = { λ trace. IsSomeTrace (record {
      length = trace.length;
      entry = trace.entry;
      period = trace.period;
      harts = trace.harts;
    }) };
}

impl Trace {
    /// A trace without samples, of a program whose file has `file_length` bytes and whose entry is `entry`, with a
    /// sample for each `period` instructions that a hart retires. Its raw paths are hashed with a key.
    pub fn start(
        alloc: Global,
        key: HashKey,
        file_length: u32,
        entry: u32,
        period: u32,
        harts: u32,
    ) -> Result<Trace, Memory>
        requires period { 1 ≤ period }
        requires some { 1 ≤ harts }
        requires few { harts ≤ most_harts }
        ensures trace { IfOk result (λ trace. trace
            ≡ record { length = file_length; entry = entry; period = period; harts = idle_harts harts }) }
        ensures harts { IfOk result (λ trace. length trace.harts ≡ harts) }
        ensures samples { IfOk result (λ trace. samples_traced trace.harts ≡ 0) }
    {
        Ok(Trace {
            length: file_length,
            entry,
            period,
            harts: Harts::idle(alloc, key, harts)?,
        })
    }

    /// The trace of these harts.
    pub(crate) fn of(file_length: u32, entry: u32, period: u32, harts: Harts) -> Trace
        requires period { 1 ≤ period }
        requires some { 1 ≤ length harts }
        ensures { result ≡ record { length = file_length; entry = entry; period = period; harts = harts } }
    {
        Trace {
            length: file_length,
            entry,
            period,
            harts,
        }
    }

    /// The length of the program's file, in bytes.
    pub fn length(&self) -> u32
        ensures { result ≡ self.now.length }
    {
        self.length
    }

    /// The program's entry address.
    pub fn entry(&self) -> u32
        ensures { result ≡ self.now.entry }
    {
        self.entry
    }

    /// How many retired instructions of a hart lie between two of its samples.
    pub fn period(&self) -> u32
        ensures { result ≡ self.now.period }
    {
        self.period
    }

    /// How many harts there are.
    pub fn harts(&self) -> u32
        ensures harts { result ≡ length self.now.harts }
        ensures trace { IsTrace self.now }
    {
        self.harts.count()
    }

    /// Adds a sample of a hart with this raw path. `TraceFull` comes exactly where the path is new to its hart and the
    /// frames of all distinct paths would be more than 4,194,304. Nothing is changed then, and nothing where memory
    /// runs out.
    pub fn add(&mut self, hart: u32, raw: &RawPath) -> Result<(), Fail<TraceFull>>
        requires hart { hart < length self.old.harts }
        requires few { samples_traced self.old.harts < most_samples }
        ensures answer { Gives (λ done. self.new) result
            (viewed (with_harts self.old) (sampled_once self.old.harts hart raw.now)) }
        ensures err { OnErr result (self.new ≡ self.old) }
        ensures harts { length self.new.harts ≡ length self.old.harts }
        ensures samples { OnOk result (samples_traced self.new.harts ≡ samples_traced self.old.harts + 1) }
    {
        self.harts.add(hart, raw)
    }

    /// Notes how many instructions a hart retired, which has just the samples that these give. Before, it is 0.
    pub fn finish(&mut self, hart: u32, retired: u64)
        requires hart { hart < length self.old.harts }
        requires samples { length (hart_in self.old.harts hart).samples ≡ retired / self.old.period }
        ensures trace { self.new ≡ with_harts self.old (retired_by self.old.harts hart retired) }
        ensures harts { length self.new.harts ≡ length self.old.harts }
        ensures samples { samples_traced self.new.harts ≡ samples_traced self.old.harts }
    {
        self.harts.finish(hart, retired);
    }

    /// How many samples a hart has.
    pub fn samples(&self, hart: u32) -> u32
        requires { hart < length self.now.harts }
        ensures { result ≡ length (hart_in self.now.harts hart).samples }
    {
        self.harts.hart(hart).samples()
    }

    /// A copy of the raw path of a hart's sample, by its number from 0.
    pub fn path(&self, hart: u32, sample: u32) -> Result<RawPath, Memory>
        requires hart { hart < length self.now.harts }
        requires sample { sample < length (hart_in self.now.harts hart).samples }
        ensures { IfOk result (λ raw. slice_get (hart_in self.now.harts hart).samples sample ≡ Some raw) }
    {
        self.harts.hart(hart).sample(sample).copy()
    }

    /// How many distinct raw paths a hart has.
    pub fn distinct_paths(&self, hart: u32) -> u32
        requires { hart < length self.now.harts }
        ensures { result ≡ length (distinct_paths (hart_in self.now.harts hart).samples) }
    {
        self.harts.hart(hart).paths()
    }

    /// A hart's distinct raw path, by its place from 0 in the order of their first samples.
    pub fn distinct_path(&self, hart: u32, place: u32) -> &RawPath
        requires hart { hart < length self.now.harts }
        requires place { place < length (distinct_paths (hart_in self.now.harts hart).samples) }
        ensures { slice_get (distinct_paths (hart_in self.now.harts hart).samples) place ≡ Some result.now }
    {
        self.harts.hart(hart).path(place)
    }

    /// A hart, by its number from 0.
    pub(crate) fn hart(&self, hart: u32) -> &HartPaths
        requires { hart < length self.now.harts }
        ensures { result.now ≡ hart_in self.now.harts hart }
    {
        self.harts.hart(hart)
    }
}
