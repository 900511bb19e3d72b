//! The harts of a trace, and how many samples and frames they have together.
ghost use Rattle.std.specs.Prelude.{◌≡◌, ◌+◌, ◌<◌, ◌≤◌, ◌++◌, ◌∷◌, [], true, false, if◌then◌else◌, length};
ghost use Rattle.std.specs.Prelude.{All, IfOk, OnOk, OnErr};
ghost use Rattle.prof_bytes.specs.Outcome.{Gives};
ghost use Rattle.scope_types.specs.Limits.{most_frames_in_all, most_harts, most_samples};
ghost use Rattle.scope_types.specs.Raw.{HasFrames};
ghost use Rattle.trace_lines.specs.Traces.{frames_traced, hart_in, has_raw, idle_harts};
ghost use Rattle.trace_lines.specs.Traces.{retired_by, sampled, sampled_once, samples_traced};

use crate::paths::HartPaths;
use crate::trace::TraceFull;
use hash_key::HashKey;
use prof_bytes::{Fail, Memory};
use scope_types::RawPath;
use scope_types::limits::MOST_FRAMES_IN_ALL;
use std::alloc::Global;
use std::marker::Model;

/// Harts, and how many samples they have, and how many frames their distinct raw paths. Contracts see the harts.
#[derive(Drop)]
pub(crate) struct Harts {
    harts: Vec<HartPaths>,
    samples: u32,
    frames: u32,
}

impl Model for Harts {
    ghost use Rattle.std.specs.Prelude.{List};
    ghost use Rattle.trace_lines.specs.Traces.{HartTrace};
    ghost use Rattle.trace_lines.specs.private.Paths.{AreHarts};

    ghost Value = { List HartTrace };

    ghost view = { λ harts. harts.harts.items };

    ghost invariant = { λ harts. AreHarts harts.harts.items harts.samples harts.frames };
}

/// Adds a sample whose path its hart has already, and says whether it has.
fn add_again(harts: &mut Vec<HartPaths>, hart: usize, raw: &RawPath) -> Result<bool, Memory>
    requires hart { hart < length harts.old.items }
    requires few { samples_traced harts.old.items < most_samples }
    ensures found { IfOk result (λ found. found ≡ has_raw raw.now (hart_in harts.old.items hart).samples) }
    ensures added { IfOk result (λ found. harts.new.items
        ≡ (if found then sampled harts.old.items hart raw.now else harts.old.items)) }
    ensures err { OnErr result (harts.new.items ≡ harts.old.items) }
{
    harts[hart].add_again(raw)
}

/// Adds a sample whose path is new to its hart.
fn add_new(harts: &mut Vec<HartPaths>, hart: usize, raw: RawPath) -> Result<(), Memory>
    requires hart { hart < length harts.old.items }
    requires new { has_raw raw (hart_in harts.old.items hart).samples ≡ false }
    requires few { samples_traced harts.old.items < most_samples }
    ensures ok { OnOk result (harts.new.items ≡ sampled harts.old.items hart raw) }
    ensures err { OnErr result (harts.new.items ≡ harts.old.items) }
{
    harts[hart].add_new(raw)
}

/// Notes how many instructions a hart retired.
fn finish_hart(harts: &mut Vec<HartPaths>, hart: usize, retired: u64)
    requires { hart < length harts.old.items }
    ensures { harts.new.items ≡ retired_by harts.old.items hart retired }
{
    harts[hart].finish(retired);
}

impl Harts {
    /// No harts.
    pub fn empty(alloc: Global) -> Harts
        ensures { result ≡ [] }
    {
        Harts {
            harts: Vec::new(alloc),
            samples: 0,
            frames: 0,
        }
    }

    /// A given number of harts without samples, whose paths will be hashed with a key.
    pub fn idle(alloc: Global, key: HashKey, count: u32) -> Result<Harts, Memory>
        requires { count ≤ most_harts }
        ensures idle { IfOk result (λ harts. harts ≡ idle_harts count) }
        ensures count { IfOk result (λ harts. length harts ≡ count) }
        ensures samples { IfOk result (λ harts. samples_traced harts ≡ 0) }
    {
        let mut harts = Vec::new(alloc);
        for _ in 0..count {
            harts.push(HartPaths::new(alloc, key))?;
        }
        Ok(Harts {
            harts,
            samples: 0,
            frames: 0,
        })
    }

    /// How many harts there are.
    pub fn count(&self) -> u32
        ensures count { result ≡ length self.now }
        ensures few { result ≤ most_harts }
        ensures paths { All (λ h. All (λ raw. HasFrames raw.frames) h.samples) self.now }
        ensures samples { samples_traced self.now ≤ most_samples }
        ensures frames { frames_traced self.now ≤ most_frames_in_all }
    {
        self.harts.len() as u32
    }

    /// How many samples they have.
    pub fn samples(&self) -> u32
        ensures samples { result ≡ samples_traced self.now }
        ensures few { result ≤ most_samples }
    {
        self.samples
    }

    /// How many frames their distinct raw paths have.
    pub fn frames(&self) -> u32
        ensures frames { result ≡ frames_traced self.now }
        ensures few { result ≤ most_frames_in_all }
    {
        self.frames
    }

    /// A hart, by its number from 0.
    pub fn hart(&self, hart: u32) -> &HartPaths
        requires { hart < length self.now }
        ensures { result.now ≡ hart_in self.now hart }
    {
        &self.harts[hart as usize]
    }

    /// Puts one hart more last, whose distinct raw paths have so many frames.
    pub fn push(&mut self, hart: HartPaths, frames: u32) -> Result<(), Memory>
        requires few { length self.old < most_harts }
        requires paths { All (λ raw. HasFrames raw.frames) hart.samples }
        requires frames { frames_traced self.old + frames ≡ frames_traced (self.old ++ hart ∷ []) }
        requires few_frames { frames_traced self.old + frames ≤ most_frames_in_all }
        requires samples { samples_traced self.old + length hart.samples ≤ most_samples }
        ensures { OnOk result (self.new ≡ self.old ++ hart ∷ []) }
    {
        let samples = self.samples + hart.samples();
        self.harts.push(hart)?;
        self.samples = samples;
        self.frames += frames;
        Ok(())
    }

    /// Adds a sample of a hart. `TraceFull` comes exactly where its path is new to the hart and the frames of all
    /// distinct paths would be more than 4,194,304. Nothing is changed then, and nothing where memory runs out.
    pub fn add(&mut self, hart: u32, raw: &RawPath) -> Result<(), Fail<TraceFull>>
        requires hart { hart < length self.old }
        requires few { samples_traced self.old < most_samples }
        ensures answer { Gives (λ done. self.new) result (sampled_once self.old hart raw.now) }
        ensures err { OnErr result (self.new ≡ self.old) }
        ensures count { length self.new ≡ length self.old }
        ensures samples { OnOk result (samples_traced self.new ≡ samples_traced self.old + 1) }
    {
        let found = add_again(&mut self.harts, hart as usize, raw)?;
        if found {
            self.samples += 1;
            return Ok(());
        }
        let frames = self.frames + raw.frames().len() as u32;
        if frames > MOST_FRAMES_IN_ALL {
            return Err(Fail::Fault(TraceFull));
        }
        let path = raw.copy()?;
        add_new(&mut self.harts, hart as usize, path)?;
        self.samples += 1;
        self.frames = frames;
        Ok(())
    }

    /// Notes how many instructions a hart retired.
    pub fn finish(&mut self, hart: u32, retired: u64)
        requires { hart < length self.old }
        ensures retired { self.new ≡ retired_by self.old hart retired }
        ensures count { length self.new ≡ length self.old }
        ensures samples { samples_traced self.new ≡ samples_traced self.old }
    {
        finish_hart(&mut self.harts, hart as usize, retired);
    }
}
