//! The counted paths that were read so far.
ghost use Rattle.std.specs.Prelude.{◌≡◌, ◌<◌, ◌≤◌, [], length, replicate, slice_set, All, IfOk};
ghost use Rattle.scope_types.specs.Distinct.{frames_in, samples_in};
ghost use Rattle.scope_types.specs.Limits.{most_frames_in_all, most_samples};
ghost use Rattle.thread_cct.specs.Adding.{of_column};
ghost use Rattle.thread_cct.specs.Listing.{HasNoRepeat};
ghost use Rattle.measure_file.specs.private.Columns.{AreSumsWith};

use crate::column::OpenColumn;
use prof_bytes::Memory;
use std::alloc::Global;
use std::marker::Model;
use thread_cct::Ccts;

/// Counted paths, how many samples they count, and how many frames they have. Contracts see the paths.
#[derive(Drop)]
pub(crate) struct Paths {
    ccts: Ccts,
    samples: u32,
    frames: u32,
}

impl Model for Paths {
    ghost use Rattle.std.specs.Prelude.{List};
    ghost use Rattle.scope_types.specs.declared.frame.Counted.{Counted};
    ghost use Rattle.measure_file.specs.private.Sums.{AreSums};

    ghost Value = { List (List Counted) };

    ghost view = { λ paths. paths.ccts };

    ghost invariant = { λ paths. AreSums paths.ccts paths.samples paths.frames };
}

impl Paths {
    /// No paths, for `columns` columns.
    #[tactic(auto, using(crate::proofs::Sums::no_sums))]
    pub(crate) fn start(alloc: Global, columns: u32) -> Result<Paths, Memory>
        ensures { IfOk result (λ paths. paths ≡ replicate columns []) }
    {
        let ccts = Ccts::start(alloc, columns)?;
        Ok(Paths {
            ccts,
            samples: 0,
            frames: 0,
        })
    }

    /// How many samples they count.
    pub(crate) fn samples(&self) -> u32
        ensures sum { result ≡ samples_in self.now }
        ensures few { result ≤ most_samples }
    {
        self.samples
    }

    /// How many frames they have.
    pub(crate) fn frames(&self) -> u32
        ensures sum { result ≡ frames_in self.now }
        ensures few { result ≤ most_frames_in_all }
    {
        self.frames
    }

    /// Gives a column the paths that were read of it.
    pub(crate) fn put(&mut self, column: u32, read: OpenColumn)
        requires column { column < length self.old }
        requires empty { of_column self.old column ≡ [] }
        requires distinct { HasNoRepeat read.paths }
        requires counted { All (λ c. 0 < c.count) read.paths }
        requires sums { AreSumsWith (samples_in self.old) (frames_in self.old) read.paths read.samples read.frames }
        ensures { self.new ≡ slice_set self.old column read.paths }
    {
        let OpenColumn {
            paths,
            samples,
            frames,
            ..
        } = read;
        self.ccts.put_list(column, paths);
        self.samples = samples;
        self.frames = frames;
    }

    /// The paths.
    pub(crate) fn into_ccts(self) -> Ccts
        ensures { result ≡ self }
    {
        let Paths { ccts, .. } = self;
        ccts
    }
}
