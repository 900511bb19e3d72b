ghost use Rattle.std.specs.Prelude.{◌≡◌, ◌+◌, ◌^◌, ◌<◌, ◌∷◌, ◌++◌, [], false, if◌then◌else◌, List, length, slice_get};
ghost use Rattle.std.specs.Prelude.{Some, IfOk, OnOk, OnErr, All, ◌≤◌, replicate, slice_set};
ghost use Rattle.prof_bytes.specs.Outcome.{Gives};
ghost use Rattle.scope_types.specs.Distinct.{ColumnRaw, distinct, frames_in, samples_in};
ghost use Rattle.scope_types.specs.Limits.{most_frames_in_all, most_samples};
ghost use Rattle.thread_cct.specs.Adding.{with_sample, count_sample, few_frames, has_path, of_column};
ghost use Rattle.thread_cct.specs.Adding.{samples_of_column};
ghost use Rattle.thread_cct.specs.Listing.{HasNoRepeat, frames_of_all, samples_of};

use crate::column::Column;
use crate::path_list::PathList;
use hash_key::HashKey;
use prof_bytes::{Fail, Memory};
use scope_types::limits::MOST_FRAMES_IN_ALL;
use scope_types::{Counted, Frame, RawPath};
use std::alloc::Global;
use std::marker::Model;

/// A new raw path would make the frames of all distinct raw paths more than 4,194,304.
#[derive(Clone, Copy, Debug, PartialEq, Eq, Drop)]
pub struct TooManyFrames;

impl From<TooManyFrames> for Fail<TooManyFrames> {
    ghost use Rattle.prof_bytes.specs.declared.fail.Fail.TheVariants as fails;

    ghost from_gives = { λ fault fail. fail ≡ fails.Fault fault };

    fn from(fault: TooManyFrames) -> Fail<TooManyFrames> {
        Fail::Fault(fault)
    }
}

/// For each column, by its number from 0, the distinct raw paths of its samples in order of first sample, each
/// with its count.
#[derive(Drop)]
pub struct Ccts {
    alloc: Global,
    key: HashKey,
    tables: Vec<Column>,
    frames: u64,
}

impl Model for Ccts {
    ghost use Rattle.std.specs.Prelude.{List};
    ghost use Rattle.scope_types.specs.declared.frame.Counted.{Counted};
    ghost use Rattle.thread_cct.specs.private.Fields.{FramesFit};

    ghost Value = { List (List Counted) };

    ghost view = { λ ccts. ccts.tables.items };

    ghost invariant = { λ ccts. FramesFit ccts.tables.items ccts.frames };
}

/// A copy of a path.
#[inline(never)]
fn copied(alloc: Global, raw: &RawPath) -> Result<RawPath, Memory>
    ensures { IfOk result (λ copy. copy ≡ raw.now) }
{
    let mut frames = Vec::new(alloc);
    frames.extend_from_slice(raw.frames())?;
    Ok(RawPath::of(raw.end(), frames))
}

/// Counts a sample whose path its column has already, and says whether it has.
#[inline(always)]
#[tactic(auto, using(crate::proofs::Tables::table_steps))]
fn count_again(tables: &mut Vec<Column>, column: usize, raw: &RawPath) -> bool
    requires column { column < length tables.old.items }
    requires few { samples_in tables.old.items < most_samples }
    ensures found { result ≡ has_path raw.now (of_column tables.old.items column) }
    ensures counted { tables.new.items
        ≡ (if result then count_sample tables.old.items (record { column = column; raw = raw.now })
        else tables.old.items) }
{
    tables[column].count_again(raw)
}

/// Counts a sample whose path is new to its column.
#[inline(never)]
#[tactic(auto, using(crate::proofs::Tables::table_steps))]
fn put_path(tables: &mut Vec<Column>, column: usize, raw: RawPath) -> Result<(), Memory>
    requires column { column < length tables.old.items }
    requires new { has_path raw (of_column tables.old.items column) ≡ false }
    ensures ok { OnOk result (tables.new.items
        ≡ count_sample tables.old.items (record { column = column; raw = raw })) }
    ensures err { OnErr result (tables.new.items ≡ tables.old.items) }
{
    tables[column].put(raw)
}

/// Gives a column without paths those of a list.
fn put_list(alloc: Global, key: HashKey, tables: &mut Vec<Column>, column: usize, list: PathList)
    requires { column < length tables.old.items }
    ensures { tables.new.items ≡ slice_set tables.old.items column list }
{
    tables[column] = Column::of(alloc, key, list);
}

impl Ccts {
    /// No samples, for a given number of columns, with the fixed key: for tests, and for columns that get lists.
    pub fn start(alloc: Global, columns: u32) -> Result<Ccts, Memory>
        ensures distinct { IfOk result (λ ccts. ccts ≡ distinct columns []) }
        ensures empty { IfOk result (λ ccts. ccts ≡ replicate columns []) }
        ensures samples { IfOk result (λ ccts. samples_in ccts ≡ 0) }
    {
        Ccts::keyed(alloc, HashKey::fixed(), columns)
    }

    /// The same, with a key: the paths that are added are hashed with it, and so are the scopes of a plan of them.
    #[tactic(auto, using(crate::proofs::Tables::starting_steps, crate::proofs::Putting::all_empty))]
    pub fn keyed(alloc: Global, key: HashKey, columns: u32) -> Result<Ccts, Memory>
        ensures distinct { IfOk result (λ ccts. ccts ≡ distinct columns []) }
        ensures empty { IfOk result (λ ccts. ccts ≡ replicate columns []) }
        ensures samples { IfOk result (λ ccts. samples_in ccts ≡ 0) }
    {
        let mut tables = Vec::new(alloc);
        for _ in 0..columns {
            tables.push(Column::new(alloc, key))?;
        }
        Ok(Ccts {
            alloc,
            key,
            tables,
            frames: 0,
        })
    }

    /// The same counted paths, with another key for the scopes of a plan of them.
    pub fn with_key(self, key: HashKey) -> Ccts
        ensures { result ≡ self }
    {
        let Ccts {
            alloc,
            tables,
            frames,
            ..
        } = self;
        Ccts {
            alloc,
            key,
            tables,
            frames,
        }
    }

    /// The key with which they are hashed.
    pub fn key(&self) -> HashKey {
        self.key
    }

    /// How many columns there are.
    pub fn columns(&self) -> u32
        ensures columns { result ≡ length self.now }
        ensures samples { samples_in self.now ≤ most_samples }
        ensures counted { All (All (λ c. 0 < c.count)) self.now }
        ensures frames { frames_in self.now ≤ most_frames_in_all }
    {
        self.tables.len() as u32
    }

    /// Adds a sample of a column with this raw path. `TooManyFrames` comes exactly where the path is new to its
    /// column and the frames of all distinct paths would be more than 4,194,304. Nothing is changed then, and
    /// nothing where memory runs out.
    #[inline(always)]
    #[tactic(auto, using(crate::proofs::Tables::adding_steps))]
    pub fn add(&mut self, column: u32, raw: &RawPath) -> Result<(), Fail<TooManyFrames>>
        requires column { column < length self.old }
        requires few { samples_in self.old < most_samples }
        ensures answer { Gives (λ done. self.new) result
            (with_sample self.old (record { column = column; raw = raw.now })) }
        ensures err { OnErr result (self.new ≡ self.old) }
        ensures columns { length self.new ≡ length self.old }
        ensures samples { OnOk result (samples_in self.new ≡ samples_in self.old + 1) }
        // the samples added so far and this one more give the counts of all
        ensures all { (samples : List ColumnRaw) → self.old ≡ distinct (length self.old) samples
            → Gives (λ done. self.new) result
            (few_frames (distinct (length self.old) (samples ++ record { column = column; raw = raw.now } ∷ []))) }
    {
        if count_again(&mut self.tables, column as usize, raw) {
            return Ok(());
        }
        let frames = self.frames + raw.frames().len() as u64;
        if frames > u64::from(MOST_FRAMES_IN_ALL) {
            return Err(Fail::Fault(TooManyFrames));
        }
        let path = copied(self.alloc, raw)?;
        put_path(&mut self.tables, column as usize, path)?;
        self.frames = frames;
        Ok(())
    }

    /// Gives a column that has no paths those of a list, which are distinct.
    #[tactic(auto, using(crate::proofs::Putting::putting_steps))]
    pub fn put_list(&mut self, column: u32, list: PathList)
        requires column { column < length self.old }
        requires empty { of_column self.old column ≡ [] }
        requires distinct { HasNoRepeat list }
        requires counted { All (λ c. 0 < c.count) list }
        requires few { samples_in self.old + samples_of list ≤ most_samples }
        requires frames { frames_in self.old + frames_of_all list ≤ most_frames_in_all }
        ensures put { self.new ≡ slice_set self.old column list }
        ensures columns { length self.new ≡ length self.old }
        ensures samples { samples_in self.new ≡ samples_in self.old + samples_of list }
        ensures frames { frames_in self.new ≡ frames_in self.old + frames_of_all list }
    {
        self.frames += list.frames();
        put_list(
            self.alloc,
            self.key,
            &mut self.tables,
            column as usize,
            list,
        );
    }

    /// The other's columns follow the own ones, with their paths and counts. `TooManyFrames` comes exactly where the
    /// distinct paths of both have more than 4,194,304 frames. Nothing is changed then, and nothing where memory runs
    /// out.
    pub fn append(&mut self, other: Ccts) -> Result<(), Fail<TooManyFrames>>
        requires columns { length self.old + length other < 2 ^ 32 }
        requires few { samples_in self.old + samples_in other ≤ most_samples }
        ensures answer { Gives (λ done. self.new) result (few_frames (self.old ++ other)) }
        ensures err { OnErr result (self.new ≡ self.old) }
        ensures columns { OnOk result (length self.new ≡ length self.old + length other) }
        ensures samples { OnOk result (samples_in self.new ≡ samples_in self.old + samples_in other) }
        ensures frames { OnOk result (frames_in self.new ≡ frames_in self.old + frames_in other) }
    {
        let frames = self.frames + other.frames;
        if frames > u64::from(MOST_FRAMES_IN_ALL) {
            return Err(Fail::Fault(TooManyFrames));
        }
        let Ccts { mut tables, .. } = other;
        self.tables.append(&mut tables)?;
        self.frames = frames;
        Ok(())
    }

    /// How many distinct raw paths a column has.
    #[tactic(auto, using(crate::proofs::Tables::few_paths))]
    pub fn len(&self, column: u32) -> u32
        requires { column < length self.now }
        ensures { result ≡ length (of_column self.now column) }
    {
        self.tables[column as usize].len() as u32
    }

    /// How many samples a column has.
    pub fn samples(&self, column: u32) -> u64
        requires { column < length self.now }
        ensures { result ≡ samples_of_column self.now column }
    {
        let table = &self.tables[column as usize];
        let mut samples: u64 = 0;
        for index in 0..table.len() {
            samples += u64::from(table.count(index));
        }
        samples
    }

    /// A copy of a column's distinct raw path at an index, with its count.
    pub fn path(&self, column: u32, index: u32) -> Result<Counted, Memory>
        requires column { column < length self.now }
        requires index { index < length (of_column self.now column) }
        ensures { IfOk result (λ counted. slice_get (of_column self.now column) index ≡ Some counted) }
    {
        self.load(column, index, Vec::new(self.alloc))
    }

    /// The same, in the memory of other frames.
    pub(crate) fn load(
        &self,
        column: u32,
        index: u32,
        frames: Vec<Frame>,
    ) -> Result<Counted, Memory>
        requires column { column < length self.now }
        requires index { index < length (of_column self.now column) }
        ensures { IfOk result (λ counted. slice_get (of_column self.now column) index ≡ Some counted) }
    {
        self.tables[column as usize].load(index as usize, frames)
    }
}
