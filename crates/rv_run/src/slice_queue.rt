//! The slices of a schedule that are left.
ghost use Rattle.std.specs.Prelude.{◌≡◌, ◌&&◌, ◌<◌, ◌≤◌, drop, length, nat_lt};
ghost use Rattle.rv_run.specs.private.Reading.{first_or_none, rest_of};
ghost use Rattle.rv_run.specs.State.{hart_of, is_running};
ghost use Rattle.rv_run.specs.Run.{run_slices};
ghost use Rattle.rv_run.specs.Progress.{count_of_first};
ghost use Rattle.rv_run.specs.private.Queue.{AreOfHarts, HaveRoom, FirstCanGoOn, less};

use crate::environment::Environment;
use crate::schedule::Slice;
use std::marker::Model;

/// The slices from one on, of which the first may be what is left of one.
#[derive(Drop)]
pub(crate) struct SliceQueue {
    slices: Vec<Slice>,
    index: usize,
    left: u32,
}

impl Model for SliceQueue {
    ghost use Rattle.std.specs.Prelude.{◌≤◌, List, drop, length};
    ghost use Rattle.rv_run.specs.declared.schedule.Slice.{Slice};
    ghost use Rattle.rv_run.specs.private.Queue.{with_left};

    ghost Value = { List Slice };

    ghost view = { λ queue. with_left queue.left (drop queue.index queue.slices.items) };

    ghost invariant = { λ queue. queue.index ≤ length queue.slices.items };
}

/// How many instructions the slice of this index has; 0 where there is none.
fn count_at(slices: &[Slice], index: usize) -> u32
    ensures { result ≡ count_of_first (drop index slices.now) }
{
    match slices.get(index) {
        Some(slice) => slice.count,
        None => 0,
    }
}

/// Whether the slice has an instruction left that its hart can do.
#[inline(always)]
fn can_go_on(environment: &Environment<'_>, slice: Slice) -> bool
    requires { slice.hart < length environment.now.harts }
    ensures { result ≡ (nat_lt 0 slice.count && is_running (hart_of environment.now slice.hart)) }
{
    slice.count > 0 && environment.core(slice.hart).is_running()
}

impl SliceQueue {
    pub(crate) fn of(slices: Vec<Slice>) -> SliceQueue
        ensures { result ≡ slices.items }
    {
        let left = count_at(slices.as_slice(), 0);
        SliceQueue {
            slices,
            index: 0,
            left,
        }
    }

    /// The first slice that is left.
    #[inline(always)]
    pub(crate) fn first(&self) -> Option<Slice>
        ensures { result ≡ first_or_none self.now }
    {
        let slice = self.slices.as_slice().get(self.index)?;
        Some(Slice {
            hart: slice.hart,
            count: self.left,
        })
    }

    /// Takes a given number of instructions off the first slice.
    #[inline(always)]
    pub(crate) fn take_off(&mut self, count: u32)
        requires { count ≤ count_of_first self.old }
        ensures { self.new ≡ less count self.old }
    {
        self.left -= count;
    }

    /// Takes the first slice off.
    #[cold]
    #[inline(never)]
    fn drop_first(&mut self)
        ensures { self.new ≡ rest_of self.old }
    {
        if self.index < self.slices.len() {
            self.index += 1;
            self.left = count_at(self.slices.as_slice(), self.index);
        }
    }

    /// Takes slices off the front in which nothing is left to do.
    #[inline(always)]
    pub(crate) fn skip_idle(&mut self, environment: &Environment<'_>)
        requires { AreOfHarts (length environment.now.harts) self.old }
        ensures run { run_slices self.new environment.now ≡ run_slices self.old environment.now }
        ensures harts { AreOfHarts (length environment.now.harts) self.new }
        ensures room { HaveRoom environment.now self.old → HaveRoom environment.now self.new }
        ensures next { FirstCanGoOn environment.now self.new }
    {
        while let Some(slice) = self.first() {
            if can_go_on(environment, slice) {
                return;
            }
            self.drop_first();
        }
    }
}
