//! A value that only contracts read.
//!
//! It promises that `GhostValue::of` has the value that its two arguments determine, as its type argument says, though
//! no code computes it. So a table may rest its rule on something that is never built at run time.
#![tactic(auto)]

ghost use Rattle.std.specs.Prelude.{◌≡◌};
ghost use Rattle.std.specs.Borrow.{ftrue};

use std::marker::{Model, PhantomData};

/// How two values determine a third.
pub trait Determines<X, Y, T> {
    ghost value: { X → Y → T };
}

/// A value for contracts alone: it has no bytes and owns nothing.
#[derive(Drop)]
pub struct GhostValue<T> {
    marker: PhantomData<T>,
    pub ghost value: { T },
}

impl<T> Model for GhostValue<T> {
    ghost also_owns = { λ _. ftrue };
}

impl<T> GhostValue<T> {
    /// The value that two others determine.
    pub fn of<X, Y, M: Determines<X, Y, T>>(x: &X, y: &Y) -> GhostValue<T>
        ensures { result.value ≡ M.value x.now y.now }
    {
        GhostValue {
            marker: PhantomData,
        }
    }
}

// unsafe: it has no bytes, so it may go from thread to thread whatever T is
unsafe impl<T> Send for GhostValue<T> {}

// unsafe: it has no bytes, so threads may share it whatever T is
unsafe impl<T> Sync for GhostValue<T> {}
