// A value that is told once.
ghost use Rattle.std.specs.Prelude.{◌≡◌};
ghost use base.Fml.{ftrue};

use std::marker::{Model, PhantomData};

/// A value that is stated at a call. A caller writes the value as a ghost member, or picks it at `Brand`.
pub trait Tells<T> {
    ghost told: { T };
}

/// A value that was told once and never changes. Clauses read it as `value`.
pub struct Told<T> {
    marker: PhantomData<T>,
    pub ghost value: { T },
}

impl<T> Model for Told<T> {
    ghost also_owns = { λ _. ftrue };
}

impl<T> Told<T> {
    /// The value that `J` tells.
    pub fn of<J: Tells<T>>() -> Told<T>
        ensures { result.value ≡ J.told }
    {
        Told {
            marker: PhantomData,
        }
    }
}

impl<T> Drop for Told<T> {
    fn drop(self) {
        let Self { marker: _ } = self;
    }
}

unsafe impl<T> Send for Told<T> {}

unsafe impl<T> Sync for Told<T> {}
