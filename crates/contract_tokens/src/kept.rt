// A value that is kept, or none yet.
ghost use Rattle.std.specs.Prelude.{◌≡◌, None};

use crate::told::{Tells, Told};
use std::marker::{Brand, Model};

/// A value that is kept for contracts, or none yet. Contracts see it as an option.
#[derive(Drop)]
pub struct Kept<T> {
    told: Told<Option<T>>,
}

impl<T> Model for Kept<T> {
    ghost use Rattle.std.specs.Prelude.{Option};

    ghost Value = { Option T };

    ghost view = { λ k. k.told.value };
}

impl<T> Tells<Option<T>> for Brand {
    ghost use Rattle.std.specs.Prelude.{None};

    ghost told = { None };
}

impl<T> Kept<T> {
    /// Nothing is kept.
    pub fn nothing() -> Kept<T>
        ensures { result ≡ None }
    {
        Kept {
            told: Told::of::<Brand>(),
        }
    }

    /// Keeps what stands in an option.
    pub fn of(value: &Option<T>) -> Kept<T>
        ensures { result ≡ value.now }
    {
        Kept::stated::<Brand>(value)
    }

    // `J` tells the value at hand.
    fn stated<J: Tells<Option<T>>>(value: &Option<T>) -> Kept<T>
        requires { J.told ≡ value.now }
        ensures { result ≡ value.now }
    {
        let _ = value;
        Kept {
            told: Told::of::<J>(),
        }
    }

    /// Another token of the same value.
    pub fn again(&self) -> Kept<T>
        ensures { result ≡ self.now }
    {
        Kept::repeated::<Brand>(self)
    }

    // `J` tells what the other token keeps.
    fn repeated<J: Tells<Option<T>>>(other: &Kept<T>) -> Kept<T>
        requires { J.told ≡ other.now }
        ensures { result ≡ other.now }
    {
        let _ = other;
        Kept {
            told: Told::of::<J>(),
        }
    }
}
