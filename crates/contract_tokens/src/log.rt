// A list that grows by one.
ghost use Rattle.std.specs.Prelude.{◌≡◌, [], ◌∷◌, ◌++◌};

use crate::told::{Tells, Told};
use std::collections::LinkedList;
use std::marker::{Brand, Model};

/// A list that only contracts see, as a history or a count of events. Contracts see it as a list.
#[derive(Drop)]
pub struct Log<T> {
    told: Told<LinkedList<T>>,
}

impl<T> Model for Log<T> {
    ghost use Rattle.std.specs.Prelude.{List};

    ghost Value = { List T };

    ghost view = { λ l. l.told.value };
}

impl<T> Tells<LinkedList<T>> for Brand {
    ghost use Rattle.std.specs.Prelude.{[]};

    ghost told = { [] };
}

impl<T> Log<T> {
    /// No entry.
    pub fn empty() -> Log<T>
        ensures { result ≡ [] }
    {
        Log::of::<Brand>()
    }

    /// The entries that `J` tells.
    pub fn of<J: Tells<LinkedList<T>>>() -> Log<T>
        ensures { result ≡ J.told }
    {
        Log {
            told: Told::of::<J>(),
        }
    }

    /// The entries of `before`, and then `entry`.
    pub fn after(before: &Log<T>, entry: &T) -> Log<T>
        ensures { result ≡ before.now ++ entry.now ∷ [] }
    {
        Log::extended::<Brand>(before, entry)
    }

    // `J` tells the longer list.
    fn extended<J: Tells<LinkedList<T>>>(before: &Log<T>, entry: &T) -> Log<T>
        requires { J.told ≡ before.now ++ entry.now ∷ [] }
        ensures { result ≡ before.now ++ entry.now ∷ [] }
    {
        let _ = before;
        let _ = entry;
        Log::of::<J>()
    }

    /// Another token of the same list.
    pub fn again(&self) -> Log<T>
        ensures { result ≡ self.now }
    {
        Log::repeated::<Brand>(self)
    }

    // `J` tells the entries of the other token.
    fn repeated<J: Tells<LinkedList<T>>>(other: &Log<T>) -> Log<T>
        requires { J.told ≡ other.now }
        ensures { result ≡ other.now }
    {
        let _ = other;
        Log::of::<J>()
    }
}
