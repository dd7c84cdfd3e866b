// The tiles that are there.
ghost use Rattle.std.specs.Prelude.{◌≡◌, IfOk, IfErr};
ghost use Rattle.tile_occupancy.specs.Occupied.{IsOccupancy};
ghost use Rattle.tile_occupancy.specs.Faults.{IsFirstFault};

use crate::checks::{are_words, have_parents, keys_rise};
use std::marker::Model;
use tile_coords::{Scheme, Word};

/// The tiles that are there, each with a mask of its contents, in key order. Each tile but the root has its parent.
#[derive(Drop)]
pub struct Occupancy {
    scheme: Scheme,
    levels: u32,
    words: Vec<Word>,
}

impl Model for Occupancy {
    ghost use Rattle.tile_occupancy.specs.Occupied.{Occupancy as occupancy, IsOccupancy};

    ghost Value = { occupancy };

    ghost view = { λ o. record { scheme = o.scheme; levels = o.levels; words = o.words.items } };

    ghost invariant = { λ o. IsOccupancy o.scheme o.levels o.words.items };
}

/// Why a list of words is no occupancy: the first that holds.
#[derive(Clone, Copy, Debug, PartialEq, Eq)]
pub enum OccupancyFault {
    /// A word is no tile's of a level below the levels in all.
    BadWord,
    /// The keys don't strictly rise.
    Order,
    /// A tile other than the root has no parent there.
    ParentMissing,
}

impl Occupancy {
    /// The occupancy of these words, of tiles of the levels 0 to `levels - 1`. An error is the first fault of them,
    /// and lets the words go. An empty list has none.
    ///
    /// It takes no memory. Each parent is looked for in as many steps as the number of words has binary digits.
    pub fn new(scheme: Scheme, levels: u32, words: Vec<Word>) -> Result<Occupancy, OccupancyFault>
        ensures words { IfOk result (λ o. o ≡ record { scheme = scheme; levels = levels; words = words.items }) }
        ensures whole { IfOk result (λ o. IsOccupancy scheme levels words.items) }
        ensures fault { IfErr result (λ fault. IsFirstFault scheme levels words.items fault) }
    {
        if !are_words(scheme, levels, &words) {
            return Err(OccupancyFault::BadWord);
        }
        if !keys_rise(scheme, &words) {
            return Err(OccupancyFault::Order);
        }
        if !have_parents(scheme, &words) {
            return Err(OccupancyFault::ParentMissing);
        }
        Ok(Occupancy {
            scheme,
            levels,
            words,
        })
    }

    // The occupancy of words that are known to be whole.
    pub(crate) fn of_whole(scheme: Scheme, levels: u32, words: Vec<Word>) -> Occupancy
        requires { IsOccupancy scheme levels words.items }
        ensures { result ≡ record { scheme = scheme; levels = levels; words = words.items } }
    {
        Occupancy {
            scheme,
            levels,
            words,
        }
    }

    /// How the tiles are divided.
    pub fn scheme(&self) -> Scheme
        ensures { result ≡ self.now.scheme }
    {
        self.scheme
    }

    /// The levels in all: each tile's level is below them.
    pub fn levels(&self) -> u32
        ensures { result ≡ self.now.levels }
    {
        self.levels
    }

    /// The words of the tiles, in key order.
    pub fn words(&self) -> &[Word]
        ensures words { result.now ≡ self.now.words }
        ensures whole { IsOccupancy self.now.scheme self.now.levels self.now.words }
    {
        &self.words
    }
}
