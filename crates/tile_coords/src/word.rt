// The word of a tile, and its order.
ghost use Rattle.std.specs.Prelude.{nat_eq};
ghost use Rattle.std.specs.Ordering.{nat_cmp, as_partial_cmp};
ghost use Rattle.std.specs.Hash as fed;
ghost use Rattle.std.specs.Cmp.{partial_order_from_own_ties};
ghost use Rattle.std.specs.Cmp.Rules.{comparing, hashing};
ghost use Rattle.std.proofs.Common.{rules};
ghost use Rattle.tile_coords.specs.Fed.{fed_word};

use std::cmp::Ordering;
use std::hash::{Hash, Hasher};
use std::marker::Model;

/// A tile in two numbers: its level and a mask of its contents in the higher, its Morton index in the lower. Words are
/// compared by the higher first. Only `tile_word` knows the places of these parts (this project's own).
#[derive(Clone, Copy, Debug)]
pub struct Word {
    pub high: u64,
    pub low: u64,
}

impl Model for Word {
    ghost use Rattle.std.specs.Prelude.{ℕ, ◌+◌, ◌*◌, ◌/◌, ◌%◌, ◌^◌, ◌<◌};

    ghost Value = { ℕ };

    ghost view = { λ w. w.high * 2 ^ 64 + w.low };

    ghost invariant = { λ w. (w.high < 2 ^ 64) × (w.low < 2 ^ 64) };

    ghost inverse = { λ n. record { high = n / 2 ^ 64; low = n % 2 ^ 64 } };
}

impl PartialEq for Word {
    ghost eq = { nat_eq };

    ghost laws = { Prim.search (comparing, rules) };

    fn eq(&self, other: &Word) -> bool {
        self.high == other.high && self.low == other.low
    }
}

impl Eq for Word {
    ghost laws = { Prim.search rules };
}

impl PartialOrd for Word {
    ghost partial_cmp = { as_partial_cmp nat_cmp };

    ghost laws = { Prim.search (comparing, rules) };

    fn partial_cmp(&self, other: &Word) -> Option<Ordering> {
        Some(self.cmp(other))
    }
}

impl Ord for Word {
    ghost cmp = { nat_cmp };

    ghost total = { Prim.search rules };

    ghost matches_partial_cmp = { Prim.search rules };

    ghost matches_eq = { Prim.search rules };

    fn cmp(&self, other: &Word) -> Ordering {
        self.high.cmp(&other.high).then(self.low.cmp(&other.low))
    }
}

impl Hash for Word {
    ghost hash_input = { fed_word };

    ghost respects_eq = { Prim.search (hashing, rules) };

    fn hash<H: Hasher>(&self, state: &mut H) {
        self.high.hash(state);
        self.low.hash(state);
    }
}
