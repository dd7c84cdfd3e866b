// What a user of a prefix states.
ghost use Rattle.std.specs.Prelude.{ℕ, ◌^◌, ◌<◌};
ghost use Rattle.published_prefix.specs.Heads.{FitsFaultWord};
ghost use Rattle.tile_coords.specs.declared.walk_end.WalkEnd.{WalkEnd};
ghost use Rattle.tile_coords.specs.declared.walk_end.WalkEnd.TheVariants.{Partial};

use std::marker::Brand;
use tile_coords::WalkEnd;

/// What is published: which word stands at each place, how many steps and words there may be and with which end, and
/// which work goes on from there. The tag, which only contracts see, is fixed when a prefix is made. All of this are
/// relations: where it is not known what a walk reads, more than one word may stand at a place.
pub trait Course {
    type Tag;

    type Work: Drop;

    /// The word may stand at the place: tag, place, word.
    ghost word_at: { Self.Tag → ℕ → ℕ → Type 0 };

    /// So many steps may give so many words and this end.
    ghost is_head: { Self.Tag → ℕ → ℕ → WalkEnd → Type 0 };

    /// The work has made so many steps, which gave so many words and this end.
    ghost fits: { Self.Tag → ℕ → ℕ → WalkEnd → Self.Work → Type 0 };

    /// The first law: a course has fewer than 2^45 steps.
    ghost few_steps: { (tag : Self.Tag) (steps count : ℕ) (end : WalkEnd) → is_head tag steps count end
        → steps < 2 ^ 45 };

    /// The second law: a fault that ends a course has a root with mask 0 and a number below 2^16.
    ghost fault_fits: { (tag : Self.Tag) (steps count : ℕ) (end : WalkEnd) → is_head tag steps count end
        → FitsFaultWord end };

    /// The third law: a course begins with no step.
    ghost begins: { (tag : Self.Tag) → is_head tag 0 0 Partial };
}

// A head that is stated at a call.
pub(crate) trait Heads {
    ghost steps: { ℕ };

    ghost count: { ℕ };

    ghost end: { WalkEnd };
}

impl Heads for Brand {
    ghost steps = { 0 };

    ghost count = { 0 };

    ghost end = { Partial };
}

// A capacity that is stated at a call.
pub(crate) trait Rooms {
    ghost capacity: { ℕ };
}

impl Rooms for Brand {
    ghost capacity = { 0 };
}
