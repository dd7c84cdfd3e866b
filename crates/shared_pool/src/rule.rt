// What a user of a pool states, and the rule of the turn that follows from it.
use crate::note::Note;
use crate::shared::{PoolTag, Shared};
use std::hash::Hash;
use std::marker::PhantomData;
use turn_lock::TurnRule;

/// Which item fits which key under the tag, which is fixed when a pool is made.
pub trait PoolRule {
    type Tag;

    type Key: Copy + Eq + Hash + Drop;

    type Item: Drop;

    ghost fits: { Self.Tag → Self.Key → Self.Item → Type 0 };

    /// Any tag.
    ghost any_tag: { Self.Tag };
}

/// The rule of the turn of a pool.
pub struct Pooled<R> {
    rule: PhantomData<R>,
}

impl<R: PoolRule> TurnRule for Pooled<R> {
    ghost use Rattle.shared_pool.specs.Fits.{PoolFits, Permits, Divides, IsIdle, added, nothing, with_tag};
    ghost use Rattle.shared_pool.specs.Laws.{divided, changed, joined};

    type Tag = PoolTag<R::Tag>;

    type Note = Note<R::Key, R::Item>;

    type Value = Shared<R::Key, R::Item>;

    ghost fits = { PoolFits R.Key.eq R.fits };

    ghost permits = { Permits R.Key.eq R.fits };

    ghost divides = { λ tag. Divides };

    ghost is_empty = { IsIdle };

    ghost added = { added };

    ghost spent = { nothing };

    ghost spent_tag = { with_tag R.any_tag };

    ghost still_divided = { divided R.Key.eq R.fits };

    ghost still_changed = { changed R.Key.eq R.fits };

    ghost still_added = { joined R.Key.eq R.fits };
}
