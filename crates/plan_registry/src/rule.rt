// The rule of the turn of a registry.
use crate::cursor::Cursor;
use crate::planned::Planned;
use contract_tokens::Tells;
use lru::LruCache;
use std::marker::PhantomData;
use tile_coords::Plan;
use turn_lock::{Divides, Notes, Opens, TurnRule};

/// The most plans of a registry.
pub const MOST_PLANS: usize = 64;

/// The rule of the turn of a registry: there is room for 64 plans, no plan is there twice, and each has its walk in the
/// scene. Seats have no notes.
pub struct Walks<C> {
    course: PhantomData<C>,
}

impl<C: Planned> TurnRule for Walks<C> {
    ghost use Rattle.plan_registry.specs.Registries.{IsRegistry};

    type Tag = C::Scene;

    type Note = ();

    type Value = LruCache<Plan, Cursor<C>>;

    ghost fits = { λ scene notes walks. IsRegistry C.tag_of scene walks };

    ghost permits = { λ scene n x m y. IsRegistry C.tag_of scene y };

    ghost divides = { λ scene n left right. Unit {0} };

    ghost is_empty = { λ n. Unit {0} };

    ghost added = { λ n m. tt };

    ghost spent = { tt };

    ghost spent_tag = { C.any_scene };

    ghost still_divided = { λ scene notes x i n left right fit at divided. fit };

    ghost still_changed = { λ scene notes x i n m y fit at permitted. permitted };

    ghost still_added = { λ scene notes x i j n m fit at there apart empty. fit };
}

// What is stated of the first seat: the scene that `J` tells.
pub(crate) struct Opening<J> {
    stated: PhantomData<J>,
}

impl<S, J: Tells<S>> Opens<S, ()> for Opening<J> {
    ghost tag = { J.told };

    ghost note = { tt };
}

// The notes say nothing.
pub(crate) struct Nothing;

impl Notes<()> for Nothing {
    ghost note = { tt };
}

impl Divides<()> for Nothing {
    ghost left = { tt };

    ghost right = { tt };
}
