// A seat of a prefix.
ghost use Rattle.std.specs.Prelude.{◌≡◌, ◌+◌, ◌*◌, None};
ghost use Rattle.published_prefix.specs.Seats.{carried_by, has_work, turn_of, seen};

use crate::course::Course;
use crate::view::View;
use std::marker::Model;

/// A seat, which a thread reads and publishes with. It has no bytes, and any thread may have it. A seat that is
/// dropped while it has the work keeps the turn for good.
pub type PrefixSeat<C> = Seated<<C as Course>::Tag, <C as Course>::Work>;

/// A seat, by the types of its course. Contracts see its table and tag, what it has seen, loaded, stored and tried,
/// and whether it has the work.
#[derive(Drop)]
pub struct Seated<G, T> {
    pub(crate) place: atomic_table::Seat<Option<T>, View<G>>,
}

impl<G, T> Model for Seated<G, T> {
    ghost use Rattle.std.specs.Prelude.{◌≡◌, ◌+◌, ◌*◌, None};
    ghost use Rattle.published_prefix.specs.Seats.{Seat, seen, carried_by, has_work, turn_of};

    ghost Value = { Seat G };

    ghost view = { λ s. seen s.place.table_id s.place.me.0 };

    ghost invariant = { λ s. (s.place.table_id.words ≡ 2 * s.place.me.0.capacity + 4)
        × (s.place.me.1 ≡ carried_by s.place.me.0.turn) × (s.place.me.0.half ≡ None)
        × (s.place.me.0.turn ≡ turn_of (has_work s.place.me.0.turn) s.place.me.0.steps s.place.me.0.length
        s.place.me.0.end) };
}
