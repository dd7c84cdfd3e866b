// A seat of a lock.
ghost use Rattle.std.specs.Prelude.{◌≡◌, false, None};
ghost use Rattle.turn_lock.specs.Seats.{carried_by, seen};

use crate::rule::TurnRule;
use crate::view::View;
use contract_tokens::Kept;
use std::marker::Model;

/// A seat, which a thread takes the value with. It has no bytes, and any thread may have it. A seat that is dropped
/// while it has the value out keeps the turn for good.
pub type Seat<P> = Seated<<P as TurnRule>::Tag, <P as TurnRule>::Note, <P as TurnRule>::Value>;

/// A seat, by the types of its rule. Contracts see its table, tag, note, tries and what it has out, and beside these
/// `last`, which its last `take` or successful `try_take` answered, and `gave`, which its last `give` was handed.
#[derive(Drop)]
pub struct Seated<G, N, T> {
    pub(crate) place: atomic_table::Seat<Option<T>, View<G, N, T>>,
    pub(crate) last: Kept<T>,
    pub(crate) gave: Kept<T>,
}

impl<G, N, T> Model for Seated<G, N, T> {
    ghost use Rattle.std.specs.Prelude.{◌≡◌, false};
    ghost use Rattle.turn_lock.specs.Seats.{Seat, seen, carried_by};

    ghost Value = { Seat G N T };

    ghost view = { λ s. seen s.place.table_id s.place.me.0 s.last s.gave };

    ghost invariant = { λ s. (s.place.me.1 ≡ carried_by s.place.me.0.out) × (s.place.me.0.spent ≡ false) };
}

impl<G, N, T: Drop> Seated<G, N, T> {
    // A seat of the table that has taken and given nothing yet.
    pub(crate) fn new(place: atomic_table::Seat<Option<T>, View<G, N, T>>) -> Seated<G, N, T>
        requires { (place.me.1 ≡ carried_by place.me.0.out) × (place.me.0.spent ≡ false) }
        ensures { result ≡ seen place.table_id place.me.0 None None }
    {
        Seated {
            place,
            last: Kept::nothing(),
            gave: Kept::nothing(),
        }
    }
}
