// The published words and their calls.
ghost use Rattle.std.specs.Prelude.{◌≡◌, ℕ, ◌+◌, ◌*◌, ◌-◌, ◌/◌, ◌<◌, ◌≤◌, true, false, [], ◌∷◌, ◌++◌};
ghost use Rattle.std.specs.Prelude.{length as list_length, length, min, slice_index, Some, None, IfOk, IfSome};
ghost use Rattle.std.specs.Prelude.{IfNone};
ghost use Rattle.published_prefix.specs.Heads.{head, NoFurther, FitsFaultWord};
ghost use Rattle.published_prefix.specs.Seats.{newcomer, informed, looked, carried_by, has_work, turn_of};
ghost use Rattle.published_prefix.specs.Prefixes.{sees, claims, with_turn, turn_at, Gains};
ghost use Rattle.tile_coords.specs.declared.walk_end.WalkEnd.{WalkEnd};
ghost use Rattle.tile_coords.specs.declared.walk_end.WalkEnd.TheVariants.{Partial};
ghost use Rattle.published_prefix.specs.declared.view.Turn.TheVariants.{Idle, Claimed, At};
ghost use Rattle.atomic_table.specs.Table.{rest};

use crate::course::{Course, Rooms};
use crate::seat::{PrefixSeat, Seated};
use crate::steps::{Claims, Informs, Leaves, Opening, Published, Sees};
use crate::view::View;
use atomic_table::{Table, TableRule};
use contract_tokens::{Tells, Told};
use std::alloc::{AllocError, Global};
use std::marker::{Brand, Model};
use tile_coords::{WalkEnd, Word};

// Where the words of the table stand. The word at place i is the two numbers at FIRST + 2i, the higher first.
pub(crate) const HEAD: usize = 0;

pub(crate) const TURN: usize = 1;

pub(crate) const FAULT: usize = 2;

pub(crate) const FIRST: usize = 4;

/// The most words of a prefix.
pub const MOST_WORDS: usize = 65_536;

/// Words that one seat at a time publishes, and that any seat reads without waiting.
pub type Prefix<C> = Laid<
    Option<<C as Course>::Work>,
    View<<C as Course>::Tag>,
    Told<(<C as Course>::Tag, usize)>,
    Published<C>,
>;

/// A prefix, by the types of its table. Contracts see it as the table's name, which each of its seats has too. It
/// names the rule of the table alone, so that a struct which is generic over a course of its own may have a prefix in
/// a field.
#[derive(Drop)]
pub struct Laid<S, D, K, Q: TableRule<S, D, K>> {
    pub(crate) table: Table<S, D, K, Q, Global>,
}

impl<S, D, K, Q: TableRule<S, D, K>> Model for Laid<S, D, K, Q> {
    ghost use Rattle.std.specs.Prelude.{◌≡◌};
    ghost use Rattle.atomic_table.specs.Seated.{TableId};

    ghost Value = { TableId };

    ghost view = { λ l. l.table.shared.table_id };

    ghost invariant = { λ l. l.table.shared.table_id.slots ≡ 1 };
}

// A seat of a prefix's table.
pub(crate) type Place<C> = atomic_table::Seat<
    Option<<C as Course>::Work>,
    View<<C as Course>::Tag>,
>;

/// What a page gave, by the head that its call loaded.
#[derive(Clone, Copy, Debug, PartialEq, Eq, Drop)]
pub struct Page {
    /// How many words it gave.
    pub count: usize,
    /// How many words are published: up to 65,536.
    pub length: usize,
    /// By how many steps.
    pub steps: u64,
    pub end: WalkEnd,
}

impl<C: Course> Prefix<C> {
    /// A prefix with no words yet and room for so many, and its first seat. The tag is stated by `J`. An error comes
    /// only for want of memory, and the work is dropped then.
    pub fn new<J: Tells<C::Tag>>(
        alloc: Global,
        capacity: usize,
        work: C::Work,
    ) -> Result<(Prefix<C>, PrefixSeat<C>), AllocError>
        requires small { capacity ≤ 65536 }
        requires room { (k n : ℕ) (e : WalkEnd) → C.is_head J.told k n e → n ≤ capacity }
        requires beginning { C.fits J.told 0 0 Partial work }
        ensures { IfOk result (λ r. r.1 ≡ newcomer r.0 J.told capacity) }
    {
        Prefix::<C>::laid::<J, Brand>(alloc, capacity, work)
    }

    // `R` tells the capacity at hand.
    fn laid<J: Tells<C::Tag>, R: Rooms>(
        alloc: Global,
        capacity: usize,
        work: C::Work,
    ) -> Result<(Prefix<C>, PrefixSeat<C>), AllocError>
        requires told { R.capacity ≡ capacity }
        requires small { capacity ≤ 65536 }
        requires room { (k n : ℕ) (e : WalkEnd) → C.is_head J.told k n e → n ≤ capacity }
        requires beginning { C.fits J.told 0 0 Partial work }
        ensures { IfOk result (λ r. r.1 ≡ newcomer r.0 J.told capacity) }
    {
        let words = vec![in alloc; 0u64; FIRST + 2 * capacity]?;
        let mut slots = Vec::new(alloc);
        slots.push(Some(work))?;
        let told = Told::of::<Opening<J, R>>();
        match Table::new(alloc, words.as_slice(), slots, &told) {
            Ok((table, place)) => Ok((Laid { table }, Seated { place })),
            Err(_) => Err(AllocError),
        }
    }

    /// A new seat, which has seen what this one has, and has done nothing yet.
    pub fn split(&self, seat: &mut PrefixSeat<C>) -> PrefixSeat<C>
        requires own { seat.old.table ≡ self.now }
        ensures same { seat.new ≡ seat.old }
        ensures right { result ≡ informed seat.old }
    {
        Seated {
            place: self.table.shared.split_seat::<Informs>(&mut seat.place),
        }
    }

    /// The words from a place on, as far as `out` and the head that this call loads go; the rest of `out` stays as it
    /// was. It doesn't wait. The length, steps and end are that head's, and no nearer than what the seat had seen.
    pub fn page(&self, seat: &mut PrefixSeat<C>, from: usize, out: &mut [Word]) -> Page
        requires own { seat.old.table ≡ self.now }
        ensures head { seat.new ≡ looked seat.old result.steps result.length result.end }
        ensures near { NoFurther seat.old.steps seat.old.length seat.old.end result.steps result.length result.end }
        ensures course { C.is_head seat.old.tag result.steps result.length result.end }
        ensures count { result.count ≡ min (length out.old) (result.length - from) }
        ensures words { (i : ℕ) → i < result.count → C.word_at seat.old.tag (from + i) (slice_index out.new i) }
        ensures others { (i : ℕ) → result.count ≤ i → slice_index out.new i ≡ slice_index out.old i }
    {
        let head = self.load_head(&mut seat.place);
        let end = self.end_of(&mut seat.place, head.end);
        let count = out.len().min(head.length.saturating_sub(from));
        self.read(&mut seat.place, from, out, count);
        Page {
            count,
            length: head.length,
            steps: head.steps,
            end,
        }
    }

    /// One try to take the work, which doesn't wait. It answers the work that goes on from the head, where nobody had
    /// it, or None, where the turn was taken.
    pub fn try_claim(&self, seat: &mut PrefixSeat<C>) -> Option<C::Work>
        requires own { seat.old.table ≡ self.now }
        requires none_out { seat.old.has_work ≡ false }
        ensures taken { IfSome result
            (λ work. seat.new ≡ record (looked seat.old seat.new.steps seat.new.length seat.new.end)
            { tries = seat.old.tries ++ 0 ∷ []; has_work = true }) }
        ensures near { IfSome result
            (λ work. NoFurther seat.old.steps seat.old.length seat.old.end seat.new.steps seat.new.length
            seat.new.end) }
        ensures course { IfSome result (λ work. C.is_head seat.old.tag seat.new.steps seat.new.length seat.new.end) }
        ensures fits { IfSome result (λ work. C.fits seat.old.tag seat.new.steps seat.new.length seat.new.end work) }
        ensures missed { IfNone result (seat.new ≡ record seat.old { tries = seat.old.tries ++ 1 ∷ [] }) }
    {
        if self.try_turn(&mut seat.place) != 0 {
            return None;
        }
        self.load_head(&mut seat.place);
        self.table.shared.exchange(&mut seat.place, 0, None)
    }

    // One compare and exchange of the turn from 0 to 1. What it finds is one more try.
    fn try_turn(&self, place: &mut Place<C>) -> u64
        requires own { place.old.table_id ≡ self.now }
        requires size { place.old.table_id.words ≡ 2 * place.old.me.0.capacity + 4 }
        requires none_out { place.old.me.0.turn ≡ Idle }
        ensures same { (place.new.table_id ≡ place.old.table_id) × (place.new.id ≡ place.old.id) }
        ensures claims { claims place.old.me result place.new.me }
    {
        self.table
            .shared
            .compare_exchange::<Claims>(place, TURN, 0, 1)
    }

    /// Puts the work back, with no step made, and ends the turn.
    pub fn give_back(&self, seat: &mut PrefixSeat<C>, work: C::Work)
        requires own { seat.old.table ≡ self.now }
        requires out { seat.old.has_work ≡ true }
        requires fits { C.fits seat.old.tag seat.old.steps seat.old.length seat.old.end work }
        ensures { seat.new ≡ record seat.old { has_work = false } }
    {
        self.put_back(&mut seat.place, work);
    }

    // The work goes into the slot, and the turn ends.
    fn put_back(&self, place: &mut Place<C>, work: C::Work)
        requires own { place.old.table_id ≡ self.now }
        requires size { place.old.table_id.words ≡ 2 * place.old.me.0.capacity + 4 }
        requires carried { place.old.me.1 ≡ carried_by place.old.me.0.turn }
        requires out { place.old.me.0.turn
            ≡ turn_of true place.old.me.0.steps place.old.me.0.length place.old.me.0.end }
        requires fits { C.fits place.old.me.0.tag place.old.me.0.steps place.old.me.0.length place.old.me.0.end work }
        ensures same { (place.new.table_id ≡ place.old.table_id) × (place.new.id ≡ place.old.id) }
        ensures ended { place.new.me ≡ (with_turn place.old.me.0 Idle, []) }
    {
        let shared = &self.table.shared;
        let _empty = shared.exchange(place, 0, Some(work));
        shared.store::<Leaves>(place, TURN, 0);
    }

    /// Publishes the words and the end of the next step, and puts the work back that goes on from there: the words are
    /// stored first, then those of a fault, then the head. To know where the words go it loads the head once more.
    pub fn publish(&self, seat: &mut PrefixSeat<C>, words: &[Word], end: WalkEnd, next: C::Work)
        requires own { seat.old.table ≡ self.now }
        requires out { seat.old.has_work ≡ true }
        requires partial { seat.old.end ≡ Partial }
        requires words { (i : ℕ) → i < list_length words.now
            → C.word_at seat.old.tag (seat.old.length + i) (slice_index words.now i) }
        requires course { C.is_head seat.old.tag (seat.old.steps + 1) (seat.old.length + list_length words.now) end }
        requires fits { C.fits seat.old.tag (seat.old.steps + 1) (seat.old.length + list_length words.now) end next }
        ensures { seat.new ≡ record seat.old {
          steps = seat.old.steps + 1;
          length = seat.old.length + list_length
              words.now;
          end = end;
          heads = seat.old.heads
              ++ head seat.old.steps seat.old.length seat.old.end ∷ [];
          stores = seat.old.stores + 1;
          has_work =
              false;
        } }
    {
        let head = self.look_again(&mut seat.place);
        self.store_step::<Brand>(&mut seat.place, &head, words, &end);
        self.put_back(&mut seat.place, next);
    }
}
