// The rule of a prefix's table, and what each kind of step tells: the loads of the head and of other words, the stores
// of other words and of the head, the compare and exchange that takes the turn, the store that ends it, and split. The
// exchange of the slot changes no view.
ghost use Rattle.published_prefix.specs.Heads.{fault_high, fault_low};
ghost use Rattle.published_prefix.specs.Prefixes.{Publishing, first_view, informed_view, sees, reads_high, reads_low};
ghost use Rattle.published_prefix.specs.Prefixes.{reads_fault, claims, puts, row_with, fault_high_with};
ghost use Rattle.published_prefix.specs.Prefixes.{fault_low_with, publishes, leaves};

use crate::course::{Course, Heads, Rooms};
use crate::view::View;
use atomic_table::{Play, Split, TableRule};
use contract_tokens::{Tells, Told};
use std::marker::PhantomData;

/// What is told of the table when it is made: the tag of its course, and for how many words it has room.
pub struct Opening<J, R> {
    stated: PhantomData<(J, R)>,
}

impl<G, J: Tells<G>, R: Rooms> Tells<(G, usize)> for Opening<J, R> {
    ghost told = { (J.told, R.capacity) };
}

/// The rule of a prefix's table.
pub struct Published<C> {
    course: PhantomData<C>,
}

impl<C: Course> TableRule<Option<C::Work>, View<C::Tag>, Told<(C::Tag, usize)>> for Published<C> {
    ghost holds = { λ key. Publishing key.value.1 C.word_at C.is_head C.fits key.value.0 };

    ghost first = { λ key. first_view key.value.0 key.value.1 };
}

pub(crate) struct Sees<C> {
    course: PhantomData<C>,
}

impl<C: Course> Play<Option<C::Work>, View<C::Tag>> for Sees<C> {
    ghost then = { λ step. sees C.is_head C.fits };
}

pub(crate) struct ReadsHigh<C> {
    course: PhantomData<C>,
}

impl<C: Course> Play<Option<C::Work>, View<C::Tag>> for ReadsHigh<C> {
    ghost then = { reads_high C.word_at };
}

pub(crate) struct ReadsLow;

impl<G, T> Play<Option<T>, View<G>> for ReadsLow {
    ghost then = { λ step. reads_low };
}

pub(crate) struct ReadsFaultHigh;

impl<G, T> Play<Option<T>, View<G>> for ReadsFaultHigh {
    ghost then = { λ step. reads_fault fault_high };
}

pub(crate) struct ReadsFaultLow;

impl<G, T> Play<Option<T>, View<G>> for ReadsFaultLow {
    ghost then = { λ step. reads_fault fault_low };
}

pub(crate) struct Claims;

impl<G, T> Play<Option<T>, View<G>> for Claims {
    ghost then = { λ step. claims };
}

pub(crate) struct PutsHalf;

impl<G, T> Play<Option<T>, View<G>> for PutsHalf {
    ghost then = { λ step. puts row_with };
}

pub(crate) struct PutsFaultHigh;

impl<G, T> Play<Option<T>, View<G>> for PutsFaultHigh {
    ghost then = { λ step. puts fault_high_with };
}

pub(crate) struct PutsFaultLow;

impl<G, T> Play<Option<T>, View<G>> for PutsFaultLow {
    ghost then = { λ step. puts fault_low_with };
}

pub(crate) struct Publishes<H> {
    head: PhantomData<H>,
}

impl<G, T, H: Heads> Play<Option<T>, View<G>> for Publishes<H> {
    ghost then = { λ step m found. publishes H.steps H.count H.end m };
}

pub(crate) struct Leaves;

impl<G, T> Play<Option<T>, View<G>> for Leaves {
    ghost then = { λ step m found. leaves m };
}

pub(crate) struct Informs;

impl<G> Split<View<G>> for Informs {
    ghost left = { λ v. v };

    ghost right = { informed_view };
}
