// The loads.
ghost use Rattle.std.specs.Prelude.{◌≡◌, ℕ, ◌+◌, ◌*◌, ◌/◌, ◌%◌, ◌^◌, ◌<◌, ◌≤◌, length, slice_index, Some, None};
ghost use Rattle.published_prefix.specs.Heads.{head_number, kind_of, FitsFaultWord};
ghost use Rattle.published_prefix.specs.Prefixes.{sees};
ghost use Rattle.tile_coords.specs.declared.walk_end.WalkEnd.TheVariants.{Fault};

use crate::course::Course;
use crate::head::{EndKind, Head};
use crate::prefix::{FAULT, FIRST, HEAD, Place, Prefix};
use crate::steps::{ReadsFaultHigh, ReadsFaultLow, ReadsHigh, ReadsLow, Sees};
use tile_coords::{WalkEnd, Word};

impl<C: Course> Prefix<C> {
    // Loads the head. Where the seat has just taken the turn, it has the work from then on.
    pub(crate) fn load_head(&self, place: &mut Place<C>) -> Head
        requires own { place.old.table_id ≡ self.now }
        requires size { place.old.table_id.words ≡ 2 * place.old.me.0.capacity + 4 }
        ensures same { (place.new.table_id ≡ place.old.table_id) × (place.new.id ≡ place.old.id) }
        ensures sees { sees C.is_head C.fits place.old.me (head_number result) place.new.me }
        ensures limits { (result.steps < 2 ^ 45) × (result.length < 2 ^ 17) }
    {
        Head::of_number(self.table.shared.load::<Sees<C>>(place, HEAD))
    }

    // Loads words that are published as far as the seat has seen.
    pub(crate) fn read(&self, place: &mut Place<C>, from: usize, out: &mut [Word], count: usize)
        requires own { place.old.table_id ≡ self.now }
        requires inside { count ≤ length out.old }
        requires published { (i : ℕ) → i < count → from + i < place.old.me.0.length }
        requires size { place.old.table_id.words ≡ 2 * place.old.me.0.capacity + 4 }
        requires small { place.old.me.0.capacity ≤ 65536 }
        requires room { place.old.me.0.length ≤ place.old.me.0.capacity }
        requires whole { place.old.me.0.half ≡ None }
        ensures same { (place.new.table_id ≡ place.old.table_id) × (place.new.id ≡ place.old.id)
            × (place.new.me ≡ place.old.me) }
        ensures words { (i : ℕ) → i < count → C.word_at place.old.me.0.tag (from + i) (slice_index out.new i) }
        ensures others { (i : ℕ) → count ≤ i → slice_index out.new i ≡ slice_index out.old i }
    {
        for i in 0..count {
            out[i] = self.read_word(place, from + i);
        }
    }

    // Loads the two numbers of a word.
    fn read_word(&self, place: &mut Place<C>, at: usize) -> Word
        requires own { place.old.table_id ≡ self.now }
        requires published { at < place.old.me.0.length }
        requires size { place.old.table_id.words ≡ 2 * place.old.me.0.capacity + 4 }
        requires small { place.old.me.0.capacity ≤ 65536 }
        requires room { place.old.me.0.length ≤ place.old.me.0.capacity }
        requires whole { place.old.me.0.half ≡ None }
        ensures same { (place.new.table_id ≡ place.old.table_id) × (place.new.id ≡ place.old.id)
            × (place.new.me ≡ place.old.me) }
        ensures word { C.word_at place.old.me.0.tag at result }
    {
        let high = self
            .table
            .shared
            .load::<ReadsHigh<C>>(place, FIRST + 2 * at);
        let low = self
            .table
            .shared
            .load::<ReadsLow>(place, FIRST + 2 * at + 1);
        Word { high, low }
    }

    // The end that the seat has seen, by its kind.
    pub(crate) fn end_of(&self, place: &mut Place<C>, kind: EndKind) -> WalkEnd
        requires own { place.old.table_id ≡ self.now }
        requires size { place.old.table_id.words ≡ 2 * place.old.me.0.capacity + 4 }
        requires kind { kind ≡ kind_of place.old.me.0.end }
        requires fits { FitsFaultWord place.old.me.0.end }
        ensures end { result ≡ place.old.me.0.end }
        ensures same { (place.new.table_id ≡ place.old.table_id) × (place.new.id ≡ place.old.id)
            × (place.new.me ≡ place.old.me) }
    {
        match kind {
            EndKind::Partial => WalkEnd::Partial,
            EndKind::Complete => WalkEnd::Complete,
            EndKind::Fault => {
                let high = self.table.shared.load::<ReadsFaultHigh>(place, FAULT);
                let low = self.table.shared.load::<ReadsFaultLow>(place, FAULT + 1);
                fault_of(high, low)
            }
            EndKind::TooMany => WalkEnd::TooMany,
        }
    }
}

// The fault of its word: the number stands in place of the root's mask.
fn fault_of(high: u64, low: u64) -> WalkEnd
    ensures { result ≡ Fault (high / 2 ^ 16 * 2 ^ 80 + low) (high % 2 ^ 16) }
{
    let number = high % (1 << 16);
    WalkEnd::Fault {
        root: Word {
            high: high - number,
            low,
        },
        number,
    }
}
