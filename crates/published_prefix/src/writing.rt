// The stores.
ghost use Rattle.std.specs.Prelude.{◌≡◌, ℕ, ◌+◌, ◌*◌, ◌^◌, ◌<◌, ◌≤◌, true, [], length as list_length, slice_index};
ghost use Rattle.std.specs.Prelude.{List, Option, Some, None};
ghost use Rattle.published_prefix.specs.Heads.{head, fault_high, fault_low, FitsFaultWord};
ghost use Rattle.published_prefix.specs.Seats.{turn_of};
ghost use Rattle.published_prefix.specs.Prefixes.{halves_of, with_turn, seeing, storing, word_with, sees, turn_at};
ghost use Rattle.published_prefix.specs.Prefixes.{Gains};
ghost use Rattle.tile_coords.specs.declared.walk_end.WalkEnd.{WalkEnd};
ghost use Rattle.tile_coords.specs.declared.walk_end.WalkEnd.TheVariants.{Partial, Fault};
ghost use Rattle.published_prefix.specs.declared.view.Turn.TheVariants.{At};

use crate::course::{Course, Heads};
use crate::head::{EndKind, Head};
use crate::prefix::{FAULT, FIRST, HEAD, Place, Prefix};
use crate::steps::{Publishes, PutsFaultHigh, PutsFaultLow, PutsHalf};
use tile_coords::{WalkEnd, Word};

impl<C: Course> Prefix<C> {
    // Loads the head, by the seat that has the work. It is as it was.
    pub(crate) fn look_again(&self, place: &mut Place<C>) -> Head
        requires own { place.old.table_id ≡ self.now }
        requires size { place.old.table_id.words ≡ 2 * place.old.me.0.capacity + 4 }
        requires out { place.old.me.0.turn
            ≡ turn_of true place.old.me.0.steps place.old.me.0.length place.old.me.0.end }
        ensures same { (place.new.table_id ≡ place.old.table_id) × (place.new.id ≡ place.old.id) }
        ensures head { result ≡ head place.old.me.0.steps place.old.me.0.length place.old.me.0.end }
        ensures seen { place.new.me
            ≡ (
              seeing place.old.me.0 place.old.me.0.steps place.old.me.0.length place.old.me.0.end
                  place.old.me.0.turn,
              place.old.me.1,
            ) }
        ensures small { place.old.me.0.capacity ≤ 65536 }
        ensures room { (k n : ℕ) (e : WalkEnd) → C.is_head place.old.me.0.tag k n e → n ≤ place.old.me.0.capacity }
    {
        self.load_head(place)
    }

    // Stores the words and the end of the next step, and then the head. `H` tells the head.
    pub(crate) fn store_step<H: Heads>(
        &self,
        place: &mut Place<C>,
        head: &Head,
        words: &[Word],
        end: &WalkEnd,
    )
        requires own { place.old.table_id ≡ self.now }
        requires stated { (H.steps ≡ head.now.steps + 1) × (H.count ≡ head.now.length + list_length words.now)
            × (H.end ≡ end.now) }
        requires size { place.old.table_id.words ≡ 2 * place.old.me.0.capacity + 4 }
        requires small { place.old.me.0.capacity ≤ 65536 }
        requires room { head.now.length + list_length words.now ≤ place.old.me.0.capacity }
        requires turn { place.old.me.0.turn ≡ At head.now.steps head.now.length Partial [] None None }
        requires words { (i : ℕ) → i < list_length words.now
            → C.word_at place.old.me.0.tag (head.now.length + i) (slice_index words.now i) }
        requires course { C.is_head place.old.me.0.tag H.steps H.count H.end }
        ensures same { (place.new.table_id ≡ place.old.table_id) × (place.new.id ≡ place.old.id) }
        ensures published { place.new.me ≡ (storing place.old.me.0 H.steps H.count H.end, place.old.me.1) }
    {
        let next = Head {
            steps: head.steps + 1,
            end: EndKind::of(end),
            length: head.length + words.len(),
        };
        self.write_words(place, head.length, words);
        self.write_fault(place, end);
        self.store_head::<H>(place, &next, end);
    }

    // Stores words past the length.
    pub(crate) fn write_words(&self, place: &mut Place<C>, length: usize, words: &[Word])
        requires own { place.old.table_id ≡ self.now }
        requires turn { (k : ℕ) × (place.old.me.0.turn ≡ At k length Partial [] None None) }
        requires size { place.old.table_id.words ≡ 2 * place.old.me.0.capacity + 4 }
        requires small { place.old.me.0.capacity ≤ 65536 }
        requires room { length + list_length words.now ≤ place.old.me.0.capacity }
        ensures same { (place.new.table_id ≡ place.old.table_id) × (place.new.id ≡ place.old.id) }
        ensures row { (k : ℕ) → place.old.me.0.turn ≡ At k length Partial [] None None
            → place.new.me ≡ (
              with_turn place.old.me.0
                  (At k length Partial (halves_of words.now) None None),
              place.old.me.1,
            ) }
    {
        for i in 0..words.len() {
            self.write_word(place, length + i, words[i]);
        }
    }

    // Stores the two numbers of the next word.
    fn write_word(&self, place: &mut Place<C>, at: usize, word: Word)
        requires own { place.old.table_id ≡ self.now }
        requires turn { (k : ℕ) × (n : ℕ) × (row : List ℕ) × (place.old.me.0.turn ≡ At k n Partial row None None)
            × (2 * at ≡ 2 * n + list_length row) }
        requires size { place.old.table_id.words ≡ 2 * place.old.me.0.capacity + 4 }
        requires small { place.old.me.0.capacity ≤ 65536 }
        requires room { at < place.old.me.0.capacity }
        ensures same { (place.new.table_id ≡ place.old.table_id) × (place.new.id ≡ place.old.id) }
        ensures row { place.new.me ≡ (with_turn place.old.me.0 (word_with place.old.me.0.turn word), place.old.me.1) }
    {
        let Word { high, low } = word;
        self.table
            .shared
            .store::<PutsHalf>(place, FIRST + 2 * at, high);
        self.table
            .shared
            .store::<PutsHalf>(place, FIRST + 2 * at + 1, low);
    }

    // Stores the word of a fault.
    pub(crate) fn write_fault(&self, place: &mut Place<C>, end: &WalkEnd)
        requires own { place.old.table_id ≡ self.now }
        requires turn { (k : ℕ) × (n : ℕ) × (row : List ℕ) × (place.old.me.0.turn ≡ At k n Partial row None None) }
        requires size { place.old.table_id.words ≡ 2 * place.old.me.0.capacity + 4 }
        requires fits { FitsFaultWord end.now }
        ensures same { (place.new.table_id ≡ place.old.table_id) × (place.new.id ≡ place.old.id) }
        ensures fault { (k n : ℕ) (row : List ℕ) → place.old.me.0.turn ≡ At k n Partial row None None
            → place.new.me ≡ (
              with_turn place.old.me.0 (At k n Partial row (fault_high end.now)
                  (fault_low end.now)),
              place.old.me.1,
            ) }
    {
        if let WalkEnd::Fault { root, number } = end {
            let Word { high, low } = *root;
            self.table
                .shared
                .store::<PutsFaultHigh>(place, FAULT, high + number);
            self.table
                .shared
                .store::<PutsFaultLow>(place, FAULT + 1, low);
        }
    }

    // Stores the head, after all that it tells of. `H` tells it.
    pub(crate) fn store_head<H: Heads>(&self, place: &mut Place<C>, next: &Head, end: &WalkEnd)
        requires own { place.old.table_id ≡ self.now }
        requires size { place.old.table_id.words ≡ 2 * place.old.me.0.capacity + 4 }
        requires stated { (next.now ≡ head H.steps H.count H.end) × (end.now ≡ H.end) }
        requires written { (k : ℕ) × (n : ℕ) × (words : List ℕ)
            × (place.old.me.0.turn ≡ At k n Partial (halves_of words) (fault_high H.end) (fault_low H.end))
            × (H.steps ≡ k + 1) × (H.count ≡ n + list_length words) × ((i : ℕ) → i < list_length words
            → C.word_at place.old.me.0.tag (n + i) (slice_index words i)) }
        requires course { C.is_head place.old.me.0.tag H.steps H.count H.end }
        requires limits { (H.steps < 2 ^ 45) × (H.count < 2 ^ 17) }
        ensures same { (place.new.table_id ≡ place.old.table_id) × (place.new.id ≡ place.old.id) }
        ensures published { place.new.me ≡ (storing place.old.me.0 H.steps H.count H.end, place.old.me.1) }
    {
        let _ = end;
        self.table
            .shared
            .store::<Publishes<H>>(place, HEAD, next.to_number());
    }
}
