// What a walk has found.
ghost use Rattle.std.specs.Prelude.{◌≡◌, []};

use std::alloc::Global;
use tile_coords::Word;

// The words of the tiles so far, and the roots of the next frontier.
#[derive(Drop)]
pub(crate) struct Found {
    pub words: Vec<Word>,
    pub next: Vec<Word>,
}

impl Found {
    pub fn new(alloc: Global) -> Found
        ensures words { result.words.items ≡ [] }
        ensures next { result.next.items ≡ [] }
    {
        Found {
            words: Vec::new(alloc),
            next: Vec::new(alloc),
        }
    }
}
