// A small tileset, and viewers of it.
ghost use Rattle.std.specs.Prelude.{◌≡◌, ◌≤◌, ◌+◌, None, length};
ghost use Rattle.std.specs.List.{All};
ghost use Rattle.viewer_session.specs.Starts.{IsNewPass};

use scene_ports::{Fetch, FileSource};
use scene_viewers::SceneViewers;
use std::alloc::Global;
use std::sync::Wait;
use viewer_session::{Scene, ViewerPass};

// A quadtree of three levels, with one file for all its subtrees of two levels.
const TILESET: &[u8] =
    br#"{"root":{"implicitTiling":{"subdivisionScheme":"QUADTREE","subtreeLevels":2,"availableLevels":3,"subtrees":{"uri":"all.subtree"}}}}"#;

const SUBTREE: &[u8] = b"subt\x01\0\0\0\x50\0\0\0\0\0\0\0\0\0\0\0\0\0\0\0\
    {\"childSubtreeAvailability\":{\"constant\":1},\"tileAvailability\":{\"constant\":1}}   ";

// The files of the tileset, of which it tells nothing.
#[derive(Drop)]
pub(crate) struct SmallTileset {
    pub fetches: u64,
}

impl FileSource for SmallTileset {
    ghost told = { λ _. None };

    ghost faults = { λ _. 0 };

    ghost fetches = { λ s. s.fetches };

    ghost distinct = { λ _. tt };

    fn fetch(&mut self, name: &str, limit: usize, out: &mut Vec<u8>) -> Fetch {
        out.clear();
        self.fetches = self.fetches.saturating_add(1);
        let bytes = match name {
            "tileset.json" => TILESET,
            "all.subtree" => SUBTREE,
            _ => return Fetch::Missing,
        };
        if bytes.len() > limit {
            return Fetch::TooLong;
        }
        match out.extend_from_slice(bytes) {
            Ok(_) => Fetch::Whole,
            Err(_) => Fetch::Memory,
        }
    }
}

// Viewers with the last of these passes, and a source of their own.
pub(crate) fn next_viewers<'a, R: Wait>(
    rt: &'a R,
    alloc: Global,
    scene: &'a Scene,
    passes: &mut Vec<ViewerPass>,
) -> SceneViewers<'a, R, SmallTileset>
    requires some { 1 ≤ length passes.old.items }
    requires passes { All (IsNewPass scene.now) passes.old.items }
    requires told { scene.now.tileset.told ≡ None }
    ensures fewer { length passes.new.items + 1 ≡ length passes.old.items }
    ensures passes { All (IsNewPass scene.now) passes.new.items }
{
    let Some(pass) = passes.pop() else {
        unreachable!()
    };
    SceneViewers::new(rt, alloc, scene, pass, SmallTileset { fetches: 0 })
}
