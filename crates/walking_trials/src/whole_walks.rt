// What no clause says: how often files are fetched, and that walks with ample memory come to their ends. Beside it the
// order of whole walks, as the standard counts tiles.
ghost use Rattle.std.specs.Prelude.{◌≡◌, ◌≤◌, IfOk, IfSome};
ghost use Rattle.walk_laws.specs.Plans.{FitsLayout};

use framed_walk::framed;
use reference_walk::fresh;
use scene_ports::{Fetch, FileSource};
use std::alloc::{AllocError, Global};
use std::test::Fail;
use subtree_outcome::WalkStop;
use tile_coords::{Plan, Region, Scheme, WalkEnd, Word};
use tile_word::word_at;
use tileset_json::Layout;
use uri_template::Template;

// Subtrees whose bits are all 1.
const ONES: &str =
    "{\"childSubtreeAvailability\":{\"constant\":1},\"tileAvailability\":{\"constant\":1}}";

// A source that doesn't tell its files, each of which has the same bytes. Of the fetches, counted from 1, one may fail.
#[derive(Drop)]
struct Alike {
    bytes: Vec<u8>,
    failing: u64,
    fetches: u64,
    faults: u64,
}

impl FileSource for Alike {
    ghost use Rattle.std.specs.Prelude.{None};

    ghost told = { λ s. None };

    ghost faults = { λ s. s.faults };

    ghost fetches = { λ s. s.fetches };

    ghost distinct = { λ s. tt };

    fn fetch(&mut self, name: &str, limit: usize, out: &mut Vec<u8>) -> Fetch {
        let _ = name;
        out.clear();
        self.fetches = self.fetches.saturating_add(1);
        if self.fetches == self.failing {
            self.faults = self.faults.saturating_add(1);
            return Fetch::Failed;
        }
        if self.bytes.len() > limit {
            return Fetch::TooLong;
        }
        match out.extend_from_slice(&self.bytes) {
            Ok(_) => Fetch::Whole,
            Err(_) => Fetch::Memory,
        }
    }
}

fn source(alloc: Global, failing: u64) -> Result<Alike, AllocError> {
    let json = ONES.as_bytes();
    let mut bytes = Vec::from_slice(alloc, b"subt".as_slice())?;
    bytes.extend_from_slice(1u32.to_le_bytes().as_slice())?;
    bytes.extend_from_slice((json.len() as u64).to_le_bytes().as_slice())?;
    bytes.extend_from_slice(0u64.to_le_bytes().as_slice())?;
    bytes.extend_from_slice(json)?;
    Ok(Alike {
        bytes,
        failing,
        fetches: 0,
        faults: 0,
    })
}

// A quadtree in subtrees of two levels, with no contents.
fn layout(alloc: Global, levels: u32) -> Result<Layout, Fail>
    requires some { 1 ≤ levels }
    requires few { levels ≤ 32 }
    ensures { IfOk result (λ l. l.scheme ≡ Scheme.Quad) }
{
    let mut text = String::new(alloc);
    text.push('s')?;
    Ok(Layout {
        scheme: Scheme::Quad,
        subtree_levels: 2,
        levels,
        subtree: Template::new(text)?,
        contents: Vec::new(alloc),
    })
}

// How a walk over frames ends, its fetches and its words, which are those of a walk without frames where it has an end.
fn walked(
    alloc: Global,
    layout: &Layout,
    plan: &Plan,
    frames: usize,
    failing: u64,
) -> Result<(Result<WalkEnd, WalkStop>, u64, usize, bool), Fail>
    requires fits { FitsLayout layout.now plan.now }
    requires some { 1 ≤ frames }
    requires few { frames ≤ 1024 }
{
    let mut files = source(alloc, failing)?;
    let mut words = Vec::new(alloc);
    let end = framed(alloc, &mut files, layout, plan, frames, &mut words);
    let mut others = source(alloc, 0)?;
    let mut anew = Vec::new(alloc);
    let other = fresh(alloc, &mut others, layout, plan, &mut anew);
    let same = end == other && words.as_slice() == anew.as_slice();
    Ok((end, files.fetches, words.len(), same))
}

// The plan of a whole level; None where there is no such level.
fn plan_of(layout: &Layout, level: u32, most: u32) -> Option<Plan>
    requires { layout.now.scheme ≡ Scheme.Quad }
    ensures { IfSome result (FitsLayout layout.now) }
{
    match Region::new(
        Scheme::Quad,
        layout.levels,
        level,
        [0, 0, 0],
        [most, most, 0],
    ) {
        Ok(region) => Some(Plan {
            scheme: Scheme::Quad,
            region,
        }),
        Err(_) => None,
    }
}

// The walk of a whole level; None where there is no such level.
fn walk_of(
    alloc: Global,
    layout: &Layout,
    level: u32,
    most: u32,
    frames: usize,
    failing: u64,
) -> Result<Option<(Result<WalkEnd, WalkStop>, u64, usize, bool)>, Fail>
    requires scheme { layout.now.scheme ≡ Scheme.Quad }
    requires some { 1 ≤ frames }
    requires few { frames ≤ 1024 }
{
    let Some(plan) = plan_of(layout, level, most) else {
        return Ok(None);
    };
    Ok(Some(walked(alloc, layout, &plan, frames, failing)?))
}

// The words of all tiles of a quadtree up to a level, which have no contents: by level, then by Morton index.
fn by_level_then_index(alloc: Global, last: u32) -> Result<Vec<Word>, AllocError>
    requires { last ≤ 3 }
{
    let mut words = Vec::new(alloc);
    for level in 0..last + 1 {
        for index in 0..1u64 << (2 * level) {
            words.push(word_at(level, index, 0))?;
        }
    }
    Ok(words)
}

// The words that a walk of a whole level gives; none where there is no such level.
fn words_of(alloc: Global, layout: &Layout, level: u32, most: u32) -> Result<Vec<Word>, Fail>
    requires { layout.now.scheme ≡ Scheme.Quad }
{
    let mut words = Vec::new(alloc);
    if let Some(plan) = plan_of(layout, level, most) {
        let mut files = source(alloc, 0)?;
        let _end = framed(alloc, &mut files, layout, &plan, 4, &mut words);
    }
    Ok(words)
}

#[test]
fn walks(rt: HostRuntime) -> Result<(), Fail> {
    // the levels in all, the region's level and greatest coordinates, the frames, the fetch that fails, and the end,
    // the fetches, the words, and whether a walk without frames gives the same
    let complete = Ok(WalkEnd::Complete);
    let rows: [(
        u32,
        u32,
        u32,
        usize,
        u64,
        (Result<WalkEnd, WalkStop>, u64, usize, bool),
    ); 6] = [
        (3, 2, 3, 4, 0, (complete, 17, 21, true)),
        (4, 3, 7, 4, 0, (complete, 33, 85, true)),
        (3, 2, 3, 1, 0, (complete, 17, 21, true)),
        (4, 3, 7, 1, 0, (complete, 33, 85, true)),
        (4, 3, 7, 1024, 0, (complete, 17, 85, true)),
        (3, 2, 3, 4, 2, (Err(WalkStop::ReadFault), 2, 0, false)),
    ];
    for (levels, level, most, frames, failing, wanted) in rows {
        let alloc = rt.alloc();
        let layout = layout(alloc, levels)?;
        assert!(rt; walk_of(alloc, &layout, level, most, frames, failing)? == Some(wanted));
    }
    Ok(())
}

#[test]
fn tiles_come_by_level_then_by_index(rt: HostRuntime) -> Result<(), Fail> {
    let alloc = rt.alloc();
    let three = layout(alloc, 3)?;
    let words = words_of(alloc, &three, 2, 3)?;
    assert!(rt; words.len() == 21);
    assert!(rt; words.as_slice() == by_level_then_index(alloc, 2)?.as_slice());
    let four = layout(alloc, 4)?;
    let words = words_of(alloc, &four, 3, 7)?;
    assert!(rt; words.len() == 85);
    assert!(rt; words.as_slice() == by_level_then_index(alloc, 3)?.as_slice());
    Ok(())
}
