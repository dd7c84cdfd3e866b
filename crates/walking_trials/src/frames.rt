// What no clause says: that a root is held where there is memory, and that what passes share may go to other threads.
ghost use Rattle.std.specs.Prelude.{◌≡◌, None, Some, true, IfOk, IfSome};
ghost use Rattle.implicit_tiling.specs.Code.{word_level};
ghost use Rattle.shared_pool.specs.Fits.{IsIdle};
ghost use Rattle.tile_word.specs.Roots.{IsRootWord};
ghost use Rattle.scene_frames.specs.Held.{IsOfScene};

use scene_frames::{HoldStop, Outcomes, hold, start};
use scene_ports::{Fetch, FileSource};
use shared_pool::PoolPass;
use std::alloc::Global;
use std::sync::Wait;
use std::test::Fail;
use subtree_outcome::Outcome;
use tile_coords::{Scheme, Word};
use tile_word::word_at;
use tileset_json::Layout;
use uri_template::Template;

// Files that are all empty, so that each has the fault of a short header. The first fetch fails.
#[derive(Drop)]
struct Empty {
    fetches: u64,
    faults: u64,
}

impl FileSource for Empty {
    ghost use Rattle.std.specs.Prelude.{None};

    ghost told = { λ s. None };

    ghost faults = { λ s. s.faults };

    ghost fetches = { λ s. s.fetches };

    ghost distinct = { λ s. tt };

    fn fetch(&mut self, name: &str, limit: usize, out: &mut Vec<u8>) -> Fetch {
        let _ = name;
        let _ = limit;
        out.clear();
        self.fetches = self.fetches.saturating_add(1);
        if self.fetches == 1 {
            self.faults = self.faults.saturating_add(1);
            return Fetch::Failed;
        }
        Fetch::Whole
    }
}

// A quadtree of two levels in subtrees of one level, with no contents.
fn layout(alloc: Global) -> Result<Layout, Fail>
    ensures { IfOk result (λ l. (l.scheme ≡ Scheme.Quad) × (l.levels ≡ 2) × (l.subtree_levels ≡ 1)) }
{
    let mut text = String::new(alloc);
    text.push('s')?;
    Ok(Layout {
        scheme: Scheme::Quad,
        subtree_levels: 1,
        levels: 2,
        subtree: Template::new(text)?,
        contents: Vec::new(alloc),
    })
}

// The word of the root of the tileset, and of the first of its child roots.
fn first(layout: &Layout) -> Word
    requires { (layout.now.scheme ≡ Scheme.Quad) × (layout.now.levels ≡ 2) × (layout.now.subtree_levels ≡ 1) }
    ensures { IsRootWord layout.now (word_level result) result }
{
    let _ = layout;
    word_at(0, 0, 0)
}

fn second(layout: &Layout) -> Word
    requires { (layout.now.scheme ≡ Scheme.Quad) × (layout.now.levels ≡ 2) × (layout.now.subtree_levels ≡ 1) }
    ensures { IsRootWord layout.now (word_level result) result }
{
    let _ = layout;
    word_at(1, 0, 0)
}

// The number of the fault of the root's file, where the pass holds its outcome.
fn fault(
    rt: &impl Wait,
    alloc: Global,
    pass: &mut PoolPass<Outcomes>,
    files: &mut Empty,
    layout: &Layout,
    key: Word,
) -> Option<u64>
    requires idle { IsIdle pass.old.note }
    requires scene { IsOfScene layout.now None pass.old.tag }
    requires key { IsRootWord layout.now (word_level key) key }
    ensures pins { IfSome result (λ number. (p : _) × (pass.new.note.pin ≡ Some p)) }
    ensures same { pass.new.tag ≡ pass.old.tag }
{
    match hold(rt, alloc, pass, files, layout, key) {
        Ok(found) => match &*found {
            Outcome::Good(_) => Some(0),
            Outcome::Bad(number) => Some(*number),
        },
        Err(_) => None,
    }
}

// Whether the pass is stopped so.
fn is_stopped(
    rt: &impl Wait,
    alloc: Global,
    pass: &mut PoolPass<Outcomes>,
    files: &mut Empty,
    layout: &Layout,
    key: Word,
    stop: HoldStop,
) -> bool
    requires idle { IsIdle pass.old.note }
    requires scene { IsOfScene layout.now None pass.old.tag }
    requires key { IsRootWord layout.now (word_level key) key }
    ensures idle { result ≡ true → IsIdle pass.new.note }
    ensures same { pass.new.tag ≡ pass.old.tag }
{
    match hold(rt, alloc, pass, files, layout, key) {
        Ok(_) => false,
        Err(found) => found == stop,
    }
}

fn sends<T: Send>(_: &T) {}

#[test]
fn a_root_is_read_once_for_all_passes(rt: HostRuntime) -> Result<(), Fail> {
    let alloc = rt.alloc();
    let layout = layout(alloc)?;
    let mut files = Empty {
        fetches: 0,
        faults: 0,
    };
    let mut host = start(alloc, &files, &layout, 2, 1)?;
    let mut zero = host.pass().expect(&rt, "no pass was handed out");
    let mut one = host.pass().expect(&rt, "one pass was handed out");
    sends(&host);
    sends(&zero);

    let (root, child) = (first(&layout), second(&layout));
    let (failed, busy) = (HoldStop::ReadFault, HoldStop::Busy);
    assert!(rt; is_stopped(&rt, alloc, &mut zero, &mut files, &layout, root, failed));
    let number = fault(&rt, alloc, &mut zero, &mut files, &layout, root);
    assert!(rt; number.expect(&rt, "the file is read again") == 3);
    let number = fault(&rt, alloc, &mut one, &mut files, &layout, root);
    assert!(rt; number.expect(&rt, "a frame has the root") == 3 && files.fetches == 2);
    one.unpin(&rt);
    assert!(rt; is_stopped(&rt, alloc, &mut one, &mut files, &layout, child, busy));
    zero.unpin(&rt);
    let number = fault(&rt, alloc, &mut one, &mut files, &layout, child);
    assert!(rt; number.expect(&rt, "the frame is free") == 3 && files.fetches == 3);
    one.unpin(&rt);
    Ok(())
}
