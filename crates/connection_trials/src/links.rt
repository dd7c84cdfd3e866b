// What no clause says of a link that fails: that the pass holds no frame afterwards.
ghost use Rattle.std.specs.Prelude.{◌≡◌, ◌≤◌, None, length};
ghost use Rattle.std.specs.List.{All};
ghost use Rattle.viewer_session.specs.Starts.{IsNewPass};

use crate::scenes::{SmallTileset, next_viewers};
use crate::talks::talk_with;
use http_connection::{ServedEnd, Viewers};
use std::alloc::Global;
use std::sync::Wait;
use std::test::Fail;
use viewer_session::{Scene, Started, ViewerPass};

const TWO: &[u8] =
    b"GET /tiles?level=1&lo=0,0&hi=1,1 HTTP/1.1\r\n\r\nGET /prefix?level=1&lo=0,0&hi=1,1 HTTP/1.1\r\n\r\n";

const OTHER: &[u8] = b"GET /tiles?level=2&lo=0,0&hi=3,3 HTTP/1.1\r\n\r\n";

// Viewers whose link has failed, at any take or give, have given a front of their replies. They hold no frame, of which
// there is one: others would be told that all are in use.
fn holds_none<V: Viewers, W: Viewers>(
    alloc: Global,
    first: &mut V,
    other: &mut W,
) -> Result<bool, Fail> {
    let (_, whole) = talk_with(alloc, first, TWO, 10000, 0)?;
    // One take has both requests, each reply is one give, and the fourth call finds the end.
    for failing in 1..5u64 {
        let (served, written) = talk_with(alloc, first, TWO, 10000, failing)?;
        if served.end != ServedEnd::LinkFault || !whole.starts_with(written.as_str()) {
            return Ok(false);
        }
        let (served, written) = talk_with(alloc, other, OTHER, 10000, 0)?;
        if served.replies != 1 || !written.ends_with("\nend\tcomplete\t21\n") {
            return Ok(false);
        }
    }
    Ok(true)
}

// The same of viewers with the last two of these passes.
fn viewers_hold_none<R: Wait>(
    rt: &R,
    alloc: Global,
    scene: &Scene,
    passes: &mut Vec<ViewerPass>,
) -> Result<bool, Fail>
    requires some { 2 ≤ length passes.old.items }
    requires passes { All (IsNewPass scene.now) passes.old.items }
    requires told { scene.now.tileset.told ≡ None }
{
    let mut first = next_viewers(rt, alloc, scene, passes);
    let mut other = next_viewers(rt, alloc, scene, passes);
    holds_none(alloc, &mut first, &mut other)
}

#[test]
fn viewers_whose_link_failed_hold_no_frame(rt: HostRuntime) -> Result<(), Fail> {
    let mut files = SmallTileset { fetches: 0 };
    let Ok(
        Started {
            scene,
            mut passes,
            ..
        },
    ) = Scene::start(rt.alloc(), &mut files, 2, 1)
    else {
        return Err(Fail::new("the scene starts"));
    };
    assert!(rt; viewers_hold_none(&rt, rt.alloc(), &scene, &mut passes)?);
    Ok(())
}
