// What no clause says: with ample memory lines are read and texts are given, and an outlet that fails has got a front.
ghost use Rattle.std.specs.Prelude.{◌≤◌, IfOk, IsTrue, vec_len};
ghost use Rattle.std.specs.List.{All};
ghost use Rattle.implicit_tiling.specs.Code.{IsWord};
ghost use Rattle.tile_coords.specs.Ends.{EndsAtRoot};

use request_text::{
    answer_length, is_coordinates, is_number, parse_line, write_answer, write_check, write_made,
    write_refusal, write_survey,
};
use scene_ports::{GiveFault, MemoryLink};
use std::alloc::{AllocError, Global};
use std::test::Fail;
use tile_coords::{CheckEnd, FoundFault, Scheme, WalkEnd, Word};
use tile_word::{tile_of, word_at};
use tileset_json::Layout;
use uri_template::Template;

fn template(alloc: Global, text: &str) -> Result<Template, Fail> {
    Ok(Template::new(String::from_str(alloc, text)?)?)
}

fn contents(alloc: Global) -> Result<Vec<Template>, Fail>
    ensures { IfOk result (λ v. vec_len v ≤ 16) }
{
    let mut contents = Vec::new(alloc);
    contents.push(template(alloc, "a{level}.{x}.{y}")?)?;
    contents.push(template(alloc, "{z}b")?)?;
    Ok(contents)
}

// Three levels and two contents.
fn quadtree(alloc: Global) -> Result<Layout, Fail> {
    Ok(Layout {
        scheme: Scheme::Quad,
        subtree_levels: 2,
        levels: 3,
        subtree: template(alloc, "{level}")?,
        contents: contents(alloc)?,
    })
}

fn octree(alloc: Global) -> Result<Layout, Fail> {
    Ok(Layout {
        scheme: Scheme::Oct,
        subtree_levels: 2,
        levels: 3,
        subtree: template(alloc, "{level}")?,
        contents: contents(alloc)?,
    })
}

#[test]
fn lines_are_plans_or_refused(rt: HostRuntime) -> Result<(), Fail> {
    let alloc = rt.alloc();
    let quadtree = quadtree(alloc)?;
    let octree = octree(alloc)?;
    let rows: [(&str, Option<u64>, Option<u64>); 28] = [
        ("2 0,1 3,2", None, Some(2)),
        ("0 0,0 0,0", None, Some(2)),
        ("2 0,1,3 3,2,3", Some(2), None),
        ("", Some(1), Some(1)),
        ("2 0,1", Some(1), Some(1)),
        ("2 0,1 ", Some(1), Some(1)),
        (" 2 0,1 3,2", Some(1), Some(1)),
        ("2 0,1 3,2 ", Some(1), Some(1)),
        ("2  0,1 3,2", Some(1), Some(1)),
        ("2\t0,1 3,2", Some(1), Some(1)),
        ("2 0,1 3,2\r", Some(1), Some(1)),
        ("2 0,1 3,2 1,1", Some(1), Some(1)),
        ("02 0,1 3,2", Some(1), Some(1)),
        ("2 0,01 3,2", Some(1), Some(1)),
        ("+2 0,1 3,2", Some(1), Some(1)),
        ("2 -0,1 3,2", Some(1), Some(1)),
        ("2 0 3", Some(1), Some(1)),
        ("2 0,,1 3,2", Some(1), Some(1)),
        ("2 0,1,2,3 3,2,3,3", Some(1), Some(1)),
        ("4294967296 0,0 0,0", Some(1), Some(1)),
        ("2 0,0 0,4294967296", Some(1), Some(1)),
        ("4294967295 1,0,0 0,0", Some(2), Some(2)),
        ("4294967295 1,0 0,0", Some(3), Some(2)),
        ("3 0,0,0 8,0,0", Some(2), Some(3)),
        ("1 1,0 0,2", Some(4), Some(2)),
        ("1 0,0,1 2,0,0", Some(2), Some(4)),
        ("1 0,0 0,4294967295", Some(5), Some(2)),
        ("1 0,0,0 1,1,2", Some(2), Some(5)),
    ];
    for (line, in_quadtree, in_octree) in rows {
        assert!(rt; parse_line(&quadtree, line.as_bytes()).err() == in_quadtree);
        assert!(rt; parse_line(&octree, line.as_bytes()).err() == in_octree);
    }
    let plan = parse_line(&octree, b"2 0,1,2 3,2,3".as_slice()).expect(&rt, "a plan");
    assert!(rt; plan.scheme == Scheme::Oct && plan.region.level == 2);
    assert!(rt; plan.region.lo == [0, 1, 2] && plan.region.hi == [3, 2, 3]);
    assert!(rt; is_number(b"4294967295".as_slice()) && !is_number(b"".as_slice()));
    assert!(rt; is_coordinates(b"0,10,0".as_slice()) && !is_coordinates(b"0".as_slice()));
    Ok(())
}

fn are_words(scheme: Scheme, words: &[Word]) -> bool
    ensures { IsTrue result → All (IsWord scheme) words.now }
{
    words.iter().all(|word| tile_of(scheme, *word).is_some())
}

fn have_words(scheme: Scheme, found: &[FoundFault]) -> bool
    ensures { IsTrue result → All (λ f. IsWord scheme f.root) found.now }
{
    found
        .iter()
        .all(|fault| tile_of(scheme, fault.root).is_some())
}

fn ends_at_root(scheme: Scheme, end: &WalkEnd) -> bool
    ensures { IsTrue result → EndsAtRoot scheme end.now }
{
    match end {
        WalkEnd::Fault { root, .. } => match tile_of(scheme, *root) {
            Some(found) => found.mask == 0,
            None => false,
        },
        _ => true,
    }
}

// A link whose gives of these numbers fail.
fn link(alloc: Global, failing: &[u64]) -> Result<MemoryLink, AllocError> {
    let failing = Vec::from_slice(alloc, failing)?;
    Ok(MemoryLink::new(alloc, Vec::new(alloc), 1, failing))
}

// The text of an answer. None where a word is none.
fn answer_to(
    alloc: Global,
    layout: &Layout,
    words: &[Word],
    end: &WalkEnd,
    link: &mut MemoryLink,
) -> Option<Result<(), GiveFault>> {
    if !are_words(layout.scheme, words) || !ends_at_root(layout.scheme, end) {
        return None;
    }
    Some(write_answer(alloc, layout, words, *end, link))
}

fn length_of(layout: &Layout, words: &[Word], end: &WalkEnd) -> Option<u64> {
    if !are_words(layout.scheme, words)
        || !ends_at_root(layout.scheme, end)
        || words.len() > 65536
    {
        return None;
    }
    Some(answer_length(layout, words, *end))
}

fn check_to(
    alloc: Global,
    scheme: Scheme,
    found: &[FoundFault],
    end: CheckEnd,
    link: &mut MemoryLink,
) -> Option<Result<(), GiveFault>> {
    if !have_words(scheme, found) {
        return None;
    }
    Some(write_check(alloc, scheme, found, end, link))
}

// A walk that ends at the tile (1, 1, 1), or (1, 1, 1, 0).
fn fault_16() -> WalkEnd {
    WalkEnd::Fault {
        root: word_at(1, 3, 0),
        number: 16,
    }
}

#[test]
fn texts_of_answers(rt: HostRuntime) -> Result<(), Fail> {
    let alloc = rt.alloc();
    let quadtree = quadtree(alloc)?;
    let octree = octree(alloc)?;
    // the root with no content, then the tiles (2,3,1) with one or both
    let words = [
        word_at(0, 0, 0),
        word_at(2, 7, 1),
        word_at(2, 7, 2),
        word_at(2, 7, 3),
    ];
    let rows: [(&Layout, WalkEnd, &str); 5] = [
        (
            &quadtree,
            WalkEnd::Complete,
            "0\t0\t0\n2\t3\t1\ta2.3.1\n2\t3\t1\t{z}b\n2\t3\t1\ta2.3.1\t{z}b\nend\tcomplete\t4\n",
        ),
        (
            &quadtree,
            WalkEnd::Partial,
            "0\t0\t0\n2\t3\t1\ta2.3.1\n2\t3\t1\t{z}b\n2\t3\t1\ta2.3.1\t{z}b\nend\tpartial\t4\n",
        ),
        (
            &quadtree,
            fault_16(),
            "0\t0\t0\n2\t3\t1\ta2.3.1\n2\t3\t1\t{z}b\n2\t3\t1\ta2.3.1\t{z}b\nend\tfault\t4\t16\t1\t1\t1\n",
        ),
        (
            &octree,
            WalkEnd::TooMany,
            "0\t0\t0\t0\n2\t1\t1\t1\ta2.1.1\n2\t1\t1\t1\t1b\n2\t1\t1\t1\ta2.1.1\t1b\nend\ttoo-many\t4\n",
        ),
        (
            &octree,
            fault_16(),
            "0\t0\t0\t0\n2\t1\t1\t1\ta2.1.1\n2\t1\t1\t1\t1b\n2\t1\t1\t1\ta2.1.1\t1b\nend\tfault\t4\t16\t1\t1\t1\t0\n",
        ),
    ];
    for (layout, end, wanted) in rows {
        let mut link = link(alloc, &[])?;
        assert!(rt; answer_to(alloc, layout, &words, &end, &mut link) == Some(Ok(())));
        assert!(rt; length_of(layout, &words, &end) == Some(wanted.len() as u64));
        assert!(rt; link.written() == wanted.as_bytes());
    }
    Ok(())
}

#[test]
fn texts_of_checks_and_refusals(rt: HostRuntime) -> Result<(), Fail> {
    let alloc = rt.alloc();
    let found = [
        FoundFault {
            root: word_at(1, 2, 0),
            number: 3,
        },
        FoundFault {
            root: word_at(2, 7, 0),
            number: 18,
        },
    ];
    let rows: [(Scheme, u64, bool, &str); 2] = [
        (
            Scheme::Quad,
            5,
            false,
            "fault\t3\t1\t0\t1\nfault\t18\t2\t3\t1\nend\tchecked\t5\t2\n",
        ),
        (
            Scheme::Oct,
            65536,
            true,
            "fault\t3\t1\t0\t1\t0\nfault\t18\t2\t1\t1\t1\nend\ttoo-many\t65536\t2\n",
        ),
    ];
    for (scheme, looked, more, wanted) in rows {
        let mut link = link(alloc, &[])?;
        let end = CheckEnd { looked, more };
        assert!(rt; check_to(alloc, scheme, &found, end, &mut link) == Some(Ok(())));
        assert!(rt; link.written() == wanted.as_bytes());
    }
    let mut link = link(alloc, &[2])?;
    assert!(rt; write_refusal(alloc, 4, &mut link) == Ok(()));
    assert!(rt; write_refusal(alloc, 4, &mut link) == Err(GiveFault::WriteFault));
    assert!(rt; link.written() == b"refused\t4\n".as_slice());
    Ok(())
}

#[test]
fn texts_of_made_tilesets(rt: HostRuntime) -> Result<(), Fail> {
    let alloc = rt.alloc();
    let rows: [([u64; 4], bool, &str); 3] = [
        (
            [4, 3, 2, 0],
            false,
            "made\t4\t3\nsurvey\t4\t3\t2\t0\tcomplete\n",
        ),
        (
            [86_003, 251_012, 65_536, 524_288],
            true,
            "made\t86003\t251012\nsurvey\t86003\t251012\t65536\t524288\ttoo-many\n",
        ),
        (
            [2, 1, 1, u64::MAX],
            false,
            "made\t2\t1\nsurvey\t2\t1\t1\t18446744073709551615\tcomplete\n",
        ),
    ];
    for ([files, tiles, listed, contents], more, wanted) in rows {
        let mut link = link(alloc, &[3, 4])?;
        assert!(rt; write_made(alloc, files, tiles, &mut link) == Ok(()));
        let given = write_survey(alloc, files, tiles, listed, contents, more, &mut link);
        assert!(rt; given == Ok(()));
        let failed = write_made(alloc, files, tiles, &mut link);
        assert!(rt; failed == Err(GiveFault::WriteFault));
        let failed = write_survey(alloc, files, tiles, listed, contents, more, &mut link);
        assert!(rt; failed == Err(GiveFault::WriteFault));
        assert!(rt; link.written() == wanted.as_bytes());
    }
    Ok(())
}

#[test]
fn an_outlet_that_fails_has_a_front(rt: HostRuntime) -> Result<(), Fail> {
    let alloc = rt.alloc();
    let quadtree = quadtree(alloc)?;
    let words = Vec::from_elem(alloc, word_at(2, 7, 0), 6000)?;
    let mut whole = link(alloc, &[])?;
    let mut front = link(alloc, &[2])?;
    assert!(rt;
        answer_to(alloc, &quadtree, &words, &WalkEnd::Complete, &mut whole) == Some(Ok(()))
    );
    let failed = answer_to(alloc, &quadtree, &words, &WalkEnd::Complete, &mut front);
    assert!(rt; failed == Some(Err(GiveFault::WriteFault)));
    assert!(rt; whole.written().starts_with(front.written()));
    assert!(rt; front.written().len() == 32772 && whole.written().len() == 36018);
    Ok(())
}
