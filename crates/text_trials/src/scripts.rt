// What no clause says: with ample memory lines are read as the table has them, and replies are given.
ghost use Rattle.std.specs.Prelude.{IsTrue};
ghost use Rattle.std.specs.List.{All};
ghost use Rattle.implicit_tiling.specs.Code.{IsWord};

use replay_script::{Event, MOST_PAGE, Reply, next_event, read_event, write_reply};
use scene_ports::{GiveFault, MemoryLink, give_rest};
use std::alloc::{AllocError, Global};
use std::test::Fail;
use tile_coords::{Scheme, WalkEnd, Word};
use tile_word::{tile_of, word_at};
use tileset_json::Layout;

// Three levels, in subtrees of two, without contents.
const TILESET: &str =
    "{\"root\":{\"implicitTiling\":{\"subdivisionScheme\":\"QUADTREE\",\"subtreeLevels\":2,\
    \"availableLevels\":3,\"subtrees\":{\"uri\":\"all.subtree\"}}}}";

#[test]
fn lines_are_events_or_bad(rt: HostRuntime) -> Result<(), Fail> {
    let layout = Layout::read(rt.alloc(), TILESET.as_bytes())
        .ok()
        .expect(&rt, "a layout");
    let rows: [(&str, Event<()>); 12] = [
        ("claim 0", Event::Claim { pass: 0 }),
        ("pin 4294967295", Event::Pin { pass: u32::MAX }),
        ("load 10", Event::Load { pass: 10, read: () }),
        ("fail 1", Event::Fail { pass: 1 }),
        ("commit 2", Event::Commit { pass: 2 }),
        ("drop 3", Event::Drop { pass: 3 }),
        ("page 0 0", Event::Page { pass: 0, count: 0 }),
        (
            "page 4294967295 65536",
            Event::Page {
                pass: u32::MAX,
                count: MOST_PAGE,
            },
        ),
        ("attach 0 9 0,0 0,0", refused(0, 3)),
        ("attach 4294967295 1 0,0,0 1,1,1", refused(u32::MAX, 2)),
        ("attach 7 ", refused(7, 1)),
        ("attach 7 2 0,0 3,3 ", refused(7, 1)),
    ];
    for (line, event) in rows {
        assert!(rt; read_event(&layout, line.as_bytes()) == event);
    }
    let bad = [
        "",
        " ",
        "jump",
        "claim",
        "claim ",
        "claim  0",
        " claim 0",
        "claim 0 ",
        "claim 0 1",
        "claim\t0",
        "claim 0\r",
        "claims 0",
        "Claim 0",
        "claim 00",
        "claim +1",
        "claim 4294967296",
        "attach",
        "attach 0",
        "attach 01 1 0,0 1,1",
        "attach 4294967296 1 0,0 1,1",
        "page 0",
        "page 0 ",
        "page 0 01",
        "page 0 1 2",
        "page 0 65537",
        "page 0 4294967296",
    ];
    for line in bad {
        assert!(rt; read_event(&layout, line.as_bytes()) == Event::Bad);
    }
    match read_event(&layout, b"attach 1 1 0,1 1,1".as_slice()) {
        Event::Attach {
            pass: 1,
            asked: Ok(plan),
        } => {
            assert!(rt; plan.scheme == Scheme::Quad && plan.region.level == 1);
            assert!(rt; plan.region.lo == [0, 1, 0] && plan.region.hi == [1, 1, 0]);
        }
        _ => assert!(rt; false),
    }
    Ok(())
}

fn refused(pass: u32, number: u64) -> Event<()> {
    Event::Attach {
        pass,
        asked: Err(number),
    }
}

#[test]
fn an_input_is_cut_into_lines(rt: HostRuntime) -> Result<(), Fail> {
    let layout = Layout::read(rt.alloc(), TILESET.as_bytes())
        .ok()
        .expect(&rt, "a layout");
    // c for `claim 1`, r for a refused line of pass 2, and - for a bad line.
    let rows: [(&str, &str); 7] = [
        ("", ""),
        ("\n\r\n\r", "---"),
        ("claim 1", "c"),
        ("claim 1\r", "c"),
        ("claim 1\r\nclaim 1\nclaim 1\r\n", "ccc"),
        ("claim 1\nclaim 1\r\r\n", "c-"),
        ("attach 2 \r\n\nclaim 1", "r-c"),
    ];
    for (input, letters) in rows {
        let read = letters_of(rt.alloc(), &layout, input.as_bytes())?;
        assert!(rt; read.as_slice() == letters.as_bytes());
    }
    Ok(())
}

fn letters_of(alloc: Global, layout: &Layout, input: &[u8]) -> Result<Vec<u8>, AllocError> {
    let mut letters = Vec::new(alloc);
    let mut rest = input;
    while let Some((event, behind)) = next_event(layout, rest) {
        letters.push(letter_of(event))?;
        rest = behind;
    }
    Ok(letters)
}

fn letter_of(event: Event<()>) -> u8 {
    match event {
        Event::Claim { pass: 1 } => b'c',
        Event::Attach {
            pass: 2,
            asked: Err(1),
        } => b'r',
        Event::Bad => b'-',
        _ => b'?',
    }
}

fn are_words(scheme: Scheme, words: &[Word]) -> bool
    ensures { IsTrue result → All (IsWord scheme) words.now }
{
    words.iter().all(|word| tile_of(scheme, *word).is_some())
}

// Gives a reply and then what is held back. None where a word is none.
fn give(
    alloc: Global,
    layout: &Layout,
    reply: &Reply,
    link: &mut MemoryLink,
) -> Option<Result<(), GiveFault>> {
    if !are_words(layout.scheme, reply.words()) {
        return None;
    }
    let mut piece = String::new(alloc);
    let given = write_reply(layout, reply, &mut piece, link);
    if given.is_err() {
        return Some(given);
    }
    Some(give_rest(link, &mut piece))
}

#[test]
fn texts_of_replies(rt: HostRuntime) -> Result<(), Fail> {
    let alloc = rt.alloc();
    let layout = Layout::read(alloc, TILESET.as_bytes())
        .ok()
        .expect(&rt, "a layout");
    let mut words = Vec::new(alloc);
    for index in 1u64..4 {
        words.push(word_at(1, index, 0))?;
    }
    let fault = WalkEnd::Fault {
        root: word_at(0, 0, 0),
        number: 3,
    };
    let rows: [(Reply, &str); 19] = [
        (Reply::Bad, "bad\n"),
        (Reply::No, "no\n"),
        (Reply::Cursor(0), "cursor\t0\n"),
        (Reply::Refused(3), "refused\t3\n"),
        (Reply::Claimed, "claimed\n"),
        (Reply::End, "end\n"),
        (Reply::Out, "out\n"),
        (Reply::Hit(1), "hit\t1\n"),
        (Reply::Granted(1023), "granted\t1023\n"),
        (Reply::Loading, "loading\n"),
        (Reply::Busy, "busy\n"),
        (Reply::Loaded(0), "loaded\t0\n"),
        (Reply::Failed, "failed\n"),
        (Reply::Moved(u64::MAX), "moved\t18446744073709551615\n"),
        (Reply::Dropped, "dropped\n"),
        (page(0, Vec::new(alloc), fault), "page\t0\t0\tfault\n"),
        (
            page(5, Vec::new(alloc), WalkEnd::Complete),
            "page\t5\t0\tcomplete\n",
        ),
        (
            page(7, Vec::new(alloc), WalkEnd::TooMany),
            "page\t7\t0\ttoo-many\n",
        ),
        (
            page(2, words, WalkEnd::Partial),
            "page\t2\t3\tpartial\n1\t1\t0\n1\t0\t1\n1\t1\t1\n",
        ),
    ];
    for (reply, text) in &rows {
        let mut link = MemoryLink::new(alloc, Vec::new(alloc), 1, Vec::new(alloc));
        assert!(rt; give(alloc, &layout, reply, &mut link) == Some(Ok(())));
        assert!(rt; link.written() == text.as_bytes());
    }
    Ok(())
}

fn page(from: u64, words: Vec<Word>, end: WalkEnd) -> Reply {
    Reply::Page { from, words, end }
}
