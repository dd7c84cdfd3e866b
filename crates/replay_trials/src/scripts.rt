// What no clause says: with ample memory a script is played to its end. The replies were worked out by hand.
ghost use Rattle.std.specs.Prelude.{◌<◌, ◌-◌, ◌^◌};

use replay_run::play;
use scene_ports::{GiveFault, MemoryFiles, MemoryLink};
use std::alloc::{AllocError, Global};
use std::test::Fail;
use tileset_json::Layout;

// Three levels in subtrees of two, without contents.
const THREE_LEVELS: &str =
    "{\"root\":{\"implicitTiling\":{\"subdivisionScheme\":\"QUADTREE\",\"subtreeLevels\":2,\
    \"availableLevels\":3,\"subtrees\":{\"uri\":\"all.subtree\"}}}}";

// Two levels in one subtree, with one content.
const TWO_LEVELS: &str = "{\"root\":{\"content\":{\"uri\":\"c/{level}/{x}/{y}.glb\"},\
    \"implicitTiling\":{\"subdivisionScheme\":\"QUADTREE\",\"subtreeLevels\":2,\
    \"availableLevels\":2,\"subtrees\":{\"uri\":\"all.subtree\"}}}}";

// A subtree in which each tile is there, and the subtree of each child.
const ONES: &str =
    "{\"childSubtreeAvailability\":{\"constant\":1},\"tileAvailability\":{\"constant\":1}}";

fn file_of(alloc: Global, json: &str) -> Result<Vec<u8>, AllocError> {
    let json = json.as_bytes();
    let mut bytes = Vec::from_slice(alloc, b"subt".as_slice())?;
    bytes.extend_from_slice(1u32.to_le_bytes().as_slice())?;
    bytes.extend_from_slice((json.len() as u64).to_le_bytes().as_slice())?;
    bytes.extend_from_slice(0u64.to_le_bytes().as_slice())?;
    bytes.extend_from_slice(json)?;
    Ok(bytes)
}

// A source of one file, of which one fetch, counted from 1, fails.
fn source(alloc: Global, bytes: Vec<u8>, failing: u64) -> Result<Option<MemoryFiles>, AllocError> {
    let mut files = Vec::new(alloc);
    files.push((String::from_str(alloc, "all.subtree")?, bytes))?;
    let mut numbers = Vec::new(alloc);
    numbers.push(failing)?;
    Ok(MemoryFiles::new(files, numbers))
}

// Whether a script over one file, of which one fetch fails, has these replies. In lines and replies a bar stands for a
// TAB, so that they can be read.
fn replies(
    alloc: Global,
    tileset: &str,
    bytes: Vec<u8>,
    failing: u64,
    passes: usize,
    input: &str,
    wanted: &[&str],
) -> Result<bool, AllocError>
    requires { passes < 2 ^ 32 - 1 }
{
    let Ok(layout) = Layout::read(alloc, tileset.as_bytes()) else {
        return Ok(false);
    };
    let Some(mut files) = source(alloc, bytes, failing)? else {
        return Ok(false);
    };
    let mut link = MemoryLink::new(alloc, Vec::new(alloc), 1, Vec::new(alloc));
    let end = play(
        alloc,
        &layout,
        1,
        passes,
        input.as_bytes(),
        &mut files,
        &mut link,
    );
    let mut text = Vec::new(alloc);
    for line in wanted {
        for byte in line.as_bytes() {
            text.push(if *byte == b'|' { b'\t' } else { *byte })?;
        }
        text.push(b'\n')?;
    }
    Ok(end == Ok(()) && link.written() == text.as_slice())
}

#[test]
fn two_passes_share_a_frame(rt: HostRuntime) -> Result<(), Fail> {
    let alloc = rt.alloc();
    let input =
        "attach 0 2 0,0 3,3\nattach 1 1 0,0 1,1\nclaim 0\nclaim 1\npin 0\npin 1\nload 0\npage 0 9\ncommit 0\n\
        claim 0\npin 0\ncommit 0\nclaim 0\npin 0\npin 1\nfail 0\npin 1\nload 1\ncommit 1\ndrop 0\npage 0 2\npage 0 9\n";
    let wanted = [
        "cursor|0",
        "cursor|1",
        "claimed",
        "claimed",
        "granted|0",
        "loading",
        "loaded|0",
        "page|0|0|partial",
        "moved|1",
        "claimed",
        "hit|0",
        "moved|5",
        "claimed",
        "granted|0",
        "busy",
        "failed",
        "granted|0",
        "loaded|0",
        "moved|1",
        "dropped",
        "page|0|2|partial",
        "0|0|0",
        "1|0|0",
        "page|2|3|partial",
        "1|1|0",
        "1|0|1",
        "1|1|1",
    ];
    assert!(rt;
        replies(
            alloc,
            THREE_LEVELS,
            file_of(alloc, ONES)?,
            0,
            2,
            input,
            wanted.as_slice()
        )?
    );
    Ok(())
}

#[test]
fn a_faulty_file_ends_a_cursor(rt: HostRuntime) -> Result<(), Fail> {
    let alloc = rt.alloc();
    let input =
        "attach 0 9 0,0 0,0\nattach 0 0 0,0 0,0\nclaim 5\nclaim 0\npin 0\nload 0\ncommit 0\nclaim 0\npage 0 1\njump";
    let wanted = [
        "refused|3",
        "cursor|0",
        "no",
        "claimed",
        "granted|0",
        "loaded|0",
        "moved|0",
        "end",
        "page|0|0|fault",
        "bad",
    ];
    let zeros = Vec::from_slice(alloc, b"\0\0\0".as_slice())?;
    assert!(rt; replies(alloc, TWO_LEVELS, zeros, 0, 1, input, wanted.as_slice())?);
    Ok(())
}

#[test]
fn a_script_goes_on_after_a_failed_read(rt: HostRuntime) -> Result<(), Fail> {
    let alloc = rt.alloc();
    let input =
        "attach 0 0 0,0 0,0\nload 0\nclaim 0\npin 0\nload 0\nload 0\npin 0\nload 0\ncommit 0\npage 0 9\n";
    let wanted = [
        "cursor|0",
        "no",
        "claimed",
        "granted|0",
        "failed",
        "no",
        "granted|0",
        "loaded|0",
        "moved|1",
        "page|0|1|complete",
        "0|0|0",
    ];
    assert!(rt;
        replies(
            alloc,
            THREE_LEVELS,
            file_of(alloc, ONES)?,
            1,
            1,
            input,
            wanted.as_slice()
        )?
    );
    Ok(())
}

#[test]
fn lines_of_all_kinds(rt: HostRuntime) -> Result<(), Fail> {
    let alloc = rt.alloc();
    let rows: [(&str, &[&str]); 8] = [
        ("", &[]),
        ("\n\r\n\r", &["bad", "bad", "bad"]),
        ("claim 0\r\nclaim 0", &["no", "no"]),
        (
            "claim 4294967295\nclaim 4294967296\nclaim 00",
            &["no", "bad", "bad"],
        ),
        (
            "page 4294967295 65536\npage 0 65537\npage 0",
            &["no", "bad", "bad"],
        ),
        (
            "claim\nclaim 0 1\n claim 0\nclaim 0 ",
            &["bad", "bad", "bad", "bad"],
        ),
        (
            "attach 0\nattach 0 \nattach 1 x",
            &["bad", "refused|1", "no"],
        ),
        ("load x\nfail\nload 1\nfail 0", &["bad", "bad", "no", "no"]),
    ];
    for (input, wanted) in rows {
        assert!(rt;
            replies(
                alloc,
                THREE_LEVELS,
                file_of(alloc, ONES)?,
                0,
                1,
                input,
                wanted
            )?
        );
    }
    Ok(())
}

#[test]
fn an_outlet_that_fails_stops_a_script(rt: HostRuntime) -> Result<(), Fail> {
    let alloc = rt.alloc();
    let layout = Layout::read(alloc, THREE_LEVELS.as_bytes())
        .ok()
        .expect(&rt, "a layout");
    let mut files = source(alloc, file_of(alloc, ONES)?, 0)?.expect(&rt, "a source");
    let mut failing = Vec::new(alloc);
    failing.push(1u64)?;
    let mut link = MemoryLink::new(alloc, Vec::new(alloc), 1, failing);
    let end = play(
        alloc,
        &layout,
        1,
        1,
        b"claim 0".as_slice(),
        &mut files,
        &mut link,
    );
    assert!(rt; end == Err(GiveFault::WriteFault) && link.written().is_empty());
    Ok(())
}
