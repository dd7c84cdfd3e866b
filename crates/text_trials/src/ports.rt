// What no clause says: that calls succeed with ample memory, which calls `failing` names, and what the adapters of the
// real world do.
use scene_ports::{
    FULL, Fetch, FileKeeper, FileSource, Folder, Give, GiveFault, Inlet, MOST_FILE_BYTES,
    MemoryFiles, MemoryKeeper, MemoryLink, Outlet, Put, ReadInlet, SureFiles, SureKeeper, Take,
    WriteOutlet, give_all, give_rest, give_when_full,
};
use std::alloc::{AllocError, Global};
use std::fs::Permissions;
use std::io::{ErrorKind, Read, Write};
use std::os::unix::fs::{PermissionsExt, symlink};
use std::test::Fail;
use std::{fs, io};

fn pair(alloc: Global, name: &str, bytes: &[u8]) -> Result<(String, Vec<u8>), AllocError> {
    Ok((
        String::from_str(alloc, name)?,
        Vec::from_slice(alloc, bytes)?,
    ))
}

#[test]
fn files_in_memory(rt: HostRuntime) -> Result<(), Fail> {
    let alloc = rt.alloc();
    let twice = vec![in alloc;
        pair(alloc, "a", b"1")?,
        pair(alloc, "b", b"")?,
        pair(alloc, "a", b"2")?,
    ]?;
    assert!(rt; MemoryFiles::new(twice, Vec::new(alloc)).is_none());
    let files = vec![in alloc; pair(alloc, "a", b"xyz")?, pair(alloc, "b", b"")?]?;
    let mut source = MemoryFiles::new(files, vec![in alloc; 2]?).expect(&rt, "distinct names");
    let mut out = vec![in alloc; 7]?;
    let rows: [(&str, usize, Fetch, usize); 6] = [
        ("a", 3, Fetch::Whole, 3),
        ("a", 3, Fetch::Failed, 0),
        ("a", 3, Fetch::Whole, 3),
        ("a", 2, Fetch::TooLong, 0),
        ("c", 2, Fetch::Missing, 0),
        ("b", 0, Fetch::Whole, 0),
    ];
    for (name, limit, wanted, length) in rows {
        assert!(rt; source.fetch(name, limit, &mut out) == wanted);
        assert!(rt; out.len() == length);
    }
    Ok(())
}

#[test]
fn files_that_never_fail(rt: HostRuntime) -> Result<(), Fail> {
    let alloc = rt.alloc();
    let twice = vec![in alloc;
        pair(alloc, "a", b"1")?,
        pair(alloc, "b", b"")?,
        pair(alloc, "a", b"2")?,
    ]?;
    assert!(rt; SureFiles::new(twice).is_none());
    let files = vec![in alloc;
        pair(alloc, "b", b"")?,
        pair(alloc, "ab", b"12")?,
        pair(alloc, "a", b"xyz")?,
    ]?;
    let mut source = SureFiles::new(files).expect(&rt, "distinct names");
    let mut out = vec![in alloc; 7]?;
    let rows: [(&str, usize, Fetch, usize); 5] = [
        ("a", 3, Fetch::Whole, 3),
        ("a", 2, Fetch::TooLong, 0),
        ("c", 2, Fetch::Missing, 0),
        ("b", 0, Fetch::Whole, 0),
        ("ab", 3, Fetch::Whole, 2),
    ];
    for (name, limit, wanted, length) in rows {
        assert!(rt; source.fetch(name, limit, &mut out) == wanted);
        assert!(rt; out.len() == length);
    }
    Ok(())
}

#[test]
fn a_keeper_in_memory(rt: HostRuntime) -> Result<(), Fail> {
    let alloc = rt.alloc();
    let mut keeper = MemoryKeeper::new(alloc, vec![in alloc; 3]?);
    let rows: [(&str, &[u8], Put); 4] = [
        ("a", b"1", Put::Kept),
        ("b", b"2", Put::Kept),
        ("c", b"3", Put::Failed),
        ("a", b"4", Put::Kept),
    ];
    for (name, bytes, wanted) in rows {
        assert!(rt; keeper.put(name, bytes) == wanted);
    }
    let files = keeper.files();
    assert!(rt; files.len() == 2);
    assert!(rt; files[0].0.as_str() == "a" && files[0].1.as_slice() == b"4".as_slice());
    assert!(rt; files[1].0.as_str() == "b" && files[1].1.as_slice() == b"2".as_slice());
    Ok(())
}

#[test]
fn a_keeper_that_never_fails(rt: HostRuntime) -> Result<(), Fail> {
    let alloc = rt.alloc();
    let mut keeper = SureKeeper::new(alloc);
    let rows: [(&str, &[u8]); 4] = [("b", b"1"), ("a", b"2"), ("c", b""), ("b", b"3")];
    for (name, bytes) in rows {
        assert!(rt; keeper.put(name, bytes) == Put::Kept);
    }
    let wanted: [(&str, &[u8]); 3] = [("b", b"3"), ("a", b"2"), ("c", b"")];
    let files = keeper.into_files();
    assert!(rt; files.len() == wanted.len());
    for (at, (name, bytes)) in wanted.into_iter().enumerate() {
        assert!(rt; files[at].0.as_str() == name && files[at].1.as_slice() == bytes);
    }
    Ok(())
}

#[test]
fn a_link_in_memory(rt: HostRuntime) -> Result<(), Fail> {
    let alloc = rt.alloc();
    let mut link = MemoryLink::new(alloc, vec![in alloc; 5, 6, 7]?, 2, vec![in alloc; 2, 5]?);
    let mut buffer = [0u8; 8];
    assert!(rt; link.take(&mut buffer) == Take::Got(2));
    assert!(rt; buffer[0] == 5 && buffer[1] == 6);
    assert!(rt; link.give(b"abc") == Give::Failed);
    assert!(rt; link.give(b"abc") == Give::Took(3));
    assert!(rt; link.take(&mut buffer) == Take::Got(1));
    assert!(rt; link.take(&mut buffer) == Take::Failed);
    assert!(rt; link.take(&mut buffer) == Take::End);
    assert!(rt; link.written() == b"abc".as_slice());
    Ok(())
}

// As a caller gives a text of many lines in few pieces.
fn give_lines<O: Outlet>(
    out: &mut O,
    alloc: Global,
    line: &str,
    count: u32,
) -> Result<(), GiveFault> {
    let mut piece = String::new(alloc);
    for _ in 0..count {
        piece.push_str(line)?;
        give_when_full(out, &mut piece)?;
    }
    give_rest(out, &mut piece)
}

#[test]
fn lines_are_given_in_pieces(rt: HostRuntime) -> Result<(), Fail> {
    let alloc = rt.alloc();
    let mut link = MemoryLink::new(alloc, Vec::new(alloc), 1, vec![in alloc; 4]?);
    // two full pieces and a rest are three gives, and the fourth fails
    let count = (FULL as u32 / 8) * 2 + 1;
    assert!(rt; give_lines(&mut link, alloc, "a line.\n", count) == Ok(()));
    assert!(rt; link.written().len() == 8 * count as usize);
    assert!(rt; give_all(&mut link, b"more") == Err(GiveFault::WriteFault));
    Ok(())
}

#[test]
fn the_folder_and_the_streams(rt: HostRuntime) -> Result<(), Fail> {
    let alloc = rt.alloc();
    let mut folder = Folder::here(alloc, rt.clone()?);
    fs::create_dir(&rt, "deep")?;
    let long = Vec::from_elem(alloc, 9, 200_000)?;
    let puts: [(&str, &[u8], Put); 12] = [
        ("a b", b"1", Put::Kept),
        ("a%20b", b"234", Put::Kept),
        ("deep/c", &long, Put::Kept),
        ("deep", b"5", Put::Failed),
        ("none/c", b"5", Put::Failed),
        ("deep/../d", b"5", Put::Failed),
        ("%2Fd", b"5", Put::Failed),
        ("", b"5", Put::Failed),
        ("a..b", b"67", Put::Kept),
        ("%FF", b"5", Put::Failed),
        ("%2e%2e/x", b"5", Put::Failed),
        ("a%00b", b"5", Put::Failed),
    ];
    for (name, bytes, wanted) in puts {
        assert!(rt; folder.put(name, bytes) == wanted);
    }
    let mut out = Vec::new(alloc);
    let fetches: [(&str, usize, Fetch, &[u8]); 13] = [
        ("a%20b", MOST_FILE_BYTES, Fetch::Whole, b"234"),
        ("a b", 2, Fetch::TooLong, b""),
        ("deep/c", 200_000, Fetch::Whole, &long),
        ("deep/c", 199_999, Fetch::TooLong, b""),
        ("d", MOST_FILE_BYTES, Fetch::Missing, b""),
        ("none/c", MOST_FILE_BYTES, Fetch::Missing, b""),
        ("deep", MOST_FILE_BYTES, Fetch::Failed, b""),
        ("a b/c", MOST_FILE_BYTES, Fetch::Failed, b""),
        ("deep/%2e%2e/a b", MOST_FILE_BYTES, Fetch::Missing, b""),
        ("a..b", MOST_FILE_BYTES, Fetch::Whole, b"67"),
        ("%FF", MOST_FILE_BYTES, Fetch::Missing, b""),
        ("%2e%2e/x", MOST_FILE_BYTES, Fetch::Missing, b""),
        ("a%00b", MOST_FILE_BYTES, Fetch::Missing, b""),
    ];
    for (name, limit, wanted, bytes) in fetches {
        assert!(rt; folder.fetch(name, limit.min(MOST_FILE_BYTES), &mut out) == wanted);
        assert!(rt; out.as_slice() == bytes);
    }
    let mut outlet = WriteOutlet::new(fs::create(&rt, "stream")?);
    assert!(rt; outlet.give(b"xyz") == Give::Took(3));
    let mut inlet = ReadInlet::new(fs::open(&rt, "stream")?);
    let mut buffer = [0u8; 2];
    assert!(rt; inlet.take(&mut buffer) == Take::Got(2));
    assert!(rt; buffer == *b"xy");
    assert!(rt; inlet.take(&mut buffer) == Take::Got(1));
    assert!(rt; inlet.take(&mut buffer) == Take::End);
    fs::remove_file(&rt, "a b")?;
    fs::remove_file(&rt, "a..b")?;
    fs::remove_file(&rt, "deep/c")?;
    fs::remove_file(&rt, "stream")?;
    fs::remove_dir(&rt, "deep")?;
    Ok(())
}

// A reader and a writer that fail in one way.
#[derive(Drop)]
struct Failing {
    kind: ErrorKind,
}

impl Read for Failing {
    fn read(&mut self, buffer: &mut [u8]) -> io::Result<usize> {
        let _ = buffer;
        Err(io::Error::from(self.kind))
    }
}

impl Write for Failing {
    fn write(&mut self, bytes: &[u8]) -> io::Result<usize> {
        let _ = bytes;
        Err(io::Error::from(self.kind))
    }

    fn flush(&mut self) -> io::Result<()> {
        Ok(())
    }
}

#[test]
fn streams_that_fail(rt: HostRuntime) -> Result<(), Fail> {
    let rows = [
        (ErrorKind::OutOfMemory, Give::Memory),
        (ErrorKind::BrokenPipe, Give::Failed),
        (ErrorKind::StorageFull, Give::Failed),
    ];
    for (kind, wanted) in rows {
        let mut outlet = WriteOutlet::new(Failing { kind });
        assert!(rt; outlet.give(b"xyz") == wanted);
        assert!(rt; outlet.give(b"") == wanted);
        let mut inlet = ReadInlet::new(Failing { kind });
        let mut buffer = [0u8; 2];
        assert!(rt; inlet.take(&mut buffer) == Take::Failed);
    }
    Ok(())
}

// A name is decoded once, and the file of the decoded name itself is opened, within the folder.
#[test]
fn the_folder_opens_the_path_of_the_name(rt: HostRuntime) -> Result<(), Fail> {
    let alloc = rt.alloc();
    let mut folder = Folder::here(alloc, rt.clone()?);
    fs::create_dir(&rt, "%2e%2e")?;
    let names: [(&str, &str); 4] = [
        ("x", "x"),
        ("y%20z", "y z"),
        ("%252e%252e/x", "%2e%2e/x"),
        ("a%2520b", "a%20b"),
    ];
    let mut out = Vec::new(alloc);
    for (name, path) in names {
        assert!(rt; folder.put(name, path.as_bytes()) == Put::Kept);
        let bytes = fs::read(&rt, path)?;
        assert!(rt; bytes.as_slice() == path.as_bytes());
        assert!(rt; folder.fetch(name, MOST_FILE_BYTES, &mut out) == Fetch::Whole);
        assert!(rt; out.as_slice() == path.as_bytes());
    }
    for name in [
        "../view_x",
        "%2e%2e/view_x",
        "%2E./view_x",
        "%2e%2e/../view_x",
    ] {
        assert!(rt; folder.put(name, b"1") == Put::Failed);
        assert!(rt; folder.fetch(name, MOST_FILE_BYTES, &mut out) == Fetch::Missing);
    }
    assert!(rt; !fs::exists(&rt, "../view_x")?);
    for (_, path) in names {
        fs::remove_file(&rt, path)?;
    }
    fs::remove_dir(&rt, "%2e%2e")?;
    Ok(())
}

// What the system refuses is never told as missing, and of a put that failed in mid-writing nothing stays.
#[test]
fn the_folder_where_the_system_refuses(rt: HostRuntime) -> Result<(), Fail> {
    let alloc = rt.alloc();
    let mut folder = Folder::here(alloc, rt.clone()?);
    let mut out = Vec::new(alloc);
    // Who may read everything reads it.
    assert!(rt; folder.put("closed", b"12") == Put::Kept);
    fs::set_permissions(&rt, "closed", Permissions::from_mode(0))?;
    let answer = folder.fetch("closed", MOST_FILE_BYTES, &mut out);
    assert!(rt;
        answer == Fetch::Failed || answer == Fetch::Whole && out.as_slice() == b"12".as_slice()
    );
    // A link to itself.
    symlink(&rt, "round", "round")?;
    assert!(rt; folder.fetch("round", MOST_FILE_BYTES, &mut out) == Fetch::Failed);
    assert!(rt; folder.put("round", b"1") == Put::Failed);
    // A name that is longer than a file may have.
    let long = String::from_utf8(Vec::from_elem(alloc, b'a', 300)?);
    if let Ok(long) = &long {
        assert!(rt; folder.fetch(long.as_str(), MOST_FILE_BYTES, &mut out) == Fetch::Failed);
    }
    // A device that is full: the write fails after the file was opened.
    symlink(&rt, "/dev/full", "full")?;
    assert!(rt; folder.put("full", b"1") == Put::Failed);
    assert!(rt; folder.fetch("full", MOST_FILE_BYTES, &mut out) == Fetch::Missing);
    // A file that can't be opened is left as it is.
    fs::create_dir(&rt, "taken")?;
    assert!(rt; folder.put("taken", b"1") == Put::Failed);
    fs::remove_dir(&rt, "taken")?;
    fs::remove_file(&rt, "round")?;
    fs::remove_file(&rt, "closed")?;
    Ok(())
}
