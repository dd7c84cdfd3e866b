// What no clause says: with ample memory each row of the table of faults is met, what is no fault is read, and the names
// of the files that are needed are given. Of a member that stands twice the last counts, so each row states what it has
// besides a good file.
ghost use Rattle.std.specs.Prelude.{◌≡◌};

use std::alloc::{AllocError, Global};
use std::test::Fail;
use subtree_file::{BufferFile, DecodeFault, decode, needed_buffers};
use tile_coords::Tile;
use tileset_json::Layout;

// A quadtree of 4 levels in subtrees of 2.
const FOUR: &str =
    "{\"root\":{\"implicitTiling\":{\"subdivisionScheme\":\"QUADTREE\",\"subtreeLevels\":2,\"availableLevels\":4,\"subtrees\":{\"uri\":\"s\"}}}}";

// A quadtree of 2 levels in subtrees of 2, with a content.
const TWO: &str =
    "{\"root\":{\"content\":{\"uri\":\"c\"},\"implicitTiling\":{\"subdivisionScheme\":\"QUADTREE\",\"subtreeLevels\":2,\"availableLevels\":2,\"subtrees\":{\"uri\":\"s\"}}}}";

// An octree of 7 levels in subtrees of 7.
const OCTREE: &str =
    "{\"root\":{\"implicitTiling\":{\"subdivisionScheme\":\"OCTREE\",\"subtreeLevels\":7,\"availableLevels\":7,\"subtrees\":{\"uri\":\"s\"}}}}";

// A quadtree of 4 levels in subtrees of 2, whose subtree files stand in a folder.
const FOLDER: &str =
    "{\"root\":{\"implicitTiling\":{\"subdivisionScheme\":\"QUADTREE\",\"subtreeLevels\":2,\"availableLevels\":4,\"subtrees\":{\"uri\":\"a/b/{level}.{x}.{y}\"}}}}";

// The first view stands in the second buffer, the second view in the first.
const CROSSED: &str =
    "\"bufferViews\":[{\"buffer\":1,\"byteOffset\":0,\"byteLength\":1},{\"buffer\":0,\"byteOffset\":8,\"byteLength\":2}],\"tileAvailability\":{\"bitstream\":0},\"childSubtreeAvailability\":{\"bitstream\":1}";

const VIEWS: &str =
    "{\"buffers\":[{\"byteLength\":10}],\"bufferViews\":[{\"buffer\":0,\"byteOffset\":0,\"byteLength\":1},{\"buffer\":0,\"byteOffset\":8,\"byteLength\":2}],\"tileAvailability\":{\"bitstream\":0},\"childSubtreeAvailability\":{\"bitstream\":1}";

const ONE_VIEW: &str =
    "{\"buffers\":[{\"byteLength\":1}],\"bufferViews\":[{\"buffer\":0,\"byteOffset\":0,\"byteLength\":1}],\"childSubtreeAvailability\":{\"constant\":0},\"contentAvailability\":[{\"constant\":1}],\"tileAvailability\":{\"bitstream\":0}";

const MANY: &str =
    "{\"buffers\":[{\"byteLength\":37450}],\"childSubtreeAvailability\":{\"constant\":1},\"tileAvailability\":{\"bitstream\":0}";

const BINARY: [u8; 16] = [3, 0, 0, 0, 0, 0, 0, 0, 0xF0, 0, 0, 0, 0, 0, 0, 0];

const HEADER: [u8; 24] = [
    b's', b'u', b'b', b't', 1, 0, 0, 0, 0xFF, 0xFF, 0xFF, 0xFF, 0xFF, 0xFF, 0xFF, 0xFF, 0, 0, 0, 0,
    0, 0, 0, 0,
];

// A file of a good record, what it has besides, and a binary part.
fn pack(alloc: Global, stated: &str, besides: &str, binary: &[u8]) -> Result<Vec<u8>, AllocError> {
    let mut json = Vec::from_slice(alloc, stated.as_bytes())?;
    json.extend_from_slice(besides.as_bytes())?;
    json.push(b'}')?;
    file(alloc, &json, binary)
}

fn file(alloc: Global, json: &[u8], binary: &[u8]) -> Result<Vec<u8>, AllocError> {
    let mut bytes = Vec::from_slice(alloc, &HEADER[..8])?;
    bytes.extend_from_slice((json.len() as u64).to_le_bytes().as_slice())?;
    bytes.extend_from_slice((binary.len() as u64).to_le_bytes().as_slice())?;
    bytes.extend_from_slice(json)?;
    bytes.extend_from_slice(binary)?;
    Ok(bytes)
}

// The number of the fault of a file without any file beside it: 0 for none.
fn number(alloc: Global, tileset: &str, bytes: &[u8]) -> Result<u64, Fail> {
    let Ok(layout) = Layout::read(alloc, tileset.as_bytes()) else {
        return Ok(100);
    };
    let mut files = Vec::new(alloc);
    if let Ok(names) = needed_buffers(alloc, &layout, Tile::root(), bytes) {
        for _ in &names {
            files.push(BufferFile::Missing)?;
        }
    }
    match decode(alloc, &layout, Tile::root(), bytes, &files) {
        Ok(_) => Ok(0),
        Err(DecodeFault::Fault(number)) => Ok(number),
        Err(DecodeFault::Memory) => Ok(101),
    }
}

#[test]
fn faults_of_a_file(rt: HostRuntime) -> Result<(), Fail> {
    let alloc = rt.alloc();
    // the place of a byte of the header, its value there, and the fault
    for (place, value, wanted) in [(0, b'S', 4), (4, 2, 5), (8, 0xFF, 6), (23, 0xFF, 6)] {
        let mut bytes = HEADER;
        bytes[place] = value;
        assert!(rt; number(alloc, FOUR, &bytes)? == wanted);
    }
    assert!(rt; number(alloc, FOUR, &HEADER[..23])? == 3);
    let mut nested = Vec::new(alloc);
    for _ in 0..200 {
        nested.push(b'[')?;
    }
    for _ in 0..200 {
        nested.push(b']')?;
    }
    for (json, wanted) in [
        (b"".as_slice(), 7),
        (b"{\"\xFF\":1}".as_slice(), 7),
        (nested.as_slice(), 7),
        (b"[]      ".as_slice(), 8),
    ] {
        let bytes = file(alloc, json, b"")?;
        assert!(rt; number(alloc, FOUR, &bytes)? == wanted);
    }
    Ok(())
}

#[test]
fn faults_of_a_record(rt: HostRuntime) -> Result<(), Fail> {
    let alloc = rt.alloc();
    // what the record has besides, the byte of the tiles, and the fault
    let rows: [(&str, u8, u64); 29] = [
        ("", 3, 0),
        (",\"buffers\":{}", 3, 9),
        (",\"bufferViews\":[{\"buffer\":0,\"byteOffset\":0}]", 3, 10),
        (",\"tileAvailability\":{\"constant\":2}", 3, 11),
        (",\"tileAvailability\":{\"constant\":1.0}", 3, 11),
        (
            ",\"tileAvailability\":{\"constant\":1,\"bitstream\":0}",
            3,
            11,
        ),
        (
            ",\"tileAvailability\":{\"bitstream\":0,\"availableCount\":-1}",
            3,
            11,
        ),
        (",\"contentAvailability\":{}", 3, 11),
        (",\"contentAvailability\":[7]", 3, 0),
        (",\"childSubtreeAvailability\":{\"bitstream\":2}", 3, 12),
        (
            ",\"childSubtreeAvailability\":{\"bitstream\":18446744073709551615}",
            3,
            12,
        ),
        (
            ",\"bufferViews\":[{\"buffer\":0,\"byteOffset\":0,\"byteLength\":1},{\"buffer\":1,\"byteOffset\":8,\"byteLength\":2}]",
            3,
            12,
        ),
        (",\"buffers\":[{\"byteLength\":10,\"uri\":\"b\"}]", 3, 19),
        (",\"buffers\":[{\"byteLength\":9,\"uri\":\"b\"}]", 3, 19),
        (
            ",\"buffers\":[{\"byteLength\":10},{\"byteLength\":10}],\"bufferViews\":[{\"buffer\":0,\"byteOffset\":0,\"byteLength\":1},{\"buffer\":1,\"byteOffset\":8,\"byteLength\":2}]",
            3,
            0,
        ),
        (
            ",\"bufferViews\":[{\"buffer\":0,\"byteOffset\":0,\"byteLength\":1},{\"buffer\":0,\"byteOffset\":8,\"byteLength\":3}]",
            3,
            14,
        ),
        (
            ",\"bufferViews\":[{\"buffer\":0,\"byteOffset\":18446744073709551615,\"byteLength\":1},{\"buffer\":0,\"byteOffset\":8,\"byteLength\":2}]",
            3,
            14,
        ),
        (
            ",\"bufferViews\":[{\"buffer\":0,\"byteOffset\":1,\"byteLength\":18446744073709551615},{\"buffer\":0,\"byteOffset\":8,\"byteLength\":2}]",
            3,
            14,
        ),
        (",\"buffers\":[{\"byteLength\":17}]", 3, 14),
        (",\"buffers\":[{\"byteLength\":16}]", 3, 0),
        (
            ",\"bufferViews\":[{\"buffer\":0,\"byteOffset\":0,\"byteLength\":1},{\"buffer\":0,\"byteOffset\":8,\"byteLength\":1}]",
            3,
            15,
        ),
        (
            ",\"bufferViews\":[{\"buffer\":0,\"byteOffset\":0,\"byteLength\":0},{\"buffer\":0,\"byteOffset\":8,\"byteLength\":3}]",
            3,
            14,
        ),
        (
            ",\"tileAvailability\":{\"bitstream\":0,\"availableCount\":2}",
            3,
            0,
        ),
        (
            ",\"tileAvailability\":{\"bitstream\":0,\"availableCount\":3}",
            3,
            16,
        ),
        (
            ",\"tileAvailability\":{\"bitstream\":0,\"availableCount\":18446744073709551615}",
            3,
            16,
        ),
        (
            ",\"tileAvailability\":{\"bitstream\":0,\"availableCount\":2}",
            2,
            16,
        ),
        (
            ",\"childSubtreeAvailability\":{\"bitstream\":1,\"availableCount\":4}",
            3,
            0,
        ),
        ("", 2, 17),
        ("", 0x83, 0),
    ];
    for (besides, tiles, wanted) in rows {
        let mut binary = BINARY;
        binary[0] = tiles;
        let mut bytes = pack(alloc, VIEWS, besides, &binary)?;
        assert!(rt; number(alloc, FOUR, &bytes)? == wanted);
        bytes.push(7)?;
        assert!(rt; number(alloc, FOUR, &bytes)? == wanted);
    }
    Ok(())
}

#[test]
fn faults_of_contents_and_counts(rt: HostRuntime) -> Result<(), Fail> {
    let alloc = rt.alloc();
    // with one content: what the record has besides, the byte of the tiles, and the fault
    let rows: [(&str, u8, u64); 7] = [
        ("", 0x0F, 18),
        ("", 0x3F, 0),
        (",\"contentAvailability\":[{\"constant\":1},7]", 0x3F, 0),
        (",\"contentAvailability\":[7,{\"constant\":1}]", 0x3F, 11),
        (",\"contentAvailability\":[]", 0x0F, 0),
        (
            ",\"tileAvailability\":{\"bitstream\":0,\"availableCount\":5}",
            0x3F,
            0,
        ),
        (
            ",\"tileAvailability\":{\"bitstream\":0,\"availableCount\":6}",
            0x3F,
            16,
        ),
    ];
    for (besides, tiles, wanted) in rows {
        let bytes = pack(alloc, ONE_VIEW, besides, [tiles].as_slice())?;
        assert!(rt; number(alloc, TWO, &bytes)? == wanted);
    }
    let mut many = Vec::with_capacity(alloc, 37450)?;
    for _ in 0..37450 {
        many.push(0xFF)?;
    }
    let rows: [(&str, u64); 3] = [
        (
            ",\"bufferViews\":[{\"buffer\":0,\"byteOffset\":0,\"byteLength\":37449}]",
            15,
        ),
        (
            ",\"bufferViews\":[{\"buffer\":0,\"byteOffset\":0,\"byteLength\":37450}]",
            0,
        ),
        (
            ",\"bufferViews\":[{\"buffer\":0,\"byteOffset\":0,\"byteLength\":37450}],\"tileAvailability\":{\"bitstream\":0,\"availableCount\":299593}",
            0,
        ),
    ];
    for (besides, wanted) in rows {
        let bytes = pack(alloc, MANY, besides, &many)?;
        assert!(rt; number(alloc, OCTREE, &bytes)? == wanted);
    }
    Ok(())
}

// The number of a file's fault, 0 for none, and the names of the files that it needs, each before a semicolon.
fn needed(alloc: Global, bytes: &[u8]) -> Result<(u64, String), Fail> {
    let mut all = String::new(alloc);
    let Ok(layout) = Layout::read(alloc, FOLDER.as_bytes()) else {
        return Ok((100, all));
    };
    match needed_buffers(alloc, &layout, Tile::root(), bytes) {
        Ok(names) => {
            for name in &names {
                all.push_str(name.as_str())?;
                all.push_str(";")?;
            }
            Ok((0, all))
        }
        Err(DecodeFault::Fault(number)) => Ok((number, all)),
        Err(DecodeFault::Memory) => Ok((101, all)),
    }
}

#[test]
fn files_that_are_needed(rt: HostRuntime) -> Result<(), Fail> {
    let alloc = rt.alloc();
    // what stands before the JSON text, its buffers, the fault, and the names
    let rows: [(&str, &str, u64, &str); 10] = [
        (
            "",
            "{\"byteLength\":10,\"uri\":\"0.bin\"},{\"byteLength\":10,\"uri\":\"1.bin\"}",
            0,
            "a/b/0.bin;a/b/1.bin;",
        ),
        (
            "",
            "{\"byteLength\":10,\"uri\":\"0.bin\"},{\"byteLength\":9,\"uri\":\"0.bin\"}",
            0,
            "a/b/0.bin;",
        ),
        (
            "",
            "{\"byteLength\":10,\"uri\":\"../x\"},{\"byteLength\":10,\"uri\":\"data:,x\"},{\"byteLength\":10,\"uri\":\"2.bin\"}",
            0,
            "a/b/../x;a/b/data:,x;",
        ),
        (
            "",
            "{\"byteLength\":10,\"uri\":\"\"},{\"byteLength\":10,\"uri\":\"/x\"}",
            0,
            "a/b/;a/b//x;",
        ),
        (
            "",
            "{\"byteLength\":10,\"uri\":\"0.bin\"},{\"byteLength\":10}",
            13,
            "",
        ),
        ("", "{\"byteLength\":10,\"uri\":\"0.bin\"}", 12, ""),
        (
            "",
            "{\"byteLength\":10,\"uri\":\"0.bin\"},{\"byteLength\":10,\"uri\":7}",
            9,
            "",
        ),
        (
            " \t\r\n",
            "{\"byteLength\":10,\"uri\":\"0.bin\"},{\"byteLength\":10,\"uri\":\"1.bin\"}",
            0,
            "a/b/0.bin;a/b/1.bin;",
        ),
        (
            "\u{feff}",
            "{\"byteLength\":10,\"uri\":\"0.bin\"},{\"byteLength\":10,\"uri\":\"1.bin\"}",
            4,
            "",
        ),
        (
            "[",
            "{\"byteLength\":10,\"uri\":\"0.bin\"},{\"byteLength\":10,\"uri\":\"1.bin\"}",
            4,
            "",
        ),
    ];
    for (front, buffers, fault, names) in rows {
        let mut text = Vec::from_slice(alloc, front.as_bytes())?;
        text.extend_from_slice(b"{\"buffers\":[")?;
        text.extend_from_slice(buffers.as_bytes())?;
        text.extend_from_slice(b"],")?;
        text.extend_from_slice(CROSSED.as_bytes())?;
        text.push(b'}')?;
        let (number, all) = needed(alloc, &text)?;
        assert!(rt; number == fault && all.as_str() == names);
    }
    // in the binary form a buffer without a name has the file's own bytes
    let own = pack(alloc, VIEWS, "", &BINARY)?;
    let (number, all) = needed(alloc, &own)?;
    assert!(rt; number == 0 && all.is_empty());
    let named = pack(
        alloc,
        VIEWS,
        ",\"buffers\":[{\"byteLength\":10,\"uri\":\"b\"}]",
        &BINARY,
    )?;
    let (number, all) = needed(alloc, &named)?;
    assert!(rt; number == 0 && all.as_str() == "a/b/b;");
    Ok(())
}
