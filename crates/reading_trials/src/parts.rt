// What no clause says: reading succeeds where there is memory, and each text has the answer of the standard's reader.
use std::test::Fail;
use subtree_json::{Availability, ContentPart, JsonFault, ViewPart, read};

const GOOD: &[u8] =
    b"{\"buffers\":[{\"byteLength\":10,\"name\":\"a\"},{\"byteLength\":7,\"uri\":\"b\"}],\"bufferViews\":[{\"buffer\":1,\"byteOffset\":8,\"byteLength\":2}],\"tileAvailability\":{\"bitstream\":0,\"availableCount\":5},\"contentAvailability\":[{\"constant\":1},{\"constant\":2},7,{\"bitstream\":3}],\"childSubtreeAvailability\":{\"constant\":0,\"availableCount\":null}}   ";

const STREAM: Availability = Availability::Stream {
    view: 0,
    count: Some(5),
};

const OTHER: Availability = Availability::Stream {
    view: 3,
    count: None,
};

#[test]
fn a_whole_record(rt: HostRuntime) -> Result<(), Fail> {
    let Ok(record) = read(rt.alloc(), GOOD) else {
        assert!(rt; false);
        return Ok(());
    };
    assert!(rt; record.buffers.len() == 2);
    assert!(rt; record.buffers[0].length == 10 && record.buffers[0].uri.is_none());
    assert!(rt; record.buffers[1].length == 7 && record.buffers[1].uri.as_deref() == Some("b"));
    assert!(rt;
        record.views.as_slice()
            == [ViewPart {
                buffer: 1,
                offset: 8,
                length: 2
            }]
            .as_slice()
    );
    assert!(rt; record.tiles == STREAM);
    assert!(rt; record.contents.len() == 4);
    assert!(rt; record.contents[0] == ContentPart::Good(Availability::Constant(true)));
    assert!(rt; record.contents[1] == ContentPart::Malformed);
    assert!(rt; record.contents[2] == ContentPart::Malformed);
    assert!(rt; record.contents[3] == ContentPart::Good(OTHER));
    assert!(rt; record.child == Availability::Constant(false));
    Ok(())
}

#[test]
fn faults_by_text(rt: HostRuntime) -> Result<(), Fail> {
    let rows: [(&[u8], Option<u64>); 19] = [
        (b"", Some(7)),
        (
            b"{\"tileAvailability\":{\"constant\":1},\"a\":\"\xFF\",\"childSubtreeAvailability\":{\"constant\":1}}",
            Some(7),
        ),
        (b"[]", Some(8)),
        (b"{\"buffers\":{}}", Some(9)),
        (b"{\"buffers\":null}", Some(9)),
        (b"{\"buffers\":[7]}", Some(9)),
        (b"{\"buffers\":[{\"byteLength\":1.0}]}", Some(9)),
        (b"{\"buffers\":[{\"byteLength\":1,\"uri\":null}]}", Some(9)),
        (
            b"{\"bufferViews\":[{\"buffer\":0,\"byteOffset\":0}]}",
            Some(10),
        ),
        (
            b"{\"bufferViews\":[{\"buffer\":0,\"byteOffset\":-1,\"byteLength\":1}]}",
            Some(10),
        ),
        (b"{\"tileAvailability\":{\"constant\":1}}", Some(11)),
        (
            b"{\"tileAvailability\":{\"constant\":2},\"childSubtreeAvailability\":{\"constant\":1}}",
            Some(11),
        ),
        (
            b"{\"tileAvailability\":{\"constant\":1.0},\"childSubtreeAvailability\":{\"constant\":1}}",
            Some(11),
        ),
        (
            b"{\"tileAvailability\":{\"constant\":1,\"bitstream\":0},\"childSubtreeAvailability\":{\"constant\":1}}",
            Some(11),
        ),
        (
            b"{\"tileAvailability\":{\"constant\":null,\"bitstream\":0},\"childSubtreeAvailability\":{\"constant\":1}}",
            Some(11),
        ),
        (
            b"{\"tileAvailability\":{\"bitstream\":0,\"availableCount\":-1},\"childSubtreeAvailability\":{\"constant\":1}}",
            Some(11),
        ),
        (
            b"{\"tileAvailability\":{\"constant\":1},\"contentAvailability\":null,\"childSubtreeAvailability\":{\"constant\":1}}",
            Some(11),
        ),
        (
            b"{\"tileAvailability\":{\"constant\":2},\"tileAvailability\":{\"constant\":1},\"childSubtreeAvailability\":{\"constant\":1}}",
            None,
        ),
        (
            b"{\"tileAvailability\":{\"constant\":1},\"contentAvailability\":[null],\"childSubtreeAvailability\":{\"constant\":1}}",
            None,
        ),
    ];
    for (text, wanted) in rows {
        match read(rt.alloc(), text) {
            Ok(_) => assert!(rt; wanted.is_none()),
            Err(fault) => assert!(rt; fault.number() == wanted && fault != JsonFault::Memory),
        }
    }
    let nested = [b'['; 200];
    assert!(rt; read(rt.alloc(), &nested).err() == Some(JsonFault::BadJson));
    Ok(())
}
