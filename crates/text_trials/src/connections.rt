// What no clause says: that memory suffices, and that requests are read alike in whatever pieces their bytes come.
ghost use Rattle.std.specs.Prelude.{◌≤◌};

use http_front::{Decided, HeadBuffer, Reading, decide, give_reply};
use http_text::{HeadAnswer, MOST_HEAD_BYTES, MOST_HEADER_LINES, Route, head};
use scene_ports::{GiveFault, MemoryLink};
use std::alloc::{AllocError, Global};
use std::fmt::Write;
use std::test::Fail;

// What is next on a link, again and again: the lengths of heads, each handed out, and the word for what ends it. After
// a take that failed it goes on.
fn told(alloc: Global, bytes: &[u8], piece: usize, failing: u64) -> Result<String, Fail>
    requires { 1 ≤ piece }
{
    let bytes = Vec::from_slice(alloc, bytes)?;
    let mut link = MemoryLink::new(alloc, bytes, piece, vec![in alloc; failing]?);
    let mut buffer = HeadBuffer::new(alloc)?;
    let mut text = String::new(alloc);
    for _ in 0..10 {
        let word = match buffer.next_head(&mut link) {
            Reading::Head(parts) => {
                write!(text, "{} ", parts.length)?;
                buffer.consume(parts.length);
                continue;
            }
            Reading::Failed => continue,
            Reading::TooLong => "long",
            Reading::Bad => "bad",
            Reading::End => "end",
        };
        text.push_str(word)?;
        break;
    }
    Ok(text)
}

// A head of so many bytes.
fn long(alloc: Global, bytes: usize) -> Result<Vec<u8>, AllocError> {
    let mut head = Vec::from_slice(alloc, b"GET / HTTP/1.1\r\na:")?;
    for _ in 22..bytes {
        head.push(b'b')?;
    }
    head.extend_from_slice(b"\r\n\r\n")?;
    Ok(head)
}

// So many requests with nothing but a first line.
fn many(alloc: Global, count: usize) -> Result<Vec<u8>, AllocError> {
    let mut bytes = Vec::new(alloc);
    for _ in 0..count {
        bytes.extend_from_slice(b"GET / HTTP/1.1\r\n\r\n")?;
    }
    Ok(bytes)
}

#[test]
fn requests_in_pieces(rt: HostRuntime) -> Result<(), Fail> {
    let alloc = rt.alloc();
    let mut headers = Vec::from_slice(alloc, b"GET / HTTP/1.1\r\n")?;
    for _ in 0..MOST_HEADER_LINES + 1 {
        headers.extend_from_slice(b"a:b\n")?;
    }
    let mut two = long(alloc, MOST_HEAD_BYTES - 2)?;
    two.extend_from_slice(many(alloc, 2)?.as_slice())?;
    let rows = [
        (Vec::new(alloc), "end"),
        (Vec::from_slice(alloc, b"GET / HT")?, "end"),
        (many(alloc, 3)?, "18 18 18 end"),
        (long(alloc, MOST_HEAD_BYTES)?, "8192 end"),
        (long(alloc, MOST_HEAD_BYTES + 1)?, "long"),
        (two, "8190 18 18 end"),
        (headers, "bad"),
    ];
    for (bytes, wanted) in rows {
        for piece in [1usize, 7, 1000, 10000] {
            let piece = piece.max(1);
            assert!(rt; told(alloc, bytes.as_slice(), piece, 0)?.as_str() == wanted);
        }
    }
    Ok(())
}

#[test]
fn a_failed_take_loses_nothing(rt: HostRuntime) -> Result<(), Fail> {
    let alloc = rt.alloc();
    let bytes = many(alloc, 3)?;
    for n in 1..12u64 {
        assert!(rt; told(alloc, bytes.as_slice(), 7, n)?.as_str() == "18 18 18 end");
    }
    Ok(())
}

#[test]
fn heads_decide(rt: HostRuntime) -> Result<(), Fail> {
    let alloc = rt.alloc();
    let mut line = Vec::from_slice(alloc, b"an older line")?;
    let rows: [(&[u8], Decided, &[u8]); 6] = [
        (
            b"GET /tiles?hi=0,0&lo=0,0&level=0 HTTP/1.0\r\n\r\n",
            Decided::Asks(Route::Tiles),
            b"0 0,0 0,0",
        ),
        (
            b"GET /prefix?level=9 HTTP/1.1\r\n\r\n",
            Decided::Asks(Route::Prefix),
            b"",
        ),
        (b"GET /x HTTP/1.1\r\n\r\n", Decided::NotFound, b""),
        (b"POST /x HTTP/1.1\r\n\r\n", Decided::NotFound, b""),
        (b"HEAD /tiles HTTP/1.1\r\n\r\n", Decided::NotAllowed, b""),
        (
            b"POST /x HTTP/1.1\r\nContent-Length: 2\r\n\r\nab",
            Decided::BadRequest,
            b"",
        ),
    ];
    for (bytes, wanted, asked) in rows {
        let HeadAnswer::Whole(parts) = head(bytes) else {
            assert!(rt; false);
            return Ok(());
        };
        assert!(rt; decide(bytes, &parts, &mut line) == Ok(wanted));
        assert!(rt; line.as_slice() == asked);
    }
    Ok(())
}

#[test]
fn a_reply_leaves_in_one_piece(rt: HostRuntime) -> Result<(), Fail> {
    let alloc = rt.alloc();
    let mut piece = String::new(alloc);
    // Two replies are two gives, and the third fails.
    let mut link = MemoryLink::new(alloc, Vec::new(alloc), 1, vec![in alloc; 3]?);
    assert!(rt; give_reply(404, "not found\n", false, false, &mut piece, &mut link) == Ok(()));
    assert!(rt; give_reply(405, "no\n", true, true, &mut piece, &mut link) == Ok(()));
    let third = give_reply(503, "busy\n", true, false, &mut piece, &mut link);
    assert!(rt; third == Err(GiveFault::WriteFault));
    let wanted =
        b"HTTP/1.1 404 Not Found\r\nContent-Type: text/plain; charset=utf-8\r\nContent-Length: 10\r\n\
        Connection: keep-alive\r\n\r\nnot found\nHTTP/1.1 405 Method Not Allowed\r\nAllow: GET\r\n\
        Content-Type: text/plain; charset=utf-8\r\nContent-Length: 3\r\nConnection: close\r\n\r\n";
    assert!(rt; link.written() == wanted.as_slice());
    Ok(())
}
