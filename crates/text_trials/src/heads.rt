// What no clause says: which of the answers that the clauses leave open `httparse` gives, and that calls succeed with
// ample memory.
use http_text::{HeadAnswer, MOST_HEAD_BYTES, MOST_HEADER_LINES, Route, head, reply_head, route};
use std::alloc::{AllocError, Global};
use std::test::Fail;

// An answer as a text: of a whole head its length, its target, and what is so of it.
fn told(alloc: Global, bytes: &[u8]) -> Result<String, Fail> {
    let parts = match head(bytes) {
        HeadAnswer::More => return Ok(String::from_str(alloc, "more")?),
        HeadAnswer::Bad => return Ok(String::from_str(alloc, "bad")?),
        HeadAnswer::Whole(parts) => parts,
    };
    let mut text = format!(in alloc; "{}", parts.length)?;
    let flags = [
        (parts.get, " get"),
        (parts.head, " head"),
        (parts.http10, " 1.0"),
        (parts.body, " body"),
        (parts.close, " close"),
    ];
    for (is, flag) in flags {
        if is {
            text.push_str(flag)?;
        }
    }
    text.push(' ')?;
    if let Some(target) = bytes.get(parts.target_start..parts.target_end) {
        text.push_str(str::from_utf8(target).unwrap_or("?"))?;
    }
    Ok(text)
}

#[test]
fn heads(rt: HostRuntime) -> Result<(), Fail> {
    let alloc = rt.alloc();
    let rows: [(&[u8], &str); 27] = [
        (
            b"GET /tiles?level=0 HTTP/1.0\r\n\r\n",
            "31 get 1.0 /tiles?level=0",
        ),
        (
            b"GET /tiles HTTP/1.1\r\nHost: a\r\n\r\nGET",
            "32 get /tiles",
        ),
        // No Host, and lines that end in LF alone.
        (b"GET / HTTP/1.1\r\n\r\n", "18 get /"),
        (b"GET / HTTP/1.1\n\n", "16 get /"),
        (b"\r\n\nGET / HTTP/1.1\nA:b\r\n\n", "24 get /"),
        (
            b"GET http://localhost/tiles HTTP/1.1\r\n\r\n",
            "39 get http://localhost/tiles",
        ),
        (b"GET /%2%zz%?%41+ HTTP/1.1\r\n\r\n", "29 get /%2%zz%?%41+"),
        (b"get / HTTP/1.1\r\n\r\n", "18 /"),
        (b"HEAD / HTTP/1.1\r\n\r\n", "19 head /"),
        (b"POST / HTTP/1.1\r\ncontent-length: 0\r\n\r\n", "38 /"),
        (
            b"POST / HTTP/1.1\r\nContent-Length: 5\r\n\r\nhello",
            "38 body /",
        ),
        (
            b"GET / HTTP/1.1\r\nContent-Length:  00\r\n\r\n",
            "39 get body /",
        ),
        (
            b"GET / HTTP/1.1\r\nContent-Length: 0\r\nContent-Length: 1\r\n\r\n",
            "56 get body /",
        ),
        (
            b"GET / HTTP/1.1\r\nTRANSFER-ENCODING: chunked\r\n\r\n",
            "46 get body /",
        ),
        (
            b"GET / HTTP/1.1\r\nConnection:CLOSE \r\n\r\n",
            "37 get close /",
        ),
        (
            b"GET / HTTP/1.1\r\nconnection: keep-alive\r\n\r\n",
            "42 get /",
        ),
        // A list of options isn't `close`.
        (
            b"GET / HTTP/1.1\r\nConnection: close, te\r\n\r\n",
            "41 get /",
        ),
        (b"", "more"),
        (b"GE", "more"),
        (b"GET / HTTP/1.1\r\nHost: a\r\n", "more"),
        // A target that isn't UTF-8, before its end and behind it.
        (b"GET /\xff", "more"),
        (b"GET /\xff ", "bad"),
        (b"GET / HTTP/2.0\r\n\r\n", "bad"),
        (b"GET /  HTTP/1.1\r\n\r\n", "bad"),
        (b"GET / HTTP/1.1\r\n Host: a\r\n\r\n", "bad"),
        (b"GET / HTTP/1.1\r\nHost : a\r\n\r\n", "bad"),
        (b"{\"a\":1}", "bad"),
    ];
    for (bytes, wanted) in rows {
        assert!(rt; told(alloc, bytes)?.as_str() == wanted);
    }
    Ok(())
}

// A head with so many header lines of four bytes, up to its last line.
fn lines(alloc: Global, count: usize) -> Result<Vec<u8>, AllocError> {
    let mut bytes = Vec::from_slice(alloc, b"GET / HTTP/1.1\r\n")?;
    for _ in 0..count {
        bytes.extend_from_slice(b"a:b\n")?;
    }
    Ok(bytes)
}

// A head of so many bytes, up to its last line, with one header line.
fn long(alloc: Global, bytes: usize) -> Result<Vec<u8>, AllocError> {
    let mut head = Vec::from_slice(alloc, b"GET / HTTP/1.1\r\na:")?;
    for _ in 20..bytes {
        head.push(b'b')?;
    }
    head.extend_from_slice(b"\r\n")?;
    Ok(head)
}

#[test]
fn heads_at_the_limits(rt: HostRuntime) -> Result<(), Fail> {
    let alloc = rt.alloc();
    let rows = [
        (lines(alloc, MOST_HEADER_LINES)?, "274 get /", "more"),
        (lines(alloc, MOST_HEADER_LINES + 1)?, "bad", "bad"),
        (long(alloc, MOST_HEAD_BYTES - 2)?, "8192 get /", "more"),
        (long(alloc, MOST_HEAD_BYTES)?, "8194 get /", "more"),
    ];
    for (mut bytes, whole, before) in rows {
        assert!(rt; told(alloc, bytes.as_slice())?.as_str() == before);
        bytes.extend_from_slice(b"\r\n")?;
        assert!(rt; told(alloc, bytes.as_slice())?.as_str() == whole);
    }
    Ok(())
}

#[test]
fn targets(rt: HostRuntime) -> Result<(), Fail> {
    let alloc = rt.alloc();
    let rows: [(&[u8], Route, &[u8]); 12] = [
        (
            b"/prefix?level=1&lo=0,0&hi=1,1",
            Route::Prefix,
            b"1 0,0 1,1",
        ),
        (
            b"/tiles?level=1&lo=0%2C0&hi=1,1",
            Route::Tiles,
            b"1 0,0 1,1",
        ),
        (b"/tiles?hi=0,0&lo=0,0&level=0", Route::Tiles, b"0 0,0 0,0"),
        (b"/tiles?level=0&lo=0,0&hi=0,0&hi=0,0", Route::Tiles, b""),
        (b"/tiles?level=9", Route::Tiles, b""),
        (b"/tiles?level=0&lo=0,0&hi=0,0&", Route::Tiles, b""),
        (b"/tiles", Route::Tiles, b""),
        (
            b"/tiles?level=%2&lo=%zz+%&hi=%41%%42",
            Route::Tiles,
            b"%2 %zz+% A%B",
        ),
        (b"/tiles?level=%00&lo=%ff&hi=?=&", Route::Tiles, b""),
        (b"/tiles/?level=0&lo=0,0&hi=0,0", Route::NotFound, b""),
        (b"/x", Route::NotFound, b""),
        (
            b"http://localhost/tiles?level=0&lo=0,0&hi=0,0",
            Route::NotFound,
            b"",
        ),
    ];
    for (target, wanted, line) in rows {
        let mut out = Vec::from_slice(alloc, b"> ")?;
        assert!(rt; route(target, &mut out) == Ok(wanted));
        assert!(rt; out.as_slice().strip_prefix(b"> ") == Some(line));
    }
    Ok(())
}

#[test]
fn heads_of_replies(rt: HostRuntime) -> Result<(), Fail> {
    let alloc = rt.alloc();
    let rows: [(u16, u64, bool, &str); 3] = [
        (
            200,
            14,
            false,
            "200 OK\r\n|14\r\nConnection: keep-alive\r\n\r\n",
        ),
        (
            405,
            19,
            false,
            "405 Method Not Allowed\r\nAllow: GET\r\n|19\r\nConnection: keep-alive\r\n\r\n",
        ),
        (
            431,
            18446744073709551615,
            true,
            "431 Request Header Fields Too Large\r\n|18446744073709551615\r\nConnection: close\r\n\r\n",
        ),
    ];
    for (status, length, close, wanted) in rows {
        let mut out = String::from_str(alloc, "> ")?;
        assert!(rt; reply_head(status, length, close, &mut out).is_ok());
        let (first, last) = wanted.split_once('|').unwrap_or(("", ""));
        let wanted = format!(in alloc;
            "> HTTP/1.1 {first}Content-Type: text/plain; charset=utf-8\r\nContent-Length: {last}"
        )?;
        assert!(rt; out == wanted);
    }
    Ok(())
}
