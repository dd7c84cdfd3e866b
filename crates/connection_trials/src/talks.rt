// What no clause says: that memory suffices, that a reply leaves in one piece, and whole connections as they are seen
// from outside.
ghost use Rattle.std.specs.Prelude.{◌≤◌, string_bytes};
ghost use Rattle.http_connection.specs.Answers.{HasLength};

use http_connection::{Served, ServedEnd, Viewers, ViewersAnswer, serve_connection};
use http_text::Route;
use scene_ports::{GiveFault, MemoryLink, Outlet, give_all};
use std::alloc::{AllocError, Global};
use std::fmt::Write;
use std::test::Fail;

// Viewers that say the request line again, but for some words that the line begins with.
#[derive(Drop)]
struct Echo {
    text: String,
}

impl Viewers for Echo {
    ghost may = { λ _ _ _ _ _. Unit {0} };

    ghost text = { λ echo. string_bytes echo.text };

    fn answer(&mut self, route: Route, line: &[u8]) -> ViewersAnswer {
        self.text.clear();
        let Ok(line) = str::from_utf8(line) else {
            return ViewersAnswer::Refused(1);
        };
        let word = line.split_once(' ').map(|(word, _)| word);
        match word {
            None => ViewersAnswer::Refused(1),
            Some("busy") => ViewersAnswer::Busy,
            Some("fault") => ViewersAnswer::ReadFault,
            Some("memory") => ViewersAnswer::Memory,
            Some(_) => self.say(route, line),
        }
    }

    fn write_text<O: Outlet>(&self, piece: &mut String, out: &mut O) -> Result<(), GiveFault> {
        piece.push_str(&self.text)?;
        give_all(out, piece.as_bytes())
    }
}

impl Echo {
    fn say(&mut self, route: Route, line: &str) -> ViewersAnswer
        ensures { HasLength result (string_bytes self.new.text) }
    {
        let said = match route {
            Route::Prefix => self.text.push_str("prefix of "),
            _ => Ok(()),
        };
        match said.and(self.text.push_str(line)) {
            Ok(()) => ViewersAnswer::Text(self.text.len() as u64),
            Err(_) => ViewersAnswer::Memory,
        }
    }
}

// How a connection of these bytes is served, and what is given. The takes and gives are counted together, and the one
// with the number `failing` fails.
fn talk(alloc: Global, bytes: &[u8], piece: usize, failing: u64) -> Result<(Served, String), Fail>
    requires { 1 ≤ piece }
{
    let mut viewers = Echo {
        text: String::new(alloc),
    };
    talk_with(alloc, &mut viewers, bytes, piece, failing)
}

// The same by these viewers.
pub(crate) fn talk_with<V: Viewers>(
    alloc: Global,
    viewers: &mut V,
    bytes: &[u8],
    piece: usize,
    failing: u64,
) -> Result<(Served, String), Fail>
    requires { 1 ≤ piece }
{
    let bytes = Vec::from_slice(alloc, bytes)?;
    let mut link = MemoryLink::new(alloc, bytes, piece, vec![in alloc; failing]?);
    let served = serve_connection(alloc, viewers, &mut link);
    let written = String::from_utf8_lossy(alloc, link.written())?;
    Ok((served, written))
}

// The statuses of the replies, each with what it says of the connection.
fn statuses(alloc: Global, written: &str) -> Result<String, Fail> {
    let mut text = String::new(alloc);
    for reply in written.split("HTTP/1.1 ").skip(1) {
        let (status, rest) = reply.split_once(' ').unwrap_or(("", ""));
        let mark = if rest.contains("\r\nConnection: close\r\n\r\n") {
            '.'
        } else {
            ','
        };
        write!(text, "{status}{mark}")?;
    }
    Ok(text)
}

// So many requests with nothing but a first line, on a path that isn't there.
fn many(alloc: Global, count: usize) -> Result<Vec<u8>, AllocError> {
    let mut bytes = Vec::new(alloc);
    for _ in 0..count {
        bytes.extend_from_slice(b"GET /x HTTP/1.1\r\n\r\n")?;
    }
    Ok(bytes)
}

// A head of so many bytes.
fn long(alloc: Global, bytes: usize) -> Result<Vec<u8>, AllocError> {
    let mut head = Vec::from_slice(alloc, b"GET /x HTTP/1.1\r\na:")?;
    for _ in 23..bytes {
        head.push(b'b')?;
    }
    head.extend_from_slice(b"\r\n\r\n")?;
    Ok(head)
}

#[test]
fn connections(rt: HostRuntime) -> Result<(), Fail> {
    let alloc = rt.alloc();
    let closed = ServedEnd::Closed;
    let rows: [(&[u8], &str, ServedEnd); 16] = [
        (b"", "", closed),
        (b"GET /x HT", "", closed),
        (
            b"GET /tiles?hi=0,0&lo=0,0&level=0 HTTP/1.0\r\n\r\n",
            "200.",
            closed,
        ),
        // Behind the reply that closes the connection nothing is replied to.
        (
            b"GET /x HTTP/1.0\r\n\r\nGET /x HTTP/1.1\r\n\r\n",
            "404.",
            closed,
        ),
        (
            b"GET /x HTTP/1.1\r\nConnection: CLOSE\r\n\r\nGET /x HTTP/1.1\r\n\r\n",
            "404.",
            closed,
        ),
        (
            b"GET /x HTTP/1.1\r\n\r\nPOST /tiles HTTP/1.1\r\n\r\nGET /tiles?level=9 HTTP/1.1\r\n\r\n",
            "404,405,400,",
            closed,
        ),
        (
            b"GET /tiles?level=0&lo=0,0&hi=0,0&hi=0,0 HTTP/1.1\r\n\r\n",
            "400,",
            closed,
        ),
        (
            b"GET /tiles?level=busy&lo=&hi= HTTP/1.1\r\n\r\nGET /tiles?level=fault&lo=&hi= HTTP/1.1\r\n\r\n",
            "503,502,",
            closed,
        ),
        (
            b"GET /prefix?level=1&lo=a&hi=b HTTP/1.1\r\n\r\nGET /tiles?level=memory&lo=&hi= HTTP/1.1\r\n\r\n",
            "200,",
            ServedEnd::Memory,
        ),
        // Lines that end in LF alone, a target in absolute form, no Host, and a method that has no body in its reply.
        (
            b"GET /prefix?level=1&lo=a&hi=b HTTP/1.1\n\n",
            "200,",
            closed,
        ),
        (
            b"GET http://a/tiles?level=1&lo=a&hi=b HTTP/1.1\r\n\r\n",
            "404,",
            closed,
        ),
        (
            b"HEAD /tiles HTTP/1.1\r\n\r\nGET /x HTTP/1.1\r\n\r\n",
            "405,404,",
            closed,
        ),
        // A body that is announced, and bytes that are no HTTP.
        (
            b"POST /tiles HTTP/1.1\r\nContent-Length: 2\r\n\r\nGET /x HTTP/1.1\r\n\r\n",
            "400.",
            closed,
        ),
        (
            b"GET /x HTTP/1.1\r\nTransfer-Encoding: chunked\r\n\r\n",
            "400.",
            closed,
        ),
        (b"\x16\x03\x01\x02\x00\x01\x00", "400.", closed),
        (
            b"GET /x HTTP/1.1\r\n\r\nno head\r\n\r\n",
            "404,400.",
            closed,
        ),
    ];
    for (bytes, wanted, end) in rows {
        for piece in [1usize, 7, 10000] {
            let piece = piece.max(1);
            let (served, written) = talk(alloc, bytes, piece, 0)?;
            assert!(rt; statuses(alloc, &written)?.as_str() == wanted);
            assert!(rt; served.end == end);
            assert!(rt; served.replies as usize * 4 == wanted.len());
        }
    }
    Ok(())
}

#[test]
fn limits(rt: HostRuntime) -> Result<(), Fail> {
    let alloc = rt.alloc();
    let (served, written) = talk(alloc, &long(alloc, 8192)?, 10000, 0)?;
    assert!(rt; served.replies == 1 && written.starts_with("HTTP/1.1 404 "));
    let (served, written) = talk(alloc, &long(alloc, 8193)?, 10000, 0)?;
    assert!(rt; served.replies == 1 && written.starts_with("HTTP/1.1 431 "));
    let (served, written) = talk(alloc, &many(alloc, 1002)?, 10000, 0)?;
    assert!(rt; served.replies == 1000 && served.end == ServedEnd::Closed);
    let marks = statuses(alloc, &written)?;
    assert!(rt; marks.len() == 4000 && marks.ends_with("404,404."));
    Ok(())
}

#[test]
fn replies_are_whole(rt: HostRuntime) -> Result<(), Fail> {
    let alloc = rt.alloc();
    let bytes =
        b"GET /prefix?level=1&lo=0%2C0&hi=1,1 HTTP/1.1\r\n\r\nGET /tiles?level=9 HTTP/1.1\r\n\r\n";
    let whole =
        "HTTP/1.1 200 OK\r\nContent-Type: text/plain; charset=utf-8\r\nContent-Length: 19\r\n\
        Connection: keep-alive\r\n\r\nprefix of 1 0,0 1,1HTTP/1.1 400 Bad Request\r\n\
        Content-Type: text/plain; charset=utf-8\r\nContent-Length: 10\r\nConnection: keep-alive\r\n\r\nrefused\t1\n";
    // One take has both requests, each reply is one give, and the fourth call finds the end.
    for failing in 1..6u64 {
        let (served, written) = talk(alloc, bytes, 10000, failing)?;
        let (end, replies) = match failing {
            1 | 2 => (ServedEnd::LinkFault, 0),
            3 => (ServedEnd::LinkFault, 1),
            4 => (ServedEnd::LinkFault, 2),
            _ => (ServedEnd::Closed, 2),
        };
        assert!(rt; served == Served { end, replies });
        assert!(rt; whole.starts_with(written.as_str()));
        assert!(rt; statuses(alloc, &written)?.len() == 4 * replies as usize);
        if replies == 2 {
            assert!(rt; written.as_str() == whole);
        }
    }
    Ok(())
}
