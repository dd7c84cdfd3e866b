// Heads of requests.
ghost use Rattle.std.specs.Prelude.{◌≡◌, ◌≤◌, ◌&&◌, ◌||◌, All, length, map, take, true, not};
ghost use Rattle.std.specs.List.{list_any};
ghost use Rattle.std.specs.Str.{bytes_eq, str_eq_ignore_ascii_case};
ghost use Rattle.httparse.specs.Spans.{IsHeaderWithin, header_bytes};
ghost use Rattle.http_text.specs.Heads.{IsAnswer, FindsHead, announces_body as announces, asks_to_close as asks};

use httparse::Status;
use httparse::spans::{EMPTY_HEADER_SPAN, HeaderSpan, RequestSpans, parse_request};

/// The most header lines of a head.
pub const MOST_HEADER_LINES: usize = 64;

/// The most bytes of a head: so many bytes of which the answer is `More` are a head that is too long.
pub const MOST_HEAD_BYTES: usize = 8192;

/// What is looked at of a whole head (RFC 9112, sections 2 to 5). Places count from the first of the bytes.
#[derive(Clone, Copy, Debug, PartialEq, Eq)]
pub struct HeadParts {
    /// The bytes of the head, up to its empty line. What is behind belongs to the next request.
    pub length: usize,
    /// The method is `GET`, byte by byte.
    pub get: bool,
    /// The method is `HEAD`, byte by byte: a reply has no body (RFC 9110, section 9.3.2).
    pub head: bool,
    /// The version is HTTP/1.0, and not HTTP/1.1.
    pub http10: bool,
    /// The place of the target's first byte.
    pub target_start: usize,
    /// The place behind its last byte.
    pub target_end: usize,
    /// A body is announced: there is a `transfer-encoding`, or a `content-length` other than `0`.
    pub body: bool,
    /// A `connection` header is `close`, whatever the case of ASCII letters.
    pub close: bool,
}

/// What bytes from a connection are.
#[derive(Clone, Copy, Debug, PartialEq, Eq)]
pub enum HeadAnswer {
    /// They begin with a whole head.
    Whole(HeadParts),
    /// No head is whole yet, and more bytes may make one.
    More,
    /// No bytes can follow that make a head of at most `MOST_HEADER_LINES` header lines.
    Bad,
}

/// What the bytes are the beginning of, by `httparse` with room for `MOST_HEADER_LINES` headers (RFC 9112, sections
/// 2 to 5: a line may end in LF alone, and empty lines may come first). A target that isn't UTF-8 is `Bad` once it has
/// ended.
pub fn head(bytes: &[u8]) -> HeadAnswer
    ensures answer { IsAnswer bytes.now result }
    ensures found { FindsHead bytes.now result }
{
    let mut headers = [EMPTY_HEADER_SPAN; MOST_HEADER_LINES];
    match parse_request(bytes, &mut headers) {
        Ok(Status::Complete(head)) => HeadAnswer::Whole(HeadParts {
            length: head.len,
            get: head.method.of(bytes) == b"GET".as_slice(),
            head: head.method.of(bytes) == b"HEAD".as_slice(),
            http10: head.version == 0,
            target_start: head.path.start,
            target_end: head.path.end,
            body: announces_body(bytes, &headers[..head.headers]),
            close: asks_to_close(bytes, &headers[..head.headers]),
        }),
        Ok(Status::Partial) => HeadAnswer::More,
        Err(_) => HeadAnswer::Bad,
    }
}

fn announces_body(bytes: &[u8], headers: &[HeaderSpan]) -> bool
    requires { All (IsHeaderWithin (length bytes.now)) headers.now }
    ensures { result ≡ list_any announces (map (header_bytes bytes.now) headers.now) }
{
    for header in headers {
        let name = header.name.of(bytes);
        let value = header.value.of(bytes);
        if is_body(name, value) {
            return true;
        }
    }
    false
}

fn asks_to_close(bytes: &[u8], headers: &[HeaderSpan]) -> bool
    requires { All (IsHeaderWithin (length bytes.now)) headers.now }
    ensures { result ≡ list_any asks (map (header_bytes bytes.now) headers.now) }
{
    for header in headers {
        let name = header.name.of(bytes);
        let value = header.value.of(bytes);
        if is_close(name, value) {
            return true;
        }
    }
    false
}

fn is_body(name: &[u8], value: &[u8]) -> bool
    ensures { result ≡ announces (name.now, value.now) }
{
    name.eq_ignore_ascii_case(b"transfer-encoding")
        || (name.eq_ignore_ascii_case(b"content-length") && value != b"0".as_slice())
}

fn is_close(name: &[u8], value: &[u8]) -> bool
    ensures { result ≡ asks (name.now, value.now) }
{
    name.eq_ignore_ascii_case(b"connection") && value.eq_ignore_ascii_case(b"close")
}
