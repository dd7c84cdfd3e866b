// Heads of replies.
ghost use Rattle.std.specs.Prelude.{◌≡◌, ◌<◌, ◌+◌, ◌++◌, OnOk, OnErr, map, length as length_of, unwrap_or};
ghost use Rattle.std.specs.Prelude.{string_bytes, string_len, string_capacity};
ghost use Rattle.std.specs.List.{concat};
ghost use Rattle.http.specs.StatusCode.{reason_phrase};
ghost use Rattle.http_text.specs.Inner.{allow_part, connection_part, unknown};
ghost use Rattle.http_text.specs.Replies.{IsReplyStatus, reply_head as head_of};

use http::StatusCode;
use itoa::Buffer;
use std::alloc::AllocError;

/// Appends the head of a reply (RFC 9112, section 4): the status with the reason that `http` has for it, `Allow: GET`
/// with 405, the type of the body, its `length` in bytes, and whether the connection stays; then an empty line. An
/// `Err` leaves `out` as it was, and comes only where `out` had no room for the head.
pub fn reply_head(status: u16, length: u64, close: bool, out: &mut String) -> Result<(), AllocError>
    requires { IsReplyStatus status }
    ensures head { OnOk result (string_bytes out.new ≡ string_bytes out.old ++ head_of status length close) }
    ensures unchanged { OnErr result (string_bytes out.new ≡ string_bytes out.old) }
    ensures room { OnErr result (string_capacity out.old < string_len out.old
        + length_of (head_of status length close)) }
{
    let (mut code, mut digits) = (Buffer::new(), Buffer::new());
    let pieces: [&str; 8] = [
        "HTTP/1.1 ",
        code.format(status),
        " ",
        reason(status),
        allow(status),
        "Content-Type: text/plain; charset=utf-8\r\nContent-Length: ",
        digits.format(length),
        connection(close),
    ];
    append_all(&pieces, out)
}

// The reason of a status.
fn reason(status: u16) -> &'static str
    requires { IsReplyStatus status }
    ensures { result.now ≡ unwrap_or (reason_phrase status) unknown }
{
    let Ok(status) = StatusCode::from_u16(status) else {
        unreachable!()
    };
    let Some(reason) = status.canonical_reason() else {
        unreachable!()
    };
    reason
}

// The end of the first line, and what a refused method is told.
fn allow(status: u16) -> &'static str
    ensures { result.now ≡ allow_part status }
{
    if status == 405 {
        return "\r\nAllow: GET\r\n";
    }
    "\r\n"
}

// The end of the line of the length, whether the connection stays, and the empty line.
fn connection(close: bool) -> &'static str
    ensures { result.now ≡ connection_part close }
{
    if close {
        return "\r\nConnection: close\r\n\r\n";
    }
    "\r\nConnection: keep-alive\r\n\r\n"
}

// Appends all pieces, or none.
fn append_all(pieces: &[&str], out: &mut String) -> Result<(), AllocError>
    ensures all { OnOk result (string_bytes out.new ≡ string_bytes out.old
        ++ concat (map (λ piece. piece.now) pieces.now)) }
    ensures unchanged { OnErr result (string_bytes out.new ≡ string_bytes out.old) }
    ensures room { OnErr result (string_capacity out.old < string_len out.old
        + length_of (concat (map (λ piece. piece.now) pieces.now))) }
{
    let start = out.len();
    for piece in pieces {
        if let Err(fault) = out.push_str(piece) {
            out.truncate(start);
            return Err(fault);
        }
    }
    Ok(())
}
