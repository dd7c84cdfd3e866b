// What a head decides.
ghost use Rattle.std.specs.Prelude.{◌≡◌, ◌≤◌, IfOk, length, slice_range};
ghost use Rattle.http_front.specs.Deciding.{decision_of};
ghost use Rattle.http_front.specs.Requests.{whole};
ghost use Rattle.http_front.specs.Table.{decision};

use http_text::{HeadParts, Route, route};
use std::alloc::AllocError;

/// What is done about a whole head: it has its reply, or the viewers are asked for it.
#[derive(Clone, Copy, Debug, PartialEq, Eq)]
pub enum Decided {
    /// A body is announced, which would be read as the next request.
    BadRequest,
    /// There is no such path.
    NotFound,
    /// The path is served, and the method isn't GET.
    NotAllowed,
    /// The viewers are asked for a request line on a route.
    Asks(Route),
}

/// What a whole head decides, by the first row of the table that holds. `bytes` begin with the head, and `line` holds
/// the request line afterwards, where the viewers are asked. What it held before is gone. After an `Err`, what it holds
/// is open.
pub fn decide(bytes: &[u8], parts: &HeadParts, line: &mut Vec<u8>) -> Result<Decided, AllocError>
    requires ordered { parts.now.target_start ≤ parts.now.target_end }
    requires inside { parts.now.target_end ≤ length bytes.now }
    ensures { IfOk result (λ decided. decision (whole parts.now (slice_range bytes.now parts.now.target_start
        parts.now.target_end)) ≡ decision_of decided line.new.items) }
{
    line.clear();
    if parts.body {
        return Ok(Decided::BadRequest);
    }
    let route = route(&bytes[parts.target_start..parts.target_end], line)?;
    if route == Route::NotFound {
        return Ok(Decided::NotFound);
    }
    if !parts.get {
        return Ok(Decided::NotAllowed);
    }
    Ok(Decided::Asks(route))
}
