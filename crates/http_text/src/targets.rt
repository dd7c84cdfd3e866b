// Targets of requests: a path, and a query that is a request line in other words.
ghost use Rattle.std.specs.Prelude.{◌≡◌, ◌≢◌, ◌++◌, [], IfOk, OnOk, OnErr};
ghost use Rattle.http_text.specs.Inner.{line_of_values};
ghost use Rattle.http_text.specs.Targets.{path_of, query_of, route_of as route_in, route_of_path as route_at, line_in};

use crate::cuts::cut;
use crate::query::Values;
use crate::routes::Route;
use std::alloc::AllocError;

/// What a target asks for (this project's own). It is cut at its first `?`. Before that is the path, compared byte by
/// byte. Where it is served, the request line is appended to `line`: LEVEL LO HI, of a query in which each of
/// `level=`, `lo=` and `hi=` stands once, in any order, between `&`, with values whose escapes are decoded; or the
/// empty line, which is refused, where the query has another form. An `Err` leaves `line` as it was.
pub fn route(target: &[u8], line: &mut Vec<u8>) -> Result<Route, AllocError>
    ensures route { IfOk result (λ route. route ≡ route_in target.now) }
    ensures line { OnOk result (line.new.items ≡ line.old.items ++ line_in target.now) }
    ensures unchanged { OnErr result (line.new.items ≡ line.old.items) }
    ensures memory { OnErr result (line_in target.now ≢ []) }
{
    let route = route_of_path(path(target));
    if route == Route::NotFound {
        return Ok(route);
    }
    if let Some(values) = Values::of_query(query(target)) {
        append_line(&values, line)?;
    }
    Ok(route)
}

// Appends the line of the values, or nothing.
fn append_line(values: &Values<'_>, line: &mut Vec<u8>) -> Result<(), AllocError>
    ensures line { OnOk result (line.new.items ≡ line.old.items ++ line_of_values values.now) }
    ensures unchanged { OnErr result (line.new.items ≡ line.old.items) }
{
    let start = line.len();
    let appended = values.append_to(line);
    if appended.is_err() {
        line.truncate(start);
    }
    appended
}

fn route_of_path(path: &[u8]) -> Route
    ensures { result ≡ route_at path.now }
{
    if path == b"/tiles".as_slice() {
        return Route::Tiles;
    }
    if path == b"/prefix".as_slice() {
        return Route::Prefix;
    }
    Route::NotFound
}

fn path(target: &[u8]) -> &[u8]
    ensures { result.now ≡ path_of target.now }
{
    match cut(target, b'?') {
        Some((path, _)) => path,
        None => target,
    }
}

fn query(target: &[u8]) -> &[u8]
    ensures { result.now ≡ query_of target.now }
{
    match cut(target, b'?') {
        Some((_, query)) => query,
        None => &[],
    }
}
