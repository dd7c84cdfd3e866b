// Queries: the values of `level`, `lo` and `hi`.
ghost use Rattle.std.specs.Prelude.{◌≡◌, [], ◌++◌, option_map, MatchOption, OnOk, length, take};
ghost use Rattle.std.specs.List.{list_all};
ghost use Rattle.http_text.specs.Inner.{IsOneOf, line_of_values};
ghost use Rattle.http_text.specs.Targets.{behind, is_parameter as is_known, values, only, parts_of, line_of_query};

use crate::cuts::cut;
use percent_encoding::percent_decode;
use std::alloc::AllocError;

// The values of a query of the right form, as they stand in it.
#[derive(Clone, Copy)]
pub(crate) struct Values<'q> {
    pub(crate) level: &'q [u8],
    pub(crate) lo: &'q [u8],
    pub(crate) hi: &'q [u8],
}

impl<'q> Values<'q> {
    // The values of a query. None where it has another form: a name is missing, stands twice, or is another one.
    pub(crate) fn of_query(query: &'q [u8]) -> Option<Values<'q>>
        ensures { MatchOption result (line_of_query query.now ≡ []) (λ v. line_of_query query.now ≡ line_of_values v) }
    {
        if !has_known_names(query) {
            return None;
        }
        let level = only_value(query, b"level=")?;
        let lo = only_value(query, b"lo=")?;
        let hi = only_value(query, b"hi=")?;
        Some(Values { level, lo, hi })
    }

    // Appends the decoded values, joined by single spaces. An `Err` may leave some of it behind the bytes of `line`.
    pub(crate) fn append_to(&self, line: &mut Vec<u8>) -> Result<(), AllocError>
        ensures line { OnOk result (line.new.items ≡ line.old.items ++ line_of_values self.now) }
        ensures kept { take (length line.old.items) line.new.items ≡ line.old.items }
    {
        percent_decode(self.level).append_to(line)?;
        line.push(b' ')?;
        percent_decode(self.lo).append_to(line)?;
        line.push(b' ')?;
        percent_decode(self.hi).append_to(line)
    }
}

// Each part begins with one of the names.
fn has_known_names(query: &[u8]) -> bool
    ensures { result ≡ list_all is_known (parts_of query.now) }
{
    let mut rest = query;
    while let Some((part, behind)) = cut(rest, b'&') {
        if !is_parameter(part) {
            return false;
        }
        rest = behind;
    }
    is_parameter(rest)
}

fn is_parameter(part: &[u8]) -> bool
    ensures { result ≡ is_known part.now }
{
    part.starts_with(b"level=") || part.starts_with(b"lo=") || part.starts_with(b"hi=")
}

// The value of the one part of this name. None where there is no such part, or another one.
fn only_value<'q>(query: &'q [u8], name: &[u8]) -> Option<&'q [u8]>
    ensures { option_map (λ value. value.now) result ≡ only (values name.now query.now) }
{
    let mut found = None;
    let mut rest = query;
    while let Some((part, behind)) = cut(rest, b'&') {
        found = one_of(found, value_of(part, name))?;
        rest = behind;
    }
    one_of(found, value_of(rest, name))?
}

// What was found of the two. None where both were.
fn one_of<'q>(first: Option<&'q [u8]>, second: Option<&'q [u8]>) -> Option<Option<&'q [u8]>>
    ensures { IsOneOf first.entry second.entry result }
{
    match (first, second) {
        (Some(_), Some(_)) => None,
        (Some(value), None) => Some(Some(value)),
        (None, second) => Some(second),
    }
}

fn value_of<'q>(part: &'q [u8], name: &[u8]) -> Option<&'q [u8]>
    ensures { option_map (λ value. value.now) result ≡ behind name.now part.now }
{
    part.strip_prefix(name)
}
