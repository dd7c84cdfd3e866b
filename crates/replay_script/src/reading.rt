// Reading a script: lines to events.
ghost use Rattle.std.specs.Prelude.{◌≡◌, Some};
ghost use Rattle.replay_script.specs.Script.{event_of, IsNextEvent, words_in, event_named, attach_event, page_event};
ghost use Rattle.replay_script.specs.Script.{paged, pass_event, event_of_pass};

use crate::event::Event;
use request_text::{cut, next_line, parse_line, read_number};
use tileset_json::Layout;

/// The most tiles that a line asks a page for.
pub const MOST_PAGE: u32 = 65_536;

/// The event of the first line of an input, and what stands behind that line: so an input is read event by event, and
/// takes no memory. None exactly where the input is empty.
pub fn next_event<'a>(layout: &Layout, input: &'a [u8]) -> Option<(Event<()>, &'a [u8])>
    ensures { IsNextEvent layout.now.scheme layout.now.levels input.now result }
{
    match next_line(input) {
        Some((line, rest)) => Some((read_event(layout, line), rest)),
        None => None,
    }
}

/// The event of a line, without what ends the line. An `attach` has the plan of its request line over the layout, or
/// the number of the first rule that refuses it.
pub fn read_event(layout: &Layout, line: &[u8]) -> Event<()>
    ensures { result ≡ event_of layout.now.scheme layout.now.levels line.now }
{
    match cut(line, b' ') {
        Some((name, rest)) => read_named(layout, name, rest),
        None => Event::Bad,
    }
}

// The event of a name and of what stands behind it and a blank.
fn read_named(layout: &Layout, name: &[u8], rest: &[u8]) -> Event<()>
    ensures { result ≡ event_named layout.now.scheme layout.now.levels name.now (words_in rest.now) }
{
    if name == b"attach".as_slice() {
        return read_attach(layout, rest);
    }
    if name == b"page".as_slice() {
        return read_page(rest);
    }
    read_pass(name, rest)
}

fn read_attach(layout: &Layout, rest: &[u8]) -> Event<()>
    ensures { result ≡ attach_event layout.now.scheme layout.now.levels (words_in rest.now) }
{
    let Some((pass, request)) = cut(rest, b' ') else {
        return Event::Bad;
    };
    match read_number(pass) {
        Some(pass) => Event::Attach {
            pass,
            asked: parse_line(layout, request),
        },
        None => Event::Bad,
    }
}

fn read_page(rest: &[u8]) -> Event<()>
    ensures { result ≡ page_event (words_in rest.now) }
{
    let Some((pass, count)) = cut(rest, b' ') else {
        return Event::Bad;
    };
    let Some(pass) = read_number(pass) else {
        return Event::Bad;
    };
    match read_number(count) {
        Some(count) => page_of(pass, count),
        None => Event::Bad,
    }
}

fn page_of(pass: u32, count: u32) -> Event<()>
    ensures { result ≡ paged (Some pass) (Some count) }
{
    if count <= MOST_PAGE {
        Event::Page { pass, count }
    } else {
        Event::Bad
    }
}

fn read_pass(name: &[u8], rest: &[u8]) -> Event<()>
    ensures { result ≡ pass_event name.now (words_in rest.now) }
{
    match read_number(rest) {
        Some(pass) => event_of_name(name, pass),
        None => Event::Bad,
    }
}

// The event of a name that has the number of a pass and nothing else behind it.
fn event_of_name(name: &[u8], pass: u32) -> Event<()>
    ensures { result ≡ event_of_pass name.now pass }
{
    if name == b"claim".as_slice() {
        Event::Claim { pass }
    } else if name == b"pin".as_slice() {
        Event::Pin { pass }
    } else if name == b"load".as_slice() {
        Event::Load { pass, read: () }
    } else if name == b"fail".as_slice() {
        Event::Fail { pass }
    } else if name == b"commit".as_slice() {
        Event::Commit { pass }
    } else if name == b"drop".as_slice() {
        Event::Drop { pass }
    } else {
        Event::Bad
    }
}
