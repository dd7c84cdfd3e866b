// The texts of replies.
ghost use Rattle.std.specs.Prelude.{◌≡◌, ◌≤◌, ◌++◌, Err, OnOk, string_bytes};
ghost use Rattle.std.specs.List.{flat_map, All};
ghost use Rattle.implicit_tiling.specs.Code.{IsWord};
ghost use Rattle.implicit_tiling.specs.Text.{word_line};
ghost use Rattle.scene_ports.specs.Counts.{Rose};
ghost use Rattle.scene_ports.specs.Output.{GivesFront, GivesAllBut};
ghost use Rattle.replay_script.specs.Replies.{first_line, numbered_line, page_line, state_text};
ghost use Rattle.replay_script.specs.Replies.{reply_text, reply_words};

use crate::reply::Reply;
use request_text::{push_field, push_word_line};
use scene_ports::{GiveFault, Outlet, give_when_full};
use std::alloc::AllocError;
use tile_coords::{WalkEnd, Word};
use tileset_json::Layout;

/// Gives the text of a reply behind a piece that is held back: its line, and in a page a line for each tile as in an
/// answer. What makes no full piece is held back in turn, until `give_rest` gives it. After an `Err` some front of
/// piece and text was given.
pub fn write_reply<O: Outlet>(
    layout: &Layout,
    reply: &Reply,
    piece: &mut String,
    out: &mut O,
) -> Result<(), GiveFault>
    requires { All (IsWord layout.now.scheme) (reply_words reply.now) }
    ensures given { OnOk result (GivesAllBut (O.given out.old) (O.given out.new) (string_bytes piece.new)
        (string_bytes piece.old ++ reply_text layout.now reply.now)) }
    ensures front { GivesFront (O.given out.old) (O.given out.new)
        (string_bytes piece.old ++ reply_text layout.now reply.now) }
    ensures failed { result ≡ Err GiveFault.WriteFault → Rose (O.faults out.old) (O.faults out.new) }
    ensures later { O.faults out.old ≤ O.faults out.new }
    ensures aside { O.inlet_aside out.new ≡ O.inlet_aside out.old }
{
    push_first_line(reply, piece)?;
    give_when_full(out, piece)?;
    write_words(layout, reply.words(), piece, out)
}

// Gives the lines of some tiles behind a piece that is held back.
fn write_words<O: Outlet>(
    layout: &Layout,
    words: &[Word],
    piece: &mut String,
    out: &mut O,
) -> Result<(), GiveFault>
    requires { All (IsWord layout.now.scheme) words.now }
    ensures given { OnOk result (GivesAllBut (O.given out.old) (O.given out.new) (string_bytes piece.new)
        (string_bytes piece.old ++ flat_map (word_line layout.now) words.now)) }
    ensures front { GivesFront (O.given out.old) (O.given out.new)
        (string_bytes piece.old ++ flat_map (word_line layout.now) words.now) }
    ensures failed { result ≡ Err GiveFault.WriteFault → Rose (O.faults out.old) (O.faults out.new) }
    ensures later { O.faults out.old ≤ O.faults out.new }
    ensures aside { O.inlet_aside out.new ≡ O.inlet_aside out.old }
{
    for word in words {
        push_word_line(layout, *word, piece)?;
        give_when_full(out, piece)?;
    }
    Ok(())
}

// Appends the line that each reply has.
fn push_first_line(reply: &Reply, piece: &mut String) -> Result<(), AllocError>
    ensures { OnOk result (string_bytes piece.new ≡ string_bytes piece.old ++ first_line reply.now) }
{
    match reply {
        Reply::Bad => piece.push_str("bad\n"),
        Reply::No => piece.push_str("no\n"),
        Reply::Cursor(cursor) => push_numbered("cursor", u64::from(*cursor), piece),
        Reply::Refused(number) => push_numbered("refused", *number, piece),
        Reply::Claimed => piece.push_str("claimed\n"),
        Reply::End => piece.push_str("end\n"),
        Reply::Out => piece.push_str("out\n"),
        Reply::Hit(frame) => push_numbered("hit", u64::from(*frame), piece),
        Reply::Granted(frame) => push_numbered("granted", u64::from(*frame), piece),
        Reply::Loading => piece.push_str("loading\n"),
        Reply::Busy => piece.push_str("busy\n"),
        Reply::Loaded(frame) => push_numbered("loaded", u64::from(*frame), piece),
        Reply::Failed => piece.push_str("failed\n"),
        Reply::Moved(tiles) => push_numbered("moved", *tiles, piece),
        Reply::Dropped => piece.push_str("dropped\n"),
        Reply::Page { from, words, end } => push_page(*from, words.len(), *end, piece),
    }
}

// Appends the line of a name and a number.
fn push_numbered(name: &str, number: u64, piece: &mut String) -> Result<(), AllocError>
    ensures { OnOk result (string_bytes piece.new ≡ string_bytes piece.old ++ numbered_line name.now number) }
{
    piece.push_str(name)?;
    push_field(number, piece)?;
    piece.push('\n')
}

// Appends the first line of a page.
fn push_page(from: u64, count: usize, end: WalkEnd, piece: &mut String) -> Result<(), AllocError>
    ensures { OnOk result (string_bytes piece.new ≡ string_bytes piece.old ++ page_line from count end) }
{
    piece.push_str("page")?;
    push_field(from, piece)?;
    push_field(count as u64, piece)?;
    piece.push('\t')?;
    piece.push_str(state_of(end))?;
    piece.push('\n')
}

fn state_of(end: WalkEnd) -> &'static str
    ensures { result.now ≡ state_text end }
{
    match end {
        WalkEnd::Partial => "partial",
        WalkEnd::Complete => "complete",
        WalkEnd::TooMany => "too-many",
        WalkEnd::Fault { .. } => "fault",
    }
}
