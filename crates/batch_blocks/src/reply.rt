// The reply to a line, and its block.
ghost use Rattle.std.specs.Prelude.{◌≡◌, ◌≤◌, ◌++◌, Err, OnOk, string_bytes};
ghost use Rattle.scene_ports.specs.Counts.{Rose};
ghost use Rattle.scene_ports.specs.Output.{GivesFront, GivesAllBut};
ghost use Rattle.batch_blocks.specs.Replies.{reply_text, IsOfLayout};

use request_text::{append_answer, push_refusal};
use scene_ports::{GiveFault, Outlet, give_when_full};
use tile_coords::{WalkEnd, Word};
use tileset_json::Layout;

/// What a worker answers to a line.
#[derive(Debug, Drop)]
pub enum Reply {
    /// The line is refused; the number of the first rule that it breaks (1 to 5).
    Refused(u64),
    /// The source failed, and has counted a fault.
    ReadFault,
    /// The answer is whole: how it ends, and the words of its tiles.
    Whole { end: WalkEnd, words: Vec<Word> },
}

/// Appends the block of a reply to the piece that is held back, and gives the piece whenever it is full. After an
/// `Err` some front of what the piece held and the block was given.
pub fn append_reply<O: Outlet>(
    layout: &Layout,
    reply: &Reply,
    piece: &mut String,
    out: &mut O,
) -> Result<(), GiveFault>
    requires { IsOfLayout layout.now reply.now }
    ensures given { OnOk result (GivesAllBut (O.given out.old) (O.given out.new) (string_bytes piece.new)
        (string_bytes piece.old ++ reply_text layout.now reply.now)) }
    ensures front { GivesFront (O.given out.old) (O.given out.new)
        (string_bytes piece.old ++ reply_text layout.now reply.now) }
    ensures failed { result ≡ Err GiveFault.WriteFault → Rose (O.faults out.old) (O.faults out.new) }
    ensures later { O.faults out.old ≤ O.faults out.new }
    ensures aside { O.inlet_aside out.new ≡ O.inlet_aside out.old }
{
    match reply {
        Reply::Refused(number) => {
            push_refusal(*number, piece)?;
            give_when_full(out, piece)
        }
        Reply::ReadFault => {
            piece.push_str("read-fault\n")?;
            give_when_full(out, piece)
        }
        Reply::Whole { end, words } => append_answer(layout, words, *end, piece, out),
    }
}
