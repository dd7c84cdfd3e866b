// Who answers requests.
ghost use Rattle.std.specs.Prelude.{◌≡◌, ◌≤◌, ◌++◌, ℕ, List, Err, OnOk, string_bytes};
ghost use Rattle.std.specs.Io.KnownBytes.{Appends};
ghost use Rattle.scene_ports.specs.Counts.{Rose};
ghost use Rattle.scene_ports.specs.Output.{GivesFront};
ghost use Rattle.http_text.specs.declared.routes.Route.{Route};
ghost use Rattle.http_front.specs.Table.{Answered};
ghost use Rattle.http_connection.specs.Answers.{answered_of, HasLength};

use crate::answers::ViewersAnswer;
use http_text::Route;
use scene_ports::{GiveFault, Outlet};

/// Who answers the requests of connections, one after another, on the routes `Tiles` and `Prefix`. What may be
/// answered, and what it does to the viewers, is a relation.
pub trait Viewers {
    /// What may be answered to a line on a route, by viewers before and after.
    ghost may: { Self → Self → Route → List ℕ → Answered → Type 0 };

    /// The text of the last answer, where it has one.
    ghost text: { Self → List ℕ };

    /// Answers a request line. A text stands ready afterwards, and is given by `write_text`.
    fn answer(&mut self, route: Route, line: &[u8]) -> ViewersAnswer
        ensures answered { may self.old self.new route line.now (answered_of result (text self.new)) }
        ensures length { HasLength result (text self.new) };

    /// Gives what the piece holds and then the text of the last answer. So a short text leaves together with the
    /// reply's head, which stands in the piece. After an `Err` some front of it was given. What the piece holds
    /// afterwards is open.
    fn write_text<O: Outlet>(&self, piece: &mut String, out: &mut O) -> Result<(), GiveFault>
        ensures given { OnOk result (Appends (O.given out.old) (O.given out.new)
            (string_bytes piece.old ++ text self.now)) }
        ensures front { GivesFront (O.given out.old) (O.given out.new) (string_bytes piece.old ++ text self.now) }
        ensures failed { result ≡ Err GiveFault.WriteFault → Rose (O.faults out.old) (O.faults out.new) }
        ensures later { O.faults out.old ≤ O.faults out.new }
        ensures aside { O.inlet_aside out.new ≡ O.inlet_aside out.old };
}
