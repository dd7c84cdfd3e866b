// What a line of a script asks for.
ghost use Rattle.std.specs.Prelude.{◌≡◌};
ghost use Rattle.replay_script.specs.Events.{with_read as event_with_read};

use tile_coords::Plan;

/// What a line of a script asks for (this project's own). Passes are the viewers, by their numbers; `R` is what a load
/// has read: nothing in a script, where it is still to be read.
#[derive(Clone, Copy, Debug, PartialEq, Eq)]
pub enum Event<R> {
    /// The pass takes the cursor of a plan, and begins at its first tile. In place of a plan stands the number of the
    /// rule that refuses the request line.
    Attach { pass: u32, asked: Result<Plan, u64> },
    /// The pass takes the work of its cursor, so that no other pass makes its next step.
    Claim { pass: u32 },
    /// The pass asks for the frame of the root that the next step of its work reads.
    Pin { pass: u32 },
    /// The file of the root that the pass is loading is read.
    Load { pass: u32, read: R },
    /// What the pass is loading can't be read.
    Fail { pass: u32 },
    /// The pass makes the next step of its work, and gives frame and work back.
    Commit { pass: u32 },
    /// The pass gives frame and work back, and makes no step.
    Drop { pass: u32 },
    /// The pass reads on, up to this many tiles.
    Page { pass: u32, count: u32 },
    /// The line has none of these forms.
    Bad,
}

impl Event<()> {
    /// The same event, in which a load has read this.
    pub fn with_read<R: Drop>(self, read: R) -> Event<R>
        ensures { result ≡ event_with_read self read }
    {
        match self {
            Event::Attach { pass, asked } => Event::Attach { pass, asked },
            Event::Claim { pass } => Event::Claim { pass },
            Event::Pin { pass } => Event::Pin { pass },
            Event::Load { pass, .. } => Event::Load { pass, read },
            Event::Fail { pass } => Event::Fail { pass },
            Event::Commit { pass } => Event::Commit { pass },
            Event::Drop { pass } => Event::Drop { pass },
            Event::Page { pass, count } => Event::Page { pass, count },
            Event::Bad => Event::Bad,
        }
    }
}
