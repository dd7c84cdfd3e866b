// The place of a worker.
ghost use Rattle.std.specs.Prelude.{◌≡◌, [], false, None, Some, IfSome, IfNone};
ghost use Rattle.std.specs.Borrow.{sem};
ghost use Rattle.batch_run.specs.Lending.{LendsSource};

use crate::viewing::Pass;
use batch_blocks::Reply;
use contract_tokens::{Log, Tells};
use std::alloc::Global;
use std::collections::{LinkedList, VecDeque};
use std::marker::{Brand, Model};

/// The place of one worker: its source, a pass while it has one, and its replies to the lines of a round. Contracts
/// see also what the pass had walked that was taken out of it last.
#[derive(Drop)]
pub struct Desk<S, P, W> {
    pub(crate) source: S,
    pub(crate) pass: Option<P>,
    pub(crate) replies: VecDeque<Reply>,
    pub(crate) lacks_memory: bool,
    shown: Log<W>,
}

impl<S, P, W> Model for Desk<S, P, W> {
    ghost use Rattle.batch_run.specs.Desks.{DeskSeen};

    ghost Value = { DeskSeen S P W };

    ghost view = { λ d. record {
      source = d.source;
      pass = d.pass;
      replies = d.replies.items;
      lacks_memory = d.lacks_memory;
      shown = d.shown;
    } };
}

impl<S, P: Pass<W>, W> Desk<S, P, W> {
    /// A desk with this source, no pass and no replies.
    pub fn new(alloc: Global, source: S) -> Desk<S, P, W>
        ensures { result ≡ record { source = source; pass = None; replies = []; lacks_memory = false; shown = [] } }
    {
        Desk {
            source,
            pass: None,
            replies: VecDeque::new(alloc),
            lacks_memory: false,
            shown: Log::empty(),
        }
    }

    /// The source.
    pub fn source(&self) -> &S
        ensures { result.now ≡ self.now.source }
    {
        &self.source
    }

    /// The source, for writing. All else of the desk stays as it is.
    pub fn source_mut(&mut self) -> &mut S
        ensures* writes_back { sem 𝓛 (LendsSource S.row P.row W.row self.entry result) }
        ensures source { result.now ≡ self.old.source }
    {
        &mut self.source
    }

    /// Puts a pass in, and gives back the one that it replaces: None exactly where there was none.
    pub fn put_pass(&mut self, pass: P) -> Option<P>
        ensures before { result ≡ self.old.pass }
        ensures now { self.new ≡ record self.old { pass = Some pass } }
    {
        self.pass.replace(pass)
    }

    /// Takes the pass out: None exactly where there was none.
    pub fn take_pass(&mut self) -> Option<P>
        ensures before { result ≡ self.old.pass }
        ensures none { IfNone result (self.new ≡ self.old) }
        ensures now { IfSome result (λ pass. self.new ≡ record self.old { pass = None; shown = P.walked pass }) }
    {
        let pass = self.pass.take()?;
        self.shown = walked_by::<P, W, Brand>(&pass);
        Some(pass)
    }
}

// `J` tells what the pass has walked.
fn walked_by<P: Pass<W>, W, J: Tells<LinkedList<W>>>(pass: &P) -> Log<W>
    requires { J.told ≡ P.walked pass.now }
    ensures { result ≡ P.walked pass.now }
{
    let _ = pass;
    Log::of::<J>()
}
