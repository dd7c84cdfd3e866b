// A pass to a pool.
ghost use Rattle.std.specs.Prelude.{◌≡◌, Some, IfSome};
ghost use Rattle.std.specs.Arc.{arc_value};
ghost use Rattle.shared_pool.specs.Fits.{IsIdle};
ghost use Rattle.shared_pool.specs.Seen.{HasPinned, HasSettled, HasFreed};

use crate::answer::{Asking, Held, Pinned};
use crate::ask::ask;
use crate::changes::{fail, fill, free};
use crate::rule::{PoolRule, Pooled};
use std::alloc::Global;
use std::marker::Model;
use std::sync::{Arc, Wait};
use turn_lock::{Seat, TurnLock};

/// A pass, which any thread may have. Contracts see its number and note, and the pool that it took and gave last.
/// A pass that is dropped while it pins or loads keeps its frame for good.
#[derive(Drop)]
pub struct PoolPass<R: PoolRule> {
    pub(crate) lock: Arc<TurnLock<Pooled<R>>, Global>,
    pub(crate) seat: Seat<Pooled<R>>,
    pub(crate) number: usize,
    pub(crate) held: Held<R::Key>,
}

impl<R: PoolRule> Model for PoolPass<R> {
    ghost use Rattle.std.specs.Arc.{arc_value};
    ghost use Rattle.shared_pool.specs.Seen.{PassSeen, IsPass};

    ghost Value = { PassSeen R.Tag R.Key R.Item };

    ghost view = { λ p. record {
      table = p.seat.table;
      tag = p.seat.tag;
      number = p.number;
      note = p.seat.note;
      last =
          p.seat.last;
      gave = p.seat.gave;
    } };

    ghost invariant = { λ p. IsPass p.seat (arc_value p.lock) p.number p.held };
}

impl<R: PoolRule> PoolPass<R> {
    /// Pins the value of the key, or is granted a frame to load it into. While another pass loads the key, this one
    /// looks again. Memory is taken only to share the value of a hit.
    pub fn pin(&mut self, rt: &impl Wait, key: R::Key) -> Pinned<R::Item>
        requires { IsIdle self.old.note }
        ensures same { self.new ≡ record self.old { note = self.new.note; last = self.new.last; gave = self.new.gave } }
        ensures answer { HasPinned R.Key.eq R.fits self.old.number key self.old.tag self.old.note self.new.last
            self.new.gave self.new.note result }
    {
        match ask(&self.lock, rt, &mut self.seat, self.number, key) {
            Asking::Hit(frame, value) => {
                self.held = Held::Pinned { frame };
                Pinned::Hit(value)
            }
            Asking::Granted(frame) => {
                self.held = Held::Loading { frame, key };
                Pinned::Granted
            }
            Asking::Busy => Pinned::Busy,
            Asking::Memory => Pinned::Memory,
        }
    }

    /// Ends the loading. With a value the frame is ready, and this pass pins it; without one it is empty. No memory is
    /// taken.
    pub fn settle(&mut self, rt: &impl Wait, value: Option<Arc<R::Item, Global>>)
        requires { (l : _) × (self.old.note.loading ≡ Some l)
            × IfSome value (λ a. R.fits self.old.tag.own l.key (arc_value a)) }
        ensures same { self.new ≡ record self.old { note = self.new.note; last = self.new.last; gave = self.new.gave } }
        ensures settled { HasSettled self.old.number self.old.tag self.old.note self.new.last self.new.gave
            self.new.note value }
    {
        let Held::Loading { frame, key } = self.held else {
            unreachable!()
        };
        let shared = self.lock.take(rt, &mut self.seat);
        match value {
            Some(value) => {
                fill(&self.lock, &mut self.seat, shared, key, frame, value);
                self.held = Held::Pinned { frame };
            }
            None => {
                fail(&self.lock, &mut self.seat, shared, self.number, key, frame);
                self.held = Held::Nothing;
            }
        }
    }

    /// Ends the pin. No memory is taken.
    pub fn unpin(&mut self, rt: &impl Wait)
        requires { (p : _) × (self.old.note.pin ≡ Some p) }
        ensures same { self.new ≡ record self.old { note = self.new.note; last = self.new.last; gave = self.new.gave } }
        ensures freed { HasFreed self.old.tag self.old.note self.new.last self.new.gave self.new.note }
    {
        let Held::Pinned { frame } = self.held else {
            unreachable!()
        };
        let shared = self.lock.take(rt, &mut self.seat);
        free(&self.lock, &mut self.seat, shared, frame);
        self.held = Held::Nothing;
    }
}
