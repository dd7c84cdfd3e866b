// The passes of a replay.
ghost use Rattle.std.specs.Prelude.{◌≡◌, ◌<◌, length, replicate, slice_get, slice_set, IfOk, None};
ghost use Rattle.replay_machine.specs.declared.pass.Held.TheVariants.{Nothing as no_frame};

use replay_machine::{Held, Pass};
use std::alloc::{AllocError, Global};
use std::marker::Model;

/// The passes of a replay, by their numbers.
#[derive(Drop)]
pub struct Passes {
    list: Vec<Pass>,
}

impl Model for Passes {
    ghost use Rattle.std.specs.Prelude.{List};
    ghost use Rattle.replay_machine.specs.declared.pass.Pass.{Pass};

    ghost Value = { List Pass };

    ghost view = { λ p. p.list.items };
}

impl Passes {
    /// So many passes without a cursor. Memory is the one error.
    pub(crate) fn new(alloc: Global, count: usize) -> Result<Passes, AllocError>
        ensures { IfOk result
            (λ passes. passes ≡ replicate count (record { cursor = None; place = 0; frame = no_frame })) }
    {
        let mut list = Vec::with_capacity(alloc, count)?;
        for _ in 0..count {
            list.push(Pass {
                cursor: None,
                place: 0,
                frame: Held::Nothing,
            })?;
        }
        Ok(Passes { list })
    }

    /// The pass of a number.
    pub(crate) fn get(&self, number: u32) -> Option<Pass>
        ensures { result ≡ slice_get self.now number }
    {
        self.list.get(number as usize).copied()
    }

    /// Another state of the pass of a number.
    pub(crate) fn set(&mut self, number: u32, pass: Pass)
        requires { number < length self.old }
        ensures { self.new ≡ slice_set self.old number pass }
    {
        self.list[number as usize] = pass;
    }
}
