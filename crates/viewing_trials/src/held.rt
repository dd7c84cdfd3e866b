// Two workers at work at once.
ghost use Rattle.std.specs.Prelude.{◌≡◌, ◌≤◌, ◌+◌, None, length, IfOk};
ghost use Rattle.std.specs.List.{All};
ghost use Rattle.viewer_session.specs.Starts.{IsNewPass};
ghost use Rattle.batch_run.specs.Desks.{IsReady};

use crate::files::{Untold, source};
use batch_run::{Desk, Gate, Viewing, batch};
use scene_ports::{FileSource, MemoryLink};
use std::alloc::{AllocError, Global};
use std::hint::spin_loop;
use std::sync::atomic::{AtomicBool, Ordering};
use std::test::Fail;
use viewer_session::{Scene, Started, ViewerPass, Walked};

// So often it is looked whether the other line is answered.
const LOOKS: u32 = 4_000_000_000;

// Holds line 0 until line 1 is answered.
#[derive(Drop)]
struct HeldLine {
    answered: AtomicBool,
    met: AtomicBool,
}

impl Gate for HeldLine {
    fn before(&self, line: u64) {
        if line != 0 {
            return;
        }
        for _ in 0..LOOKS {
            if self.answered.load(Ordering::SeqCst) {
                self.met.store(true, Ordering::SeqCst);
                return;
            }
            spin_loop();
        }
    }

    fn after(&self, line: u64) {
        if line == 1 {
            self.answered.store(true, Ordering::SeqCst);
        }
    }
}

// A desk for each pass of a scene.
fn desks_with(
    alloc: Global,
    scene: &Scene,
    mut passes: Vec<ViewerPass>,
) -> Result<Vec<Desk<Untold, ViewerPass, Walked>>, AllocError>
    requires passes { All (IsNewPass scene.now) passes.items }
    requires told { scene.now.tileset.told ≡ None }
    ensures count { IfOk result (λ desks. length desks.items ≡ length passes.items) }
    ensures ready { IfOk result (λ desks. All (IsReady ⟦<Untold as FileSource>⟧.told
        (⟦<Scene as Viewing<ViewerPass, Walked, Untold>>⟧.seen scene.now)) desks.items) }
{
    let count = passes.len();
    let mut desks = Vec::new(alloc);
    for _ in 0..count {
        let files = source(alloc, None, &[])?;
        let next = next_desk(alloc, scene, &mut passes, files);
        desks.push(next)?;
    }
    Ok(desks)
}

// A desk with the last of these passes.
fn next_desk(
    alloc: Global,
    scene: &Scene,
    passes: &mut Vec<ViewerPass>,
    files: Untold,
) -> Desk<Untold, ViewerPass, Walked>
    requires some { 1 ≤ length passes.old.items }
    requires passes { All (IsNewPass scene.now) passes.old.items }
    requires told { scene.now.tileset.told ≡ None }
    ensures fewer { length passes.new.items + 1 ≡ length passes.old.items }
    ensures passes { All (IsNewPass scene.now) passes.new.items }
    ensures ready { IsReady ⟦<Untold as FileSource>⟧.told
        (⟦<Scene as Viewing<ViewerPass, Walked, Untold>>⟧.seen scene.now) result }
{
    let _ = scene;
    let Some(pass) = passes.pop() else {
        unreachable!()
    };
    let mut desk = Desk::new(alloc, files);
    let _ = desk.put_pass(pass);
    desk
}

#[test]
fn a_line_is_answered_while_another_is_held(rt: HostRuntime) -> Result<(), Fail> {
    let mut first = source(rt.alloc(), None, &[])?;
    let Ok(Started { scene, passes, .. }) = Scene::start(rt.alloc(), &mut first, 2, 8) else {
        return Err(Fail::new("the scene starts"));
    };
    let mut desks = desks_with(rt.alloc(), &scene, passes)?;
    let gate = HeldLine {
        answered: AtomicBool::new(false),
        met: AtomicBool::new(false),
    };
    let lines = "2 0,0 3,3\n2 0,0 3,3\n".as_bytes();
    let mut out = MemoryLink::new(rt.alloc(), Vec::new(rt.alloc()), 1, Vec::new(rt.alloc()));
    let answered = batch(
        &rt,
        rt.alloc(),
        &scene,
        desks.as_mut_slice(),
        &gate,
        lines,
        &mut out,
    );
    assert!(rt; answered.is_ok());
    assert!(rt; gate.met.load(Ordering::SeqCst));
    Ok(())
}
