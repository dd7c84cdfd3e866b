// Who gets which frame, in a row of calls.
ghost use Rattle.std.specs.Prelude.{◌≡◌, ◌-◌, ◌^◌, ◌<◌, true};
ghost use Rattle.frame_pool.specs.States.{pins_of};
ghost use Rattle.frame_pool.specs.Frames.{EachFrame, IsPinnedAt};

use frame_pool::{Asked, FrameState, Pool};
use std::test::Fail;

// Whether another pin may come to each frame.
fn has_room(pool: &Pool<u64, u8>) -> bool
    ensures { result ≡ true → EachFrame (λ state. pins_of state < 2 ^ 32 - 1) pool.now.census }
{
    pool.census().iter().all(|state| match state {
        FrameState::Ready { pins, .. } => *pins < u32::MAX,
        _ => true,
    })
}

// Ends a pin where the value is the one that was brought.
fn end(pool: &mut Pool<u64, u8>, frame: u32)
    requires { IsPinnedAt pool.old.census frame }
{
    if *pool.look(frame) == 1 {
        pool.unpin(frame);
    }
}

// Asks, and if the user is done then the value is brought, looked at and no longer used.
fn ask(pool: &mut Pool<u64, u8>, key: u64, done: bool) -> Asked {
    if !has_room(pool) {
        return Asked::Busy;
    }
    let answer = pool.ask(key);
    match answer {
        Asked::Granted(frame) => {
            if done {
                pool.settle(frame, Some(1));
                end(pool, frame);
            }
        }
        Asked::Hit(frame) => {
            if done {
                end(pool, frame);
            }
        }
        _ => {}
    }
    answer
}

#[test]
fn frames_are_asked_for(rt: HostRuntime) -> Result<(), Fail> {
    let mut pool = Pool::<u64, u8>::new(rt.alloc(), 2)?;
    let rows: [(u64, bool, Asked); 8] = [
        (7, true, Asked::Granted(0)),
        (8, true, Asked::Granted(1)),
        (7, true, Asked::Hit(0)),
        (9, false, Asked::Granted(1)),
        (8, false, Asked::Granted(0)),
        (8, false, Asked::Loading),
        (9, false, Asked::Loading),
        (5, false, Asked::Busy),
    ];
    for (key, done, wanted) in rows {
        assert!(rt; ask(&mut pool, key, done) == wanted);
    }
    let order: Vec<u32> = pool.order().collect(rt.alloc())?;
    assert!(rt; order.as_slice() == [0, 1].as_slice());
    let loading = pool
        .census()
        .iter()
        .filter(|state| matches!(state, FrameState::Loading { .. }));
    assert!(rt; loading.count() == 2);
    Ok(())
}
