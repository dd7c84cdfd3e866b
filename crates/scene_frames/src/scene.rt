// The frames of a scene.
ghost use Rattle.std.specs.Prelude.{◌≡◌, ◌≤◌, IfOk};
ghost use Rattle.shared_pool.specs.Seen.{first_note};
ghost use Rattle.scene_frames.specs.Held.{IsOfScene};

use crate::rule::{Outcomes, SceneTag};
use contract_tokens::Tells;
use scene_ports::FileSource;
use shared_pool::Host;
use std::alloc::{AllocError, Global};
use std::marker::Brand;
use tileset_json::Layout;

impl Tells<SceneTag> for Brand {
    ghost use Rattle.scene_frames.specs.Held.{no_scene};

    ghost told = { no_scene };
}

/// Empty frames (1 to 1,024) for the scene of a source and its layout, with as many passes (1 to 64) as may be handed out.
/// All memory that the passes need is taken here, but what they read and share. An error is want of memory.
pub fn start<S: FileSource>(
    alloc: Global,
    files: &S,
    layout: &Layout,
    passes: usize,
    frames: usize,
) -> Result<Host<Outcomes>, AllocError>
    requires passes { (1 ≤ passes) × (passes ≤ 64) }
    requires frames { (1 ≤ frames) × (frames ≤ 1024) }
    ensures scene { IfOk result (λ host. IsOfScene layout.now (S.told files.now) host.tag) }
    ensures sizes { IfOk result (λ host. (host.tag.frames ≡ frames) × (host.tag.passes ≡ passes)) }
    ensures fresh { IfOk result (λ host. (host.next ≡ 0) × (host.note ≡ first_note passes)) }
{
    told::<S, Brand>(alloc, files, layout, passes, frames)
}

// `J` tells the scene at hand.
fn told<S: FileSource, J: Tells<SceneTag>>(
    alloc: Global,
    files: &S,
    layout: &Layout,
    passes: usize,
    frames: usize,
) -> Result<Host<Outcomes>, AllocError>
    requires told { (J.told.told ≡ S.told files.now) × (J.told.layout ≡ layout.now) }
    requires passes { (1 ≤ passes) × (passes ≤ 64) }
    requires frames { (1 ≤ frames) × (frames ≤ 1024) }
    ensures scene { IfOk result (λ host. IsOfScene layout.now (S.told files.now) host.tag) }
    ensures sizes { IfOk result (λ host. (host.tag.frames ≡ frames) × (host.tag.passes ≡ passes)) }
    ensures fresh { IfOk result (λ host. (host.next ≡ 0) × (host.note ≡ first_note passes)) }
{
    let _ = files;
    let _ = layout;
    Host::<Outcomes>::start::<J>(alloc, passes, frames)
}
