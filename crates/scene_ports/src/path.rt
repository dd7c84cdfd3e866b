// The paths of the current folder that names stand for.
ghost use Rattle.std.specs.Prelude.{◌≡◌, ◌≢◌, All, IfOk, IsOk, IsTrue};
ghost use Rattle.std.specs.Option.{option_map};
ghost use Rattle.std.specs.Cow.{cow_str_bytes};
ghost use Rattle.percent_encoding.specs.Percent.{percent_sign};
ghost use Rattle.scene_ports.specs.Paths as paths;

use percent_encoding::{DecodeError, percent_decode};
use std::alloc::{AllocError, Global};
use std::borrow::CowStr;

// A path that stays in the current folder: there is no other way to one than by a name.
#[derive(Drop)]
pub(crate) struct PlainPath<'a> {
    text: CowStr<'a, Global>,
    ghost plain: { IsTrue (paths.is_plain (cow_str_bytes text)) },
}

impl<'a> PlainPath<'a> {
    // The path that a name stands for. None where the decoded name is no path of the folder. A name without a `%` is
    // its own path, and takes no memory.
    pub(crate) fn named(alloc: Global, name: &'a str) -> Result<Option<PlainPath<'a>>, AllocError>
        ensures path { IfOk result (λ found. option_map (λ path. cow_str_bytes path.text) found
            ≡ paths.path_named name.now) }
        ensures memory { All (λ byte. byte ≢ percent_sign) name.now → IsOk result }
    {
        let text = match percent_decode(name.as_bytes()).decode_utf8(alloc) {
            Ok(text) => text,
            Err(DecodeError::Utf8(_)) => return Ok(None),
            Err(DecodeError::OutOfMemory) => return Err(AllocError),
        };
        if !is_plain(text.as_str()) {
            return Ok(None);
        }
        Ok(Some(PlainPath { text }))
    }

    // The path as the system reads it.
    pub(crate) fn as_str(&self) -> &str
        ensures text { result.now ≡ cow_str_bytes self.now.text }
        ensures plain { IsTrue (paths.is_plain result.now) }
    {
        self.text.as_str()
    }
}

// A path stays in the folder: not empty, not absolute, without a zero byte or a `..` part.
fn is_plain(path: &str) -> bool
    ensures { result ≡ paths.is_plain path.now }
{
    !path.is_empty()
        && !path.starts_with('/')
        && !path.as_bytes().contains(&0)
        && !has_parent_part(path)
}

fn has_parent_part(path: &str) -> bool
    ensures { result ≡ paths.has_parent_part path.now }
{
    path.split('/').any(|part| part == "..")
}
