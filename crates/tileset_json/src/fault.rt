// What can be wrong with `tileset.json`.
ghost use Rattle.std.specs.Prelude.{◌≡◌};
ghost use Rattle.tileset_json.specs.Fault.{tileset_fault_number};

use std::alloc::AllocError;

/// The faults that the bytes of `tileset.json` show, in the order of their table (this project's own). Before them
/// stand 1, that there is no such file, and 2, that it is too long: whoever fetches it answers those.
#[derive(Clone, Copy, Debug, PartialEq, Eq)]
pub enum TilesetFault {
    /// `serde_json` doesn't read the bytes as a value.
    BadJson,
    /// The value isn't an object, or its `root` isn't one.
    NotObject,
    /// The root's `implicitTiling` isn't an object.
    NoImplicit,
    /// `subdivisionScheme` isn't the string `QUADTREE` or `OCTREE`.
    BadScheme,
    /// `subtreeLevels` isn't a number in the scheme's limits.
    BadSubtreeLevels,
    /// `availableLevels` isn't a number in the scheme's limits.
    BadAvailableLevels,
    /// `subtrees` isn't an object whose `uri` is a template.
    BadSubtreeTemplate,
    /// The root has both `content` and `contents`.
    BothContents,
    /// `content` isn't an object whose `uri` is a template, or `contents` isn't an array of such objects.
    BadContent,
    /// `contents` has more than 8 members.
    TooManyContents,
}

impl TilesetFault {
    /// The number under which the fault is reported.
    pub fn number(self) -> u64
        ensures { result ≡ tileset_fault_number self }
    {
        match self {
            TilesetFault::BadJson => 3,
            TilesetFault::NotObject => 4,
            TilesetFault::NoImplicit => 5,
            TilesetFault::BadScheme => 6,
            TilesetFault::BadSubtreeLevels => 7,
            TilesetFault::BadAvailableLevels => 8,
            TilesetFault::BadSubtreeTemplate => 9,
            TilesetFault::BothContents => 10,
            TilesetFault::BadContent => 11,
            TilesetFault::TooManyContents => 12,
        }
    }
}

/// Why there is no layout.
#[derive(Clone, Copy, Debug, PartialEq, Eq)]
pub enum LayoutFault {
    /// The number of the first fault of the bytes.
    Number(u64),
    /// There was no memory.
    Memory,
}

impl From<TilesetFault> for LayoutFault {
    ghost use Rattle.tileset_json.specs.Fault.{tileset_fault_number};
    ghost use Rattle.tileset_json.specs.declared.fault.LayoutFault.TheVariants.{Number};

    ghost from_gives = { λ fault r. r ≡ Number (tileset_fault_number fault) };

    fn from(fault: TilesetFault) -> LayoutFault {
        LayoutFault::Number(fault.number())
    }
}

impl From<AllocError> for LayoutFault {
    ghost use Rattle.tileset_json.specs.declared.fault.LayoutFault.TheVariants.{Memory};

    ghost from_gives = { λ _ r. r ≡ Memory };

    fn from(_error: AllocError) -> LayoutFault {
        LayoutFault::Memory
    }
}
