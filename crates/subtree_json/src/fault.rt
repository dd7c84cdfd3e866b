// Faults of the JSON part.
ghost use Rattle.std.specs.Prelude.{◌≡◌};
ghost use Rattle.subtree_json.specs.Faults.{fault_number};
ghost use Rattle.subtree_json.specs.declared.fault.JsonFault.TheVariants.{Memory};

use std::alloc::{AllocError, AllocFailed};

/// Why the JSON part of a subtree file has no record. Of the first five the first that holds is answered, in this
/// order (the numbers and the order are this project's own).
#[derive(Clone, Copy, Debug, PartialEq, Eq)]
pub enum JsonFault {
    /// The bytes aren't UTF-8, or are no JSON value, or nest deeper than `serde_json` reads.
    BadJson,
    /// The value isn't an object.
    NotObject,
    /// `buffers` is there and isn't an array, or a member of it isn't an object with a number `byteLength`, or has a
    /// `uri` that isn't a string.
    BadBuffers,
    /// `bufferViews` is there and isn't an array, or a member of it isn't an object with the numbers `buffer`,
    /// `byteOffset` and `byteLength`.
    BadViews,
    /// `tileAvailability` or `childSubtreeAvailability` isn't an availability object, or
    /// `contentAvailability` is there and isn't an array.
    BadAvailability,
    /// There isn't enough memory.
    Memory,
}

impl JsonFault {
    /// The number in the table of faults of a subtree file, 7 to 11; none where there isn't enough memory.
    pub fn number(self) -> Option<u64>
        ensures { result ≡ fault_number self }
    {
        match self {
            JsonFault::BadJson => Some(7),
            JsonFault::NotObject => Some(8),
            JsonFault::BadBuffers => Some(9),
            JsonFault::BadViews => Some(10),
            JsonFault::BadAvailability => Some(11),
            JsonFault::Memory => None,
        }
    }
}

impl From<AllocError> for JsonFault {
    ghost from_gives = { λ _ fault. fault ≡ Memory };

    fn from(_: AllocError) -> JsonFault {
        JsonFault::Memory
    }
}

impl<T: Drop> From<AllocFailed<T>> for JsonFault {
    ghost from_gives = { λ _ fault. fault ≡ Memory };

    fn from(_: AllocFailed<T>) -> JsonFault {
        JsonFault::Memory
    }
}
