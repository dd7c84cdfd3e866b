// Why a subtree file can't be decoded.
ghost use Rattle.std.specs.Prelude.{◌≡◌};
ghost use Rattle.subtree_file.specs.Faults.{bits_fault_number};

use crate::parts::PartsFault;
use availability::RuleFault;
use std::alloc::{AllocError, AllocFailed};
use subtree_json::JsonFault;

/// What is wrong with the availabilities that a file's record names, with the files of their buffers, or with their
/// bits. The first that holds of any that is used is answered, in this order (the numbers and the order are this
/// project's own).
#[derive(Clone, Copy, Debug, PartialEq, Eq)]
pub enum BitsFault {
    /// A bitstream names a buffer view that isn't there, or one whose buffer isn't.
    ViewUnknown,
    /// The buffer of a view has no `uri`, in a file of the JSON form.
    NoBuffer,
    /// No file has the name of the external buffer of a view.
    BufferMissing,
    /// The files of the external buffers, each once, are together longer than a file may be.
    BuffersLong,
    /// A view ends past its buffer, or the buffer past the bytes that are there for it.
    ViewOut,
    /// A view has fewer bits than are needed.
    BitsShort,
    /// `availableCount` isn't the number of ones among the needed bits.
    CountWrong,
    /// A node below the local root is there and its parent isn't.
    ParentMissing,
    /// A node has a content and isn't there.
    ContentWithoutTile,
}

impl BitsFault {
    /// The number in the table of faults of a subtree file, 12 to 20.
    pub fn number(self) -> u64
        ensures { result ≡ bits_fault_number self }
    {
        match self {
            BitsFault::ViewUnknown => 12,
            BitsFault::NoBuffer => 13,
            BitsFault::BufferMissing => 19,
            BitsFault::BuffersLong => 20,
            BitsFault::ViewOut => 14,
            BitsFault::BitsShort => 15,
            BitsFault::CountWrong => 16,
            BitsFault::ParentMissing => 17,
            BitsFault::ContentWithoutTile => 18,
        }
    }
}

/// Why a subtree file isn't decoded.
#[derive(Clone, Copy, Debug, PartialEq, Eq)]
pub enum DecodeFault {
    /// The number of its first fault in the table of faults of a subtree file, 3 to 20.
    Fault(u64),
    /// There isn't enough memory.
    Memory,
}

impl From<PartsFault> for DecodeFault {
    ghost use Rattle.subtree_file.specs.Parts.{parts_fault_number};
    ghost use Rattle.subtree_file.specs.declared.fault.DecodeFault.TheVariants.{Fault};

    ghost from_gives = { λ fault d. d ≡ Fault (parts_fault_number fault) };

    fn from(fault: PartsFault) -> DecodeFault {
        DecodeFault::Fault(fault.number())
    }
}

impl From<JsonFault> for DecodeFault {
    ghost use Rattle.subtree_json.specs.Faults.{fault_number};
    ghost use Rattle.subtree_file.specs.Faults.{fault_numbered};

    ghost from_gives = { λ fault d. d ≡ fault_numbered (fault_number fault) };

    fn from(fault: JsonFault) -> DecodeFault {
        match fault.number() {
            Some(number) => DecodeFault::Fault(number),
            None => DecodeFault::Memory,
        }
    }
}

impl From<BitsFault> for DecodeFault {
    ghost use Rattle.subtree_file.specs.declared.fault.DecodeFault.TheVariants.{Fault};

    ghost from_gives = { λ fault d. d ≡ Fault (bits_fault_number fault) };

    fn from(fault: BitsFault) -> DecodeFault {
        DecodeFault::Fault(fault.number())
    }
}

impl From<RuleFault> for DecodeFault {
    ghost use Rattle.subtree_file.specs.Faults.{fault_of_rule};
    ghost use Rattle.subtree_file.specs.declared.fault.DecodeFault.TheVariants.{Fault};

    ghost from_gives = { λ fault d. d ≡ Fault (bits_fault_number (fault_of_rule fault)) };

    fn from(fault: RuleFault) -> DecodeFault {
        match fault {
            RuleFault::ParentMissing => DecodeFault::from(BitsFault::ParentMissing),
            RuleFault::ContentWithoutTile => DecodeFault::from(BitsFault::ContentWithoutTile),
        }
    }
}

impl From<AllocError> for DecodeFault {
    ghost use Rattle.subtree_file.specs.declared.fault.DecodeFault.TheVariants.{Memory};

    ghost from_gives = { λ _ d. d ≡ Memory };

    fn from(_: AllocError) -> DecodeFault {
        DecodeFault::Memory
    }
}

impl<T: Drop> From<AllocFailed<T>> for DecodeFault {
    ghost use Rattle.subtree_file.specs.declared.fault.DecodeFault.TheVariants.{Memory};

    ghost from_gives = { λ _ d. d ≡ Memory };

    fn from(_: AllocFailed<T>) -> DecodeFault {
        DecodeFault::Memory
    }
}
