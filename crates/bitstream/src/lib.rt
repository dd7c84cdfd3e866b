//! Bits in order, as a constant or as the bytes of a bitstream: read one by one, counted, searched by words,
//! and written as bytes. Those of a bitstream are taken as they are, or made from the places of their ones.
//! Contracts see them as the list of the bits.
#![tactic(auto)]

mod append;
mod bits;
mod places;
mod within;
mod words;

pub use bits::Bits;
pub use words::low_bits;
