// Bits: a constant or a bitstream.
ghost use Rattle.std.specs.Prelude.{◌≡◌, ◌*◌, ◌<◌, ◌≤◌, ◌↔◌, ◌++◌, All, IfOk, OnOk, OnErr, IfSome, IsNone, MatchBool};
ghost use Rattle.std.specs.Prelude.{MatchOption, length, replicate, take};
ghost use Rattle.bitstream.specs.Bits.{bits_of_bytes, bits_of_places, ones_of, HasNoOne, IsFirstOne, IsWithin};
ghost use Rattle.bitstream.specs.Bits.{HasOneAlone};
ghost use Rattle.implicit_tiling.specs.Bits.{bit_at};
ghost use Rattle.bitstream.specs.Bytes.{bytes_of_bits};
ghost use Rattle.bitstream.specs.Words.{IsWordFrom};

use crate::append::{append_constant, append_front};
use crate::places::bytes_of_places;
use crate::within::has_all_of;
use crate::words::{first_one_in, low_bits, ones_in, word_at};
use std::alloc::{AllocError, Global};
use std::marker::Model;

/// How bits are held.
#[derive(Drop)]
enum Kind {
    /// The same bit, so many times.
    Constant { bit: bool, count: u64 },
    /// The first bits of these bytes.
    Bytes { bytes: Vec<u8>, count: u64 },
}

/// Bits in order (OGC 22-025r4, availability: `constant` and `bitstream`). Contracts see their list.
#[derive(Drop)]
pub struct Bits {
    kind: Kind,
}

impl Model for Bits {
    ghost use Rattle.std.specs.Prelude.{List, Bool};
    ghost use Rattle.bitstream.specs.Kind.{kind_bits, HasEnoughBytes};

    ghost Value = { List Bool };

    ghost view = { λ b. kind_bits b.kind };

    ghost invariant = { λ b. HasEnoughBytes b.kind };
}

impl Bits {
    /// The same bit `count` times. It takes no room for them.
    pub fn constant(bit: bool, count: u64) -> Bits
        ensures { result ≡ replicate count bit }
    {
        Bits {
            kind: Kind::Constant { bit, count },
        }
    }

    /// The first `count` bits of the bytes: bit i is bit i mod 8 of byte i / 8, least significant first. Bits past
    /// them are ignored. None exactly where the bytes have fewer bits.
    pub fn of_bytes(bytes: Vec<u8>, count: u64) -> Option<Bits>
        ensures none { IsNone result ↔ (8 * length bytes.items < count) }
        ensures bits { IfSome result (λ bits. bits ≡ bits_of_bytes bytes.items count) }
    {
        if count.div_ceil(8) > bytes.len() as u64 {
            return None;
        }
        Some(Bits {
            kind: Kind::Bytes { bytes, count },
        })
    }

    /// `count` bits, of which those at the places are 1; a place may stand there twice. It takes as few bytes as the
    /// bits fill, and none where there are no places.
    pub fn of_places(alloc: Global, count: u64, places: &[u64]) -> Result<Bits, AllocError>
        requires { All (λ p. p < count) places.now }
        ensures { IfOk result (λ bits. bits ≡ bits_of_places count places.now) }
    {
        if places.is_empty() {
            return Ok(Bits::constant(false, count));
        }
        let bytes = bytes_of_places(alloc, count, places)?;
        Ok(Bits {
            kind: Kind::Bytes { bytes, count },
        })
    }

    /// How many bits there are.
    pub fn count(&self) -> u64
        ensures { result ≡ length self.now }
    {
        match &self.kind {
            Kind::Constant { count, .. } => *count,
            Kind::Bytes { count, .. } => *count,
        }
    }

    /// Bit i.
    pub fn get(&self, i: u64) -> bool
        requires { i < length self.now }
        ensures { result ≡ bit_at self.now i }
    {
        match &self.kind {
            Kind::Constant { bit, .. } => *bit,
            Kind::Bytes { bytes, .. } => bytes[(i / 8) as usize] >> (i % 8) & 1 == 1,
        }
    }

    /// How many of the first n bits are 1.
    pub fn ones(&self, n: u64) -> u64
        requires { n ≤ length self.now }
        ensures { result ≡ ones_of (take n self.now) }
    {
        match &self.kind {
            Kind::Constant { bit, .. } => { if *bit { n } else { 0 } }
            Kind::Bytes { bytes, .. } => ones_in(bytes, n),
        }
    }

    /// The least place of a 1 from `from` up to `to`, which is past the last. None exactly where there is none.
    pub fn next_one(&self, from: u64, to: u64) -> Option<u64>
        requires order { from ≤ to }
        requires within { to ≤ length self.now }
        ensures { MatchOption result (HasNoOne (bit_at self.now) from to) (IsFirstOne (bit_at self.now) from to) }
    {
        match &self.kind {
            Kind::Constant { bit, .. } => (*bit && from < to).then_some(from),
            Kind::Bytes { bytes, .. } => first_one_in(bytes, from, to),
        }
    }

    /// The 64 bits from a place on: bit i of the word is bit `from` + i. Bits past the end are 0.
    pub fn word_from(&self, from: u64) -> u64
        ensures { IsWordFrom self.now from result }
    {
        let left = self.count().saturating_sub(from);
        match &self.kind {
            Kind::Constant { bit, .. } => { if *bit { low_bits(u64::MAX, left) } else { 0 } }
            Kind::Bytes { bytes, .. } => low_bits(word_at(bytes, from), left),
        }
    }

    /// Whether each of the first n bits that is 1 is 1 in the other bits too. Bitstreams are compared by words.
    pub fn is_within(&self, other: &Bits, n: u64) -> bool
        requires own { n ≤ length self.now }
        requires others { n ≤ length other.now }
        ensures { MatchBool result (IsWithin (bit_at self.now) (bit_at other.now) n) (HasOneAlone (bit_at self.now)
            (bit_at other.now) n) }
    {
        match (&self.kind, &other.kind) {
            (Kind::Constant { bit, .. }, _) => !*bit || other.ones(n) == n,
            (_, Kind::Constant { bit, .. }) => *bit || self.next_one(0, n).is_none(),
            (Kind::Bytes { bytes, .. }, Kind::Bytes { bytes: others, .. }) => {
                has_all_of(others, bytes, n)
            }
        }
    }

    /// Appends the bits as a bitstream, with bit i as bit i mod 8 of byte i / 8: as few bytes as they fill, and unused
    /// bits are 0. An Err leaves `out` as it was.
    pub fn append_bytes(&self, out: &mut Vec<u8>) -> Result<(), AllocError>
        ensures ok { OnOk result (out.new.items ≡ out.old.items ++ bytes_of_bits self.now) }
        ensures err { OnErr result (out.new.items ≡ out.old.items) }
    {
        match &self.kind {
            Kind::Constant { bit, count } => append_constant(*bit, *count, out),
            Kind::Bytes { bytes, count } => append_front(bytes, *count, out),
        }
    }
}
