// Availabilities, written as constants or as bitstreams.
ghost use Rattle.std.specs.Prelude.{◌≡◌, ◌-◌, ◌++◌, IfOk, OnOk, OnErr, [], ◌∷◌, length, map, replicate};
ghost use Rattle.serde_json.specs.View.{view};
ghost use Rattle.subtree_write.specs.Canonical.{aligned, availability_value, availability_values};

use crate::values::{constant_value, stream_value, view_value};
use bitstream::Bits;
use serde_json::Value;
use std::alloc::{AllocError, Global};

/// The bitstreams that are written so far: their views, and their bytes in the one buffer.
#[derive(Drop)]
pub(crate) struct Streams {
    pub views: Vec<Value>,
    pub bytes: Vec<u8>,
}

impl Streams {
    ghost use Rattle.subtree_write.specs.Added.{Adds};

    /// None yet, with room for so many bytes.
    pub fn with_room(alloc: Global, room: usize) -> Result<Streams, AllocError>
        ensures views { IfOk result (λ streams. streams.views.items ≡ []) }
        ensures bytes { IfOk result (λ streams. streams.bytes.items ≡ []) }
    {
        Ok(Streams {
            views: Vec::new(alloc),
            bytes: Vec::with_capacity(alloc, room)?,
        })
    }

    /// The value of an availability. Bits of both kinds are added as the next bitstream.
    pub fn write(&mut self, alloc: Global, bits: &Bits) -> Result<Value, AllocError>
        ensures value { IfOk result (λ value. view value ≡ availability_value (length self.old.views.items) bits.now) }
        ensures added { OnOk result (Adds self.old self.new (bits.now ∷ [])) }
    {
        let count = bits.count();
        let ones = bits.ones(count);
        if ones == 0 || ones == count {
            return constant_value(alloc, ones > 0);
        }
        let number = self.views.len() as u64;
        let size = count.div_ceil(8);
        self.views
            .push(view_value(alloc, self.bytes.len() as u64, size)?)?;
        bits.append_bytes(&mut self.bytes)?;
        pad(&mut self.bytes, size as usize, 0)?;
        stream_value(alloc, ones, number)
    }

    /// The values of some availabilities, in their order.
    pub fn write_each(
        &mut self,
        alloc: Global,
        availabilities: &[Bits],
    ) -> Result<Vec<Value>, AllocError>
        ensures values { IfOk result
            (λ values. map view values.items ≡ availability_values (length self.old.views.items) availabilities.now) }
        ensures added { OnOk result (Adds self.old self.new availabilities.now) }
    {
        let mut values = Vec::new(alloc);
        for bits in availabilities {
            values.push(self.write(alloc, bits)?)?;
        }
        Ok(values)
    }
}

/// Fills up the last `size` bytes to a multiple of 8.
pub(crate) fn pad(out: &mut Vec<u8>, size: usize, fill: u8) -> Result<(), AllocError>
    ensures ok { OnOk result (out.new.items ≡ out.old.items ++ replicate (aligned size - size) fill) }
    ensures err { OnErr result (out.new.items ≡ out.old.items) }
{
    let missing = (8 - size % 8) % 8;
    out.resize(out.len() + missing, fill)
}
