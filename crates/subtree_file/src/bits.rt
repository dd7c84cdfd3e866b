// The bits that used availabilities name.
ghost use Rattle.std.specs.Prelude.{◌≡◌, ◌+◌, ◌*◌, ◌≤◌, IfOk, length};
ghost use Rattle.std.specs.List.{All};
ghost use Rattle.bitstream.specs.Bits.{ones_of};
ghost use Rattle.implicit_tileset.specs.SubtreeFile.{is_miscounted_as, raw_bits};
ghost use Rattle.implicit_tileset.specs.FileOutcome.{held_at};
ghost use Rattle.subtree_json.specs.Seen.{availability_seen};
ghost use Rattle.subtree_file.specs.Buffers.{sources_seen};
ghost use Rattle.subtree_file.specs.Decoding.{Decodes, DecodesList, IsPlaced, bits_counted, all_counted, bits_of_view};

use crate::fault::{BitsFault, DecodeFault};
use crate::held::Held;
use crate::sources::Sources;
use crate::used::Used;
use bitstream::Bits;
use std::alloc::{AllocError, Global};
use subtree_json::{Availability, ViewPart};

// The needed bits of each, in their order.
pub(crate) fn read_all(
    alloc: Global,
    sources: &Sources,
    used: &[Used],
) -> Result<Vec<Bits>, DecodeFault>
    requires { All (λ u. IsPlaced (held_at (sources_seen sources.now) u.availability) u) used.now }
    ensures { DecodesList (all_counted (sources_seen sources.now) used.now) result }
{
    let mut all = Vec::with_capacity(alloc, used.len())?;
    for one in used {
        let bits = read_one(alloc, sources, one)?;
        all.push(bits)?;
    }
    Ok(all)
}

// The needed bits, of the bytes of the buffer in which their view stands.
pub(crate) fn read_one(alloc: Global, sources: &Sources, used: &Used) -> Result<Bits, DecodeFault>
    requires { IsPlaced (held_at (sources_seen sources.now) used.now.availability) used.now }
    ensures { Decodes (bits_counted (held_at (sources_seen sources.now) used.now.availability) used.now) result }
{
    read_bits(alloc, &sources.held_at(&used.availability), used)
}

// The needed bits, which have the count that is stated beside them, if there is one.
fn read_bits(alloc: Global, held: &Held, used: &Used) -> Result<Bits, DecodeFault>
    requires { IsPlaced held.now used.now }
    ensures { Decodes (bits_counted held.now used.now) result }
{
    let bits = needed_bits(alloc, held, used)?;
    if is_miscounted(&bits, &used.availability) {
        return Err(DecodeFault::from(BitsFault::CountWrong));
    }
    Ok(bits)
}

fn is_miscounted(bits: &Bits, availability: &Availability) -> bool
    ensures { result ≡ is_miscounted_as (ones_of bits.now) (availability_seen availability.now) }
{
    match availability {
        Availability::Stream {
            count: Some(count),
            ..
        } => *count != bits.ones(bits.count()),
        _ => false,
    }
}

fn needed_bits(alloc: Global, held: &Held, used: &Used) -> Result<Bits, AllocError>
    requires { IsPlaced held.now used.now }
    ensures { IfOk result (λ bits. bits ≡ raw_bits held.now used.now) }
{
    match (&used.availability, held.view_of(&used.availability)) {
        (Availability::Constant(bit), _) => Ok(Bits::constant(*bit, used.needed)),
        (Availability::Stream { .. }, Some(view)) => {
            copied_bits(alloc, held.binary, &view, used.needed)
        }
        (Availability::Stream { .. }, None) => unreachable!(),
    }
}

// The first bits of a view, in a copy of the bytes that they fill.
fn copied_bits(
    alloc: Global,
    binary: &[u8],
    view: &ViewPart,
    needed: u64,
) -> Result<Bits, AllocError>
    requires inside { view.now.offset + view.now.length ≤ length binary.now }
    requires enough { needed ≤ 8 * view.now.length }
    ensures { IfOk result (λ bits. bits ≡ bits_of_view binary.now view.now needed) }
{
    let start = view.offset as usize;
    let end = start + needed.div_ceil(8) as usize;
    let bytes = Vec::from_slice(alloc, &binary[start..end])?;
    Ok(Bits::of_bytes(bytes, needed).unwrap())
}
