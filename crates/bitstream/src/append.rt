// Bits as bytes, appended.
ghost use Rattle.std.specs.Prelude.{◌≡◌, ◌+◌, ◌-◌, ◌*◌, ◌/◌, ◌%◌, ◌^◌, ◌<◌, ◌≤◌, ◌++◌, OnOk, OnErr, length};
ghost use Rattle.std.specs.Prelude.{replicate, slice_index, vec_len};
ghost use Rattle.std.specs.List.{slice_set};
ghost use Rattle.bitstream.specs.Bits.{bits_of_bytes};
ghost use Rattle.bitstream.specs.Bytes.{bytes_of_bits};

use std::alloc::AllocError;

// The first `count` bits of the bytes.
pub(crate) fn append_front(bytes: &[u8], count: u64, out: &mut Vec<u8>) -> Result<(), AllocError>
    requires { count ≤ 8 * length bytes.now }
    ensures ok { OnOk result (out.new.items ≡ out.old.items ++ bytes_of_bits (bits_of_bytes bytes.now count)) }
    ensures err { OnErr result (out.new.items ≡ out.old.items) }
{
    out.extend_from_slice(&bytes[..count.div_ceil(8) as usize])?;
    if count % 8 > 0 {
        keep_lowest(out, count % 8);
    }
    Ok(())
}

// The same bit `count` times.
pub(crate) fn append_constant(bit: bool, count: u64, out: &mut Vec<u8>) -> Result<(), AllocError>
    ensures ok { OnOk result (out.new.items ≡ out.old.items ++ bytes_of_bits (replicate count bit)) }
    ensures err { OnErr result (out.new.items ≡ out.old.items) }
{
    let byte = if bit { 0xff } else { 0 };
    out.resize(out.len() + count.div_ceil(8) as usize, byte)?;
    if count % 8 > 0 {
        keep_lowest(out, count % 8);
    }
    Ok(())
}

// Makes all bits of the last byte 0 but the first `used` ones.
fn keep_lowest(out: &mut Vec<u8>, used: u64)
    requires some { 0 < vec_len out.old }
    requires few { used < 8 }
    ensures { out.new.items ≡ slice_set out.old.items (length out.old.items - 1)
        (slice_index out.old.items (length out.old.items - 1) % 2 ^ used) }
{
    let last = out.len() - 1;
    out[last] &= (1 << used) - 1;
}
