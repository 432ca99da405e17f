// Numbers of a file, little-endian; a byte past the end reads as 0.
ghost use Rattle.std.specs.Prelude.{◌≡◌, ◌+◌, ◌*◌, ◌^◌, ◌<◌, slice_index};
ghost use Rattle.table.specs.Bytes.{u16_at, u32_at};

fn byte_at(bytes: &[u8], at: usize) -> u8
    ensures { result ≡ slice_index bytes.now at }
{
    bytes.get(at).copied().unwrap_or(0)
}

pub(crate) fn u16_at(bytes: &[u8], at: usize) -> u16
    requires { at < 2 ^ 41 }
    ensures { result ≡ u16_at bytes.now at }
{
    u16::from_le_bytes([byte_at(bytes, at), byte_at(bytes, at + 1)])
}

pub(crate) fn u32_at(bytes: &[u8], at: usize) -> u32
    requires { at < 2 ^ 40 }
    ensures { result ≡ u32_at bytes.now at }
{
    let low = u16_at(bytes, at);
    let high = u16_at(bytes, at + 2);
    u32::from(low) + 65536 * u32::from(high)
}
