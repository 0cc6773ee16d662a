//! The numbers that stand at an index of bytes.
ghost use Rattle.std.specs.Prelude.{◌≡◌, drop, slice_index};
ghost use Rattle.little_endian.specs.Numbers.{le, le_signed};

/// The byte at an index.
pub fn byte_at(bytes: &[u8], i: usize) -> u8
    ensures { result ≡ slice_index bytes.now i }
{
    bytes.get(i).copied().unwrap_or(0)
}

/// The two bytes from an index on.
pub fn u16_at(bytes: &[u8], i: usize) -> u16
    ensures { result ≡ le 2 bytes.now i }
{
    let rest = past(bytes, i);
    u16::from_le_bytes([byte_at(rest, 0), byte_at(rest, 1)])
}

/// The two bytes from an index on, in two's complement.
pub fn i16_at(bytes: &[u8], i: usize) -> i16
    ensures { result ≡ le_signed bytes.now i }
{
    let rest = past(bytes, i);
    i16::from_le_bytes([byte_at(rest, 0), byte_at(rest, 1)])
}

/// The four bytes from an index on.
pub fn u32_at(bytes: &[u8], i: usize) -> u32
    ensures { result ≡ le 4 bytes.now i }
{
    let rest = past(bytes, i);
    u32::from_le_bytes([
        byte_at(rest, 0),
        byte_at(rest, 1),
        byte_at(rest, 2),
        byte_at(rest, 3),
    ])
}

/// The eight bytes from an index on.
pub fn u64_at(bytes: &[u8], i: usize) -> u64
    ensures { result ≡ le 8 bytes.now i }
{
    let rest = past(bytes, i);
    u64::from_le_bytes([
        byte_at(rest, 0),
        byte_at(rest, 1),
        byte_at(rest, 2),
        byte_at(rest, 3),
        byte_at(rest, 4),
        byte_at(rest, 5),
        byte_at(rest, 6),
        byte_at(rest, 7),
    ])
}

// The bytes from an index on.
fn past(bytes: &[u8], i: usize) -> &[u8]
    ensures { result.now ≡ drop i bytes.now }
{
    bytes.get(i..).unwrap_or(b"")
}
