//! The bits of coordinates, words and indexes.
ghost use Rattle.std.specs.Prelude.{◌≡◌};
ghost use Rattle.nets.specs.Digits.{digit};
ghost use Rattle.nets.specs.Places.{top};

/// The number that the top d of a coordinate's 16 bits make; for a d over 16, the coordinate itself.
pub fn top_bits(d: u32, x: u16) -> u32
    ensures { result ≡ top d x }
{
    u32::from(x) >> 16u32.saturating_sub(d)
}

/// The binary digit of n with weight 2^r, which is 0 past the last.
pub fn digit_of(n: u64, r: u32) -> u32
    ensures { result ≡ digit n r }
{
    if r < 64 { ((n >> r) % 2) as u32 } else { 0 }
}
