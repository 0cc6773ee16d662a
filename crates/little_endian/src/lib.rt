//! Numbers in bytes, lowest byte first. Bytes past the end count as 0.
#![tactic(auto)]

pub mod numbers;

pub use numbers::{byte_at, i16_at, u16_at, u32_at, u64_at};
