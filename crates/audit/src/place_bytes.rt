//! Bytes that lay down as many places as a level has.
ghost use Rattle.std.specs.Prelude.{◌≡◌, ◌≢◌, ◌+◌, ◌*◌, ◌^◌, ◌≤◌, length, MatchOption};
ghost use Rattle.audit.specs.Bytes.{place_at, places_in};

use crate::audits::level_of;
use crate::examination::Examination;
use crate::faults::NotNet;
use crate::net_bytes::NetBytes;
use crate::sources::Source;
use nets::{Level, Place};

// The bytes of a place.
const PLACE_SIZE: usize = 4;

/// Bytes that lay down 2^m places: x then y of each, 16 bits each, lowest byte first.
#[derive(Clone, Copy, Debug, Drop)]
pub struct PlaceBytes<'a> {
    pub(crate) bytes: &'a [u8],
    pub(crate) level: Level,
    ghost long: { length bytes.now ≡ 4 * 2 ^ level.m },
}

impl<'a> PlaceBytes<'a> {
    ghost use Rattle.audit.specs.Audits.{IsNoLevel, AuditsPlaces};

    /// The places of the level that their number tells, or nothing if it is no level's.
    pub fn new(bytes: &'a [u8]) -> Option<PlaceBytes<'a>>
        ensures { MatchOption result (IsNoLevel 4 (length bytes.now)) (λ p. p.bytes.now ≡ bytes.now) }
    {
        let level = level_of(bytes.len(), PLACE_SIZE)?;
        Some(PlaceBytes { bytes, level })
    }

    /// The places of a level, or nothing if the level has not as many.
    pub fn of_level(level: Level, bytes: &'a [u8]) -> Option<PlaceBytes<'a>>
        ensures { MatchOption result (length bytes.now ≢ 4 * 2 ^ level.m)
            (λ p. (p.bytes.now ≡ bytes.now) × (p.level ≡ level)) }
    {
        if bytes.len() != PLACE_SIZE * level.places() as usize {
            return None;
        }
        Some(PlaceBytes { bytes, level })
    }

    /// Audits the places where they lie.
    ///
    /// # Errors
    /// 13 for places that are no net.
    pub fn audit(self) -> Result<NetBytes<'a>, NotNet>
        ensures { AuditsPlaces self.entry result }
    {
        let examination = Examination {
            level: self.level,
            source: self,
        };
        let intervals = examination.run()?;
        Ok(NetBytes {
            places: self,
            intervals,
        })
    }
}

impl Source for PlaceBytes<'_> {
    ghost list = { λ p. places_in p.bytes.now };

    fn at(&self, i: u32) -> Place {
        read_place(self.bytes, i as usize)
    }
}

// The place number i that bytes lay down.
pub(crate) fn read_place(bytes: &[u8], i: usize) -> Place
    requires { 4 * i + 4 ≤ length bytes.now }
    ensures { result ≡ place_at bytes.now i }
{
    let x = u16::from_le_bytes([bytes[4 * i], bytes[4 * i + 1]]);
    let y = u16::from_le_bytes([bytes[4 * i + 2], bytes[4 * i + 3]]);
    (x, y)
}
