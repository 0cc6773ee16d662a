//! Bytes that lay down a net.
ghost use Rattle.std.specs.Prelude.{◌≡◌};
ghost use Rattle.audit.specs.Bytes.{places_in};
ghost use Rattle.nets.specs.Places.{IsNet};

use crate::faults::AuditFault;
use crate::place_bytes::PlaceBytes;
use nets::Level;

/// Bytes that lay down a net, as the audit found them.
#[derive(Clone, Copy, Debug)]
pub struct NetBytes<'a> {
    pub(crate) places: PlaceBytes<'a>,
    pub(crate) intervals: u32,
    ghost net: { IsNet places.level.m (places_in places.bytes.now) },
}

impl<'a> NetBytes<'a> {
    ghost use Rattle.audit.specs.Audits.{AuditsBytes};

    /// Audits the places where they lie, with the level that their number tells.
    ///
    /// # Errors
    /// 12 for a length that is no level's, and 13 for places that are no net.
    pub fn audit(bytes: &'a [u8]) -> Result<NetBytes<'a>, AuditFault>
        ensures { AuditsBytes bytes.now result }
    {
        let places = PlaceBytes::new(bytes).ok_or(AuditFault::Length(bytes.len()))?;
        Ok(places.audit()?)
    }

    /// The level of the net.
    pub fn level(self) -> Level
        ensures { result ≡ self.entry.places.level }
    {
        self.places.level
    }

    /// How many intervals the audit examined: (m + 1)·2^m.
    pub fn intervals(self) -> u32
        ensures { result ≡ self.entry.intervals }
    {
        self.intervals
    }
}
