//! A customer's list of places, which is a net.
ghost use Rattle.std.specs.Prelude.{◌≡◌, [], ◌∷◌, IfOk};
ghost use Rattle.nets.specs.Places.{IsNet};
ghost use Rattle.audit.specs.Bytes.{places_in};

use crate::faults::LoadFault;
use crate::net_bytes::NetBytes;
use crate::place_bytes::{PlaceBytes, read_place};
use nets::{Level, Net, Place, PlaceFault};
use std::alloc::{AllocError, Global};

/// The plan of a customer's own places, at most 4,096, which lie on the heap.
#[derive(Debug, Drop)]
pub struct PointList {
    level: Level,
    places: Vec<Place>,
    ghost ok: { IsNet level.m places.items },
}

impl PointList {
    ghost use Rattle.audit.specs.Loads.{Loads};

    /// Level 0, with the one place (0, 0).
    ///
    /// # Errors
    /// Want of memory.
    pub fn new(heap: Global) -> Result<Self, AllocError>
        ensures { IfOk result (λ p. (p.level.m ≡ 0) × (p.places.items ≡ (0, 0) ∷ [])) }
    {
        let level = Level::try_from(0).unwrap();
        let places = vec![in heap; (0, 0)]?;
        Ok(PointList { level, places })
    }

    /// The places that bytes lay down which were audited; they are not examined again.
    ///
    /// # Errors
    /// Want of memory.
    pub fn of(heap: Global, net: NetBytes<'_>) -> Result<Self, AllocError>
        ensures { IfOk result (λ p. (p.level ≡ net.entry.places.level)
            × (p.places.items ≡ places_in net.entry.places.bytes.now)) }
    {
        let PlaceBytes { bytes, level } = net.places;
        let places = read_places(heap, bytes)?;
        Ok(PointList { level, places })
    }

    /// Replaces the list by the places that the bytes lay down, and answers how many intervals the audit
    /// examined. A refused load leaves the list as it was.
    ///
    /// # Errors
    /// 12 for a length that is no level's, 13 for places that are no net, and want of memory, which is told
    /// of nets alone.
    pub fn load(&mut self, heap: Global, bytes: &[u8]) -> Result<u32, LoadFault>
        ensures { Loads bytes.now self.old self.new result }
    {
        let net = NetBytes::audit(bytes)?;
        *self = PointList::of(heap, net)?;
        Ok(net.intervals())
    }
}

impl Net for PointList {
    ghost level = { λ p. p.level.m };

    ghost places = { λ p. p.places.items };

    fn show_net(&self) {}

    fn level(&self) -> Level {
        self.level
    }

    fn place(&self, i: u32) -> Result<Place, PlaceFault> {
        let place = self.places.get(i as usize);
        place.copied().ok_or(PlaceFault::NoPlace(i))
    }
}

// The places that the bytes lay down.
fn read_places(heap: Global, bytes: &[u8]) -> Result<Vec<Place>, AllocError>
    ensures { IfOk result (λ v. v.items ≡ places_in bytes.now) }
{
    (0..bytes.len() / 4)
        .map(|i| read_place(bytes, i))
        .collect(heap)
}
