//! Plans with a layer on them.
ghost use Rattle.std.specs.Prelude.{◌≡◌, map};

use crate::layer::Layer;
use nets::{Level, Net, Place, PlaceFault, Rounds};

/// A plan with a layer on it, which is again a plan of the same level: each place mapped, in the same order.
#[derive(Debug, Drop)]
pub struct Layered<P, L> {
    plan: P,
    layer: L,
}

impl<P, L> Layered<P, L> {
    /// The layer on the plan.
    pub fn on(plan: P, layer: L) -> Self
        ensures { result ≡ record { plan = plan; layer = layer } }
    {
        Layered { plan, layer }
    }
}

impl<P: Net, L: Layer> Net for Layered<P, L> {
    ghost level = { λ l. P.level l.plan };

    ghost places = { λ l. map (L.moved l.layer) (P.places l.plan) };

    fn show_net(&self) {
        self.plan.show_net();
        self.layer.show_keeps();
    }

    fn level(&self) -> Level {
        self.plan.level()
    }

    fn place(&self, i: u32) -> Result<Place, PlaceFault> {
        self.show_net();
        let place = self.plan.place(i)?;
        Ok(self.layer.moved(place))
    }
}

// A layer adds no rounds.
impl<P: Rounds, L: Layer> Rounds for Layered<P, L> {
    ghost counts = { λ l. P.counts l.plan };

    fn counts_rounds(&self) -> bool {
        self.plan.counts_rounds()
    }

    fn place_and_rounds(&self, i: u32) -> Result<(Place, Option<u32>), PlaceFault> {
        self.show_net();
        let (place, rounds) = self.plan.place_and_rounds(i)?;
        Ok((self.layer.moved(place), rounds))
    }
}
