//! The places of a plan, one after another.
ghost use Rattle.std.specs.Prelude.{◌≡◌};
ghost use Rattle.std.specs.Iterator.{YieldsFirst, item_count};
ghost use Rattle.listings.specs.Places.{rest_of};

use nets::{Net, Place};

/// The places of a plan, in their order.
#[derive(Debug, Drop)]
pub struct Places<'a, P> {
    plan: &'a P,
    next: u32,
}

impl<'a, P: Net> Places<'a, P> {
    /// All places of the plan.
    pub fn of(plan: &'a P) -> Self
        ensures { rest_of P.Net result ≡ P.places plan.now }
    {
        Places { plan, next: 0 }
    }
}

impl<P: Net> Iterator for Places<'_, P> {
    type Item = Place;

    ghost next_gives = { YieldsFirst (rest_of P.Net) };

    ghost remaining = { item_count (rest_of P.Net) };

    fn next(&mut self) -> Option<Place> {
        self.plan.show_net();
        let place = self.plan.place(self.next).ok()?;
        self.next += 1;
        Some(place)
    }
}
