//! What a layer makes of places.
ghost use Rattle.std.specs.Prelude.{◌≡◌};
ghost use Rattle.std.specs.Option.{option_map_or};
ghost use Rattle.nets.specs.Places.{Place};
ghost use Rattle.layers.specs.Layers.{KeepsNets};

use nets::Place;

/// A layer: a map of places under which every net stays a net of its level.
pub trait Layer {
    ghost moved: { Self → Place → Place };

    /// A net stays a net. It does nothing when it is run.
    fn show_keeps(&self)
        ensures { KeepsNets (moved self.now) };

    /// What is made of a place.
    fn moved(&self, place: Place) -> Place
        ensures { result ≡ moved self.now place };
}

// A layer that may be there or not: none keeps each place.
impl<L: Layer> Layer for Option<L> {
    ghost moved = { λ o p. option_map_or (λ l. L.moved l p) o p };

    fn show_keeps(&self) {
        if let Some(layer) = self {
            layer.show_keeps();
        }
    }

    fn moved(&self, place: Place) -> Place {
        match self {
            Some(layer) => layer.moved(place),
            None => place,
        }
    }
}
