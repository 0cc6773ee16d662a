//! Where an examination finds the places of a list.
ghost use Rattle.std.specs.Prelude.{◌≡◌, ◌<◌, List, length, slice_index_or};
ghost use Rattle.nets.specs.Places.{Place};

use nets::Place;

// A list of places, asked by index.
pub(crate) trait Source {
    ghost list: { Self → List Place };

    fn at(&self, i: u32) -> Place
        requires { i < length (list self.now) }
        ensures { result ≡ slice_index_or (list self.now) i (0, 0) };
}

impl Source for &[Place] {
    ghost list = { λ places. places.now };

    fn at(&self, i: u32) -> Place {
        self[i as usize]
    }
}
