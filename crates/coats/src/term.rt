//! Terms, of which every map is made.
ghost use Rattle.std.specs.Prelude.{◌≡◌, ◌≤◌, unsigned_abs};
ghost use Rattle.coats.specs.Terms.{share_of};

use nets::Place;

/// The weight w on the places with x < u and y < v.
#[derive(Clone, Copy, Debug, PartialEq, Eq)]
pub struct Term {
    /// The weight.
    pub w: i32,
    /// The width U.
    pub u: u32,
    /// The height V.
    pub v: u32,
}

impl Term {
    /// What it adds to the coat at a place.
    pub fn share(self, place: Place) -> i32
        ensures value { result ≡ share_of place self }
        ensures bound { unsigned_abs result ≤ unsigned_abs self.w }
    {
        let (x, y) = place;
        if u32::from(x) < self.u && u32::from(y) < self.v {
            self.w
        } else {
            0
        }
    }
}
