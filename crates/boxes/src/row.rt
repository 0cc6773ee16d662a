//! The rows of which box maps are made.
ghost use Rattle.std.specs.Prelude.{◌≡◌, ℕ, ◌<◌, ◌≤◌, [], ◌∷◌, pos, if◌then◌else◌, filter, slice_index_or, unsigned_abs};
ghost use Rattle.nets.specs.Places.{Place};
ghost use Rattle.coats.specs.declared.term.Term.{Term};
ghost use Rattle.coats.specs.Terms.{coat_of, weight_of};
ghost use Rattle.boxes.specs.Rows.{HasBoxBounds, corners_of, has_sides, box_terms, is_inside};

use coats::{Bounded, Term, is_bound};
use nets::Place;

/// The weight w on the places with x0 <= x < x1 and y0 <= y < y1. Its bounds: x0 < x1 and y0 < y1, and
/// x1 and y1 are at most [`coats::PANEL_SIDE`].
#[derive(Clone, Copy, Debug, Default, PartialEq, Eq)]
pub struct BoxRow {
    /// The least x inside.
    pub x0: u32,
    /// One past the largest x inside.
    pub x1: u32,
    /// The least y inside.
    pub y0: u32,
    /// One past the largest y inside.
    pub y1: u32,
    /// The weight.
    pub w: i16,
}

impl Bounded for BoxRow {
    ghost bounds = { HasBoxBounds };

    fn in_bounds(&self) -> bool {
        self.x0 < self.x1 && is_bound(self.x1) && self.y0 < self.y1 && is_bound(self.y1)
    }
}

impl BoxRow {
    // What it adds to the coat at a place, with no branch.
    pub(crate) fn coat(self, place: Place) -> i32
        ensures value { result ≡ (if is_inside self place then self.w else pos 0) }
        ensures bound { unsigned_abs result ≤ 32768 }
    {
        let (x, y) = (u32::from(place.0), u32::from(place.1));
        let inside = (self.x0 <= x) & (x < self.x1) & (self.y0 <= y) & (y < self.y1);
        if inside { i32::from(self.w) } else { 0 }
    }

    // What its terms weigh.
    pub(crate) fn weight(self) -> u32
        ensures value { result ≡ weight_of (box_terms self) }
        ensures bound { result ≤ 131072 }
    {
        let [a, b, c, d] = self.corners();
        size(a) + size(b) + size(c) + size(d)
    }

    // Its four corners: those whose signs differ cancel outside the box.
    fn corners(self) -> [Term; 4]
        ensures value { result ≡ corners_of self }
        ensures small { (i : ℕ) (d : Term) → i < 4
            → unsigned_abs (slice_index_or result i d).w ≤ 32768 }
    {
        let w = i32::from(self.w);
        let corner = |w, u, v| Term { w, u, v };
        [
            corner(w, self.x1, self.y1),
            corner(-w, self.x0, self.y1),
            corner(-w, self.x1, self.y0),
            corner(w, self.x0, self.y0),
        ]
    }
}

// |w| of a corner, which is left out where a side is 0.
fn size(corner: Term) -> u32
    ensures { result ≡ weight_of (filter has_sides (corner ∷ [])) }
{
    if corner.u == 0 || corner.v == 0 {
        0
    } else {
        corner.w.unsigned_abs()
    }
}

/// A box within its bounds puts its weight on the places inside it, and nothing on any other. It does
/// nothing when it is run.
pub fn show_box(row: BoxRow)
    ensures { HasBoxBounds row → (p : Place)
        → coat_of (box_terms row) p ≡ (if is_inside row p then row.w else pos 0) }
{}
