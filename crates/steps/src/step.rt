//! The steps of which a map is made.
ghost use Rattle.std.specs.Prelude.{◌≡◌, ◌≤◌, unsigned_abs};
ghost use Rattle.steps.specs.Rows.{HasStepBounds, rise_of};

use coats::{Bounded, is_bound};

/// A value on the coordinates below a bound, which is from 1 to [`coats::PANEL_SIDE`].
#[derive(Clone, Copy, Debug, Default, PartialEq, Eq)]
pub struct Step {
    /// The value.
    pub value: i16,
    /// One past the largest coordinate that has the value.
    pub bound: u32,
}

impl Bounded for Step {
    ghost bounds = { HasStepBounds };

    fn in_bounds(&self) -> bool {
        1 <= self.bound && is_bound(self.bound)
    }
}

impl Step {
    // What it adds at a coordinate.
    pub(crate) fn rise(self, at: u16) -> i32
        ensures value { result ≡ rise_of at self }
        ensures bound { unsigned_abs result ≤ 32768 }
    {
        if u32::from(at) < self.bound {
            i32::from(self.value)
        } else {
            0
        }
    }

    // Its value without the sign.
    pub(crate) fn size(self) -> u32
        ensures value { result ≡ unsigned_abs self.value }
        ensures bound { result ≤ 32768 }
    {
        u32::from(self.value.unsigned_abs())
    }
}
