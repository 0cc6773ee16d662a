//! The table of values behind cells. How they lie in memory is known here alone.
ghost use Rattle.std.specs.Prelude.{◌≡◌, ℕ, ◌+◌, ◌/◌, ◌≤◌, pos, ◌-ℤ◌, unsigned_abs};
ghost use Rattle.nets.specs.Places.{IsOnPanel};
ghost use Rattle.coats.specs.Terms.{weight_of};
ghost use Rattle.cells.specs.Cells.{cell, mixed_difference, row_terms, cells_terms};
ghost use Rattle.cells.specs.Tables.{values_of};

use crate::cells::CELL_SIDE;
use nets::Place;

// 8 by 8 values.
#[derive(Clone, Copy, Debug, PartialEq, Eq)]
pub(crate) struct Table {
    values: [[i16; 8]; 8],
}

impl Default for Table {
    ghost is_default = { λ t. (r s : ℕ) → values_of t r s ≡ pos 0 };

    // All values are 0.
    fn default() -> Table {
        Table {
            values: [[0; 8]; 8],
        }
    }
}

impl From<&[[i16; 8]; 8]> for Table {
    ghost from_gives = { λ values t. values_of t ≡ cell values.now };

    fn from(values: &[[i16; 8]; 8]) -> Table {
        Table { values: *values }
    }
}

impl Table {
    // The value of row r and column s, and 0 past the edge.
    fn at(&self, r: usize, s: usize) -> i32
        ensures value { result ≡ values_of self.now r s }
        ensures bound { unsigned_abs result ≤ 32768 }
    {
        if r < 8 && s < 8 {
            i32::from(self.values[r][s])
        } else {
            0
        }
    }

    // The value of the cell in which a place lies.
    pub(crate) fn at_place(&self, place: Place) -> i32
        ensures value { result ≡ values_of self.now (place.1 / CELL_SIDE) (place.0 / CELL_SIDE) }
        ensures inside { IsOnPanel place }
    {
        let (x, y) = place;
        self.at(usize::from(y / CELL_SIDE), usize::from(x / CELL_SIDE))
    }

    // How much lower the next row is.
    fn fall(&self, r: u8, s: usize) -> i32
        ensures value { result ≡ values_of self.now r s -ℤ values_of self.now (r + 1) s }
        ensures bound { unsigned_abs result ≤ 65536 }
    {
        let r = r as usize;
        self.at(r, s) - self.at(r + 1, s)
    }

    // The weight of the term at (r, s).
    fn mixed(&self, r: u8, s: u8) -> i32
        ensures value { result ≡ mixed_difference (values_of self.now) r s }
        ensures bound { unsigned_abs result ≤ 131072 }
    {
        let s = s as usize;
        self.fall(r, s) - self.fall(r, s + 1)
    }

    // What that term weighs.
    fn size(&self, r: u8, s: u8) -> u64
        ensures value { result ≡ unsigned_abs (mixed_difference (values_of self.now) r s) }
        ensures bound { result ≤ 131072 }
    {
        u64::from(self.mixed(r, s).unsigned_abs())
    }

    // What the terms of row r weigh.
    fn row_weight(&self, r: u8) -> u64
        ensures value { result ≡ weight_of (row_terms (values_of self.now) r) }
        ensures bound { result ≤ 1048576 }
    {
        let mut sum = 0;
        for s in 0..8 {
            sum += self.size(r, s);
        }
        sum
    }

    // What the terms of all rows weigh.
    pub(crate) fn weight(&self) -> u64
        ensures { result ≡ weight_of (cells_terms (values_of self.now)) }
    {
        let mut sum = 0;
        for r in 0..8 {
            sum += self.row_weight(r);
        }
        sum
    }
}
