//! Cell maps: a value for each of 8 by 8 squares of the panel.
ghost use Rattle.std.specs.Prelude.{◌≡◌, ℕ, ◌/◌, ◌≤◌, pos};
ghost use Rattle.nets.specs.Places.{Place, IsOnPanel};
ghost use Rattle.coats.specs.declared.checks.TheConstants.{HEAVIEST};
ghost use Rattle.coats.specs.Terms.{coat_of, weight_of};
ghost use Rattle.cells.specs.Cells.{cell, cells_terms};
ghost use Rattle.cells.specs.Tables.{values_of};

use crate::table::Table;
use coats::{CoatMap, MapFault, check_weight};
use nets::Place;

/// The side of a cell, an eighth of the panel's.
pub const CELL_SIDE: u16 = 8192;

/// A map that has a value for each of 8 by 8 squares of the panel, which is the coat on it.
#[derive(Debug, Drop)]
pub struct Cells {
    table: Table,
    weight: u32,
    ghost weighs: { weight ≡ weight_of (cells_terms (values_of table)) },
    ghost light: { weight ≤ HEAVIEST },
}

impl Cells {
    ghost use Rattle.cells.specs.Replaced.{ReplacesCells};

    /// A map whose values are 0.
    pub fn new() -> Self
        ensures { (r s : ℕ) → values_of result.table r s ≡ pos 0 }
    {
        Cells {
            table: Table::default(),
            weight: 0,
        }
    }

    /// Replaces the values by these: `values[r][s]` is that of row r, from y = 0 up, and column s, from
    /// x = 0 up. The map stays as it was where they are refused.
    ///
    /// # Errors
    /// 9 for a weight over [`coats::HEAVIEST`].
    pub fn replace(&mut self, values: &[[i16; 8]; 8]) -> Result<(), MapFault>
        ensures { ReplacesCells values.now self.old self.new result }
    {
        let table = Table::from(values);
        let weight = check_weight(table.weight())?;
        *self = Cells { table, weight };
        Ok(())
    }
}

impl CoatMap for Cells {
    ghost terms = { λ m. cells_terms (values_of m.table) };

    #[tactic(auto, using(crate::proofs::Falls::cells_map))]
    fn show_map(&self) {}

    fn weight(&self) -> u32 {
        self.weight
    }

    fn coat(&self, place: Place) -> i32 {
        self.table.at_place(place)
    }
}

/// The coat that cells give a place is the value of the cell in which it lies. It does nothing when it is
/// run.
pub fn show_cells(values: &[[i16; 8]; 8])
    ensures { (p : Place) → IsOnPanel p
        → coat_of (cells_terms (cell values.now)) p
        ≡ cell values.now (p.1 / CELL_SIDE) (p.0 / CELL_SIDE) }
{}
