//! Box maps: boxes that are added up.
ghost use Rattle.std.specs.Prelude.{◌≡◌, ◌≤◌, [], All, length};
ghost use Rattle.coats.specs.Terms.{IsMap, weight_of};
ghost use Rattle.boxes.specs.Columns.{LaysRows};
ghost use Rattle.boxes.specs.Rows.{HasBoxBounds, boxes_terms};
ghost use Rattle.boxes.specs.declared.boxes.TheConstants.{MOST_BOXES};

use crate::columns::Columns;
use crate::row::BoxRow;
use arrayvec::ArrayVec;
use coats::{CoatMap, MapFault, check_weight, first_out};
use nets::Place;

/// How many boxes a map has at most.
pub const MOST_BOXES: usize = 32;

/// A map of up to [`MOST_BOXES`] boxes that are added up. They lie in the value itself, so that replacing
/// them needs no memory.
#[derive(Debug, Drop)]
pub struct Boxes {
    rows: ArrayVec<BoxRow, MOST_BOXES>,
    // The same rows, as the coat reads them.
    columns: Columns,
    weight: u32,
    ghost few: { length rows.items ≤ MOST_BOXES },
    ghost bounds: { All HasBoxBounds rows.items },
    ghost laid: { LaysRows columns rows.items },
    ghost map: { IsMap (boxes_terms rows.items) },
    ghost weighs: { weight ≡ weight_of (boxes_terms rows.items) },
}

impl Boxes {
    ghost use Rattle.boxes.specs.Replaced.{ReplacesBoxes};

    /// A map of no boxes, whose coat is 0 everywhere.
    pub fn new() -> Self
        ensures { result.rows.items ≡ [] }
    {
        Boxes {
            rows: ArrayVec::new(),
            columns: Columns::of(&[]),
            weight: 0,
        }
    }

    /// Replaces the boxes by these, in this order. The map stays as it was where they are refused.
    ///
    /// # Errors
    /// The first of these: 7 for more than [`MOST_BOXES`], 8 for the first that is out of its bounds, 9 for
    /// a weight over [`coats::HEAVIEST`].
    #[tactic(auto, using(crate::proofs::Corners::boxes_sides))]
    pub fn replace(&mut self, rows: &[BoxRow]) -> Result<(), MapFault>
        ensures { ReplacesBoxes rows.now self.old self.new result }
    {
        let rows = ArrayVec::try_from(rows).map_err(|_| MapFault::Count)?;
        if let Some(row) = first_out(&rows) {
            return Err(MapFault::Row(row as u8));
        }
        let weight = check_weight(weigh(&rows))?;
        let columns = Columns::of(&rows);
        *self = Boxes {
            rows,
            columns,
            weight,
        };
        Ok(())
    }
}

impl CoatMap for Boxes {
    ghost terms = { λ m. boxes_terms m.rows.items };

    fn show_map(&self) {}

    fn weight(&self) -> u32 {
        self.weight
    }

    fn coat(&self, place: Place) -> i32 {
        let mut sum = 0;
        for i in 0..self.rows.len() {
            sum += self.columns.row(i).coat(place);
        }
        sum
    }
}

// What rows weigh.
fn weigh(rows: &[BoxRow]) -> u64
    requires { length rows.now ≤ MOST_BOXES }
    ensures { result ≡ weight_of (boxes_terms rows.now) }
{
    rows.iter().map(|row| u64::from(row.weight())).sum()
}
