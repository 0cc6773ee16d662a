//! All kinds of map as one type, which is a map too.
ghost use Rattle.std.specs.Prelude.{◌≡◌};
ghost use Rattle.maps.specs.Kinds.{kind_of, terms_of};

use boxes::Boxes;
use cells::Cells;
use coats::CoatMap;
use nets::Place;
use steps::Steps;

/// A map of any kind.
#[derive(Debug, Drop)]
pub enum Map {
    /// Weights on boxes, added.
    Boxes(Boxes),
    /// Steps along x times steps along y.
    Steps(Steps),
    /// A value for each of 8 by 8 squares.
    Cells(Cells),
}

/// The kind of a map.
#[derive(Clone, Copy, Debug, PartialEq, Eq)]
pub enum MapKind {
    /// A box map, as [`Boxes`].
    Boxes,
    /// A step map, as [`Steps`].
    Steps,
    /// A cell map, as [`Cells`].
    Cells,
}

impl Map {
    /// The kind of the map.
    pub fn kind(&self) -> MapKind
        ensures { result ≡ kind_of self.now }
    {
        match self {
            Map::Boxes(_) => MapKind::Boxes,
            Map::Steps(_) => MapKind::Steps,
            Map::Cells(_) => MapKind::Cells,
        }
    }
}

impl CoatMap for Map {
    ghost terms = { terms_of };

    fn show_map(&self) {
        match self {
            Map::Boxes(map) => map.show_map(),
            Map::Steps(map) => map.show_map(),
            Map::Cells(map) => map.show_map(),
        }
    }

    fn weight(&self) -> u32 {
        match self {
            Map::Boxes(map) => map.weight(),
            Map::Steps(map) => map.weight(),
            Map::Cells(map) => map.weight(),
        }
    }

    fn coat(&self, place: Place) -> i32 {
        match self {
            Map::Boxes(map) => map.coat(place),
            Map::Steps(map) => map.coat(place),
            Map::Cells(map) => map.coat(place),
        }
    }
}
