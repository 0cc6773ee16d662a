//! Where the rows of a map section lie, and how many there may be.
ghost use Rattle.std.specs.Prelude.{◌≡◌, MatchOption};
ghost use Rattle.jobs.specs.Checks.{HasFewRows};
ghost use Rattle.jobs.specs.Layout.{row_start, row_count};

use boxes::MOST_BOXES;
use little_endian::byte_at;
use maps::MapKind;
use steps::MOST_STEPS;

// Where a row begins, from the section's first byte on.
pub(crate) fn row_start(kind: MapKind, row: u8) -> u16
    ensures { result ≡ row_start kind row }
{
    let row = u16::from(row);
    match kind {
        MapKind::Boxes => 2 + 18 * row,
        MapKind::Steps => 3 + 6 * row,
        MapKind::Cells => 1 + 16 * row,
    }
}

// How many rows a section of a kind has, if they are no more than the kind allows.
pub(crate) fn row_count(kind: MapKind, bytes: &[u8]) -> Option<u8>
    ensures { MatchOption result (HasFewRows kind bytes.now → ⊥)
        (λ n. HasFewRows kind bytes.now × (n ≡ row_count kind bytes.now)) }
{
    let first = byte_at(bytes, 1);
    let second = byte_at(bytes, 2);
    match kind {
        MapKind::Boxes => (usize::from(first) <= MOST_BOXES).then_some(first),
        MapKind::Steps => {
            if usize::from(first) > MOST_STEPS || usize::from(second) > MOST_STEPS {
                return None;
            }
            Some(first + second)
        }
        MapKind::Cells => Some(8),
    }
}
