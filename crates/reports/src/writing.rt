//! Writing a text into memory that a caller hands over.
ghost use Rattle.std.specs.Prelude.{◌≤◌, length};
ghost use Rattle.reports.specs.Reports.{Stands};

// Writes a text at the start of a place, and answers how many bytes it has.
pub(crate) fn put(text: &str, place: &mut [u8]) -> usize
    requires { (length text.now ≤ 96) × (96 ≤ length place.old) }
    ensures { Stands text.now place.old place.new result }
{
    place[..text.len()].copy_from_slice(text.as_bytes());
    text.len()
}
