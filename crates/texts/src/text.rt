//! Texts of a fixed capacity.
ghost use Rattle.std.specs.Prelude.{◌≡◌, ◌+◌, ◌<◌, ◌≤◌, ◌++◌, length};

use arrayvec::ArrayString;
use itoa::{Buffer, Integer};

/// The most bytes of a text.
pub const CAPACITY: usize = 128;

/// A text of at most 128 bytes, which lies in the value itself.
pub type Text = ArrayString<CAPACITY>;

/// Appends a name and a number, in decimal, if there is room for both, and nothing otherwise.
pub fn push_number<I: Integer>(text: &mut Text, name: &str, number: I)
    ensures fits { length text.old.bytes + (length name.now + length (I.text number)) ≤ CAPACITY →
        text.new.bytes ≡ text.old.bytes ++ (name.now ++ I.text number) }
    ensures full { CAPACITY < length text.old.bytes + (length name.now + length (I.text number)) →
        text.new ≡ text.old }
    ensures short { length (I.text number) ≤ I.MAX_STR_LEN }
{
    let mut buffer = Buffer::new();
    let digits = buffer.format(number);
    if name.len() + digits.len() <= text.remaining_capacity() {
        text.push_str(name);
        text.push_str(digits);
    }
}
