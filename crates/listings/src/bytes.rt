//! Places as bytes, as job files and netaudit read them.
ghost use Rattle.std.specs.Prelude.{◌≡◌, [], ◌∷◌, OnOk, length};
ghost use Rattle.audit.specs.Bytes.{place_at};
ghost use Rattle.listings.specs.Bytes.{AppendsPlaces};

use crate::places::Places;
use nets::{Net, Place};
use std::io;
use std::io::Write;

/// Writes each place of a plan as four bytes: x then y, 16 bits each, lowest byte first.
///
/// # Errors
/// What the writer answers.
#[tactic(auto, using(std::proofs::lemmas::Grind::common_steps, crate::proofs::Packed::none_yet, crate::proofs::Packed::one_more))]
pub fn write_bytes<P: Net, W: Write>(plan: &P, output: &mut W) -> io::Result<()>
    ensures { OnOk result (AppendsPlaces (W.contents output.old) (W.contents output.new) (P.places plan.now)) }
{
    for place in Places::of(plan) {
        write_place(place, output)?;
    }
    Ok(())
}

#[tactic(auto, using(crate::proofs::Packed::just_one))]
fn write_place<W: Write>(place: Place, output: &mut W) -> io::Result<()>
    ensures { OnOk result (AppendsPlaces (W.contents output.old) (W.contents output.new) (place ∷ [])) }
{
    output.write_all(&bytes_of(place))
}

// The four bytes that lay down a place.
fn bytes_of(place: Place) -> [u8; 4]
    ensures long { length result ≡ 4 }
    ensures value { place_at result 0 ≡ place }
{
    let (x, y) = place;
    let [x_low, x_high] = x.to_le_bytes();
    let [y_low, y_high] = y.to_le_bytes();
    [x_low, x_high, y_low, y_high]
}
