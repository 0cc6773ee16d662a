//! Places as dots of a picture.
ghost use Rattle.std.specs.Prelude.{◌≡◌, ◌-◌, Some, OnOk};
ghost use Rattle.std.specs.Io.KnownBytes.{Appends};
ghost use Rattle.std.specs.Option.{option_map, option_copied};
ghost use Rattle.listings.specs.Dots.{dot_text, dots_text};

use crate::lists::{Form, Row, coat_at};
use crate::places::Places;
use coats::{CoatMap, PANEL_SIDE};
use nets::Net;
use std::io::Write;
use std::{fmt, io};

/// Writes each place of a plan as a dot, a circle of SVG with this radius: x counts from the left, and y from
/// the bottom of a square of 65,536 by 65,536. The dot's title tells x, y and, if there is a map, its coat
/// there.
///
/// # Errors
/// What the writer answers.
pub fn write_dots<P: Net, M: CoatMap, W: Write>(
    plan: &P,
    map: Option<&M>,
    radius: u32,
    output: &mut W,
) -> io::Result<()>
    ensures { OnOk result (Appends (W.contents output.old) (W.contents output.new)
        (dots_text radius (option_map M.terms (option_copied map.entry)) (P.places plan.now))) }
{
    for place in Places::of(plan) {
        let coat = coat_at(map, place);
        let row = Row {
            form: Form::Lines,
            place,
            rounds: None,
            coat,
        };
        output.writeln(Dot { row, radius })?;
    }
    Ok(())
}

// A place as a dot of this radius.
#[derive(Clone, Copy, Debug)]
struct Dot {
    row: Row,
    radius: u32,
}

impl fmt::Display for Dot {
    ghost output = { λ d. Some (dot_text d.radius d.row.form d.row.place d.row.rounds d.row.coat) };

    #[tactic(auto, unfolding(crate::specs::Dots::dot_text))]
    fn fmt<W: fmt::Write>(&self, f: &mut fmt::Formatter<W>) -> fmt::Result {
        let Dot { row, radius } = *self;
        let (x, y) = row.place;
        let down = from_top(y);
        write!(
            f,
            r#"<circle cx="{x}" cy="{down}" r="{radius}"><title>{row}</title></circle>"#
        )
    }
}

// How far below the top of the square a coordinate y is.
fn from_top(y: u16) -> u32
    ensures { result ≡ PANEL_SIDE - y }
{
    PANEL_SIDE - u32::from(y)
}
