//! The numbers of a plan's places beside their dots.
ghost use Rattle.std.specs.Prelude.{OnOk};
ghost use Rattle.listings.specs.Pictures.{Grows};

use crate::layout::BY_PLACES;
use crate::places::Places;
use coats::PANEL_SIDE;
use nets::{Net, Place};
use std::io;
use std::io::Write;

// The greatest level of which the numbers are written.
const HIGHEST: u32 = 5;

// How far a number is from the middle of its dot, to the side and downwards.
const ASIDE: u32 = 900;

const BELOW: u32 = 650;

// Beyond this x there is no room to the right of a dot.
const FAR_RIGHT: u16 = 61440;

/// Writes the number of each place, from 0 on, beside its dot, at the levels where there is room for them.
pub(crate) fn write_numbers<P: Net, W: Write>(plan: &P, output: &mut W) -> io::Result<()>
    ensures { OnOk result (Grows (W.contents output.old) (W.contents output.new)) }
{
    if plan.level().get() > HIGHEST {
        return Ok(());
    }
    writeln!(
        output,
        r#"<g id="numbers" transform="{BY_PLACES}" font-size="1900">"#
    )?;
    write_each(plan, output)?;
    writeln!(output, "</g>")?;
    Ok(())
}

fn write_each<P: Net, W: Write>(plan: &P, output: &mut W) -> io::Result<()>
    ensures { OnOk result (Grows (W.contents output.old) (W.contents output.new)) }
{
    for (number, place) in (0..plan.level().places()).zip(Places::of(plan)) {
        write_number(number, place, output)?;
    }
    Ok(())
}

// To the right of a dot, or to the left where the panel ends.
fn write_number<W: Write>(number: u32, place: Place, output: &mut W) -> io::Result<()>
    ensures { OnOk result (Grows (W.contents output.old) (W.contents output.new)) }
{
    let (x, y) = place;
    let down = PANEL_SIDE + BELOW - u32::from(y);
    let (x, anchor) = if x > FAR_RIGHT {
        (u32::from(x) - ASIDE, "end")
    } else {
        (u32::from(x) + ASIDE, "start")
    };
    writeln!(
        output,
        r#"<text x="{x}" y="{down}" text-anchor="{anchor}">{number}</text>"#
    )
}
