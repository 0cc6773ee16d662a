//! The scale of a coat's shades, beside the panel.
ghost use Rattle.std.specs.Prelude.{OnOk};
ghost use Rattle.listings.specs.Pictures.{Grows};

use crate::layout::BY_CELLS;
use crate::shades::{Scale, palest};
use std::io;
use std::io::Write;

/// Writes a bar of the shades, with the greatest coat, half of it, 0, half the least, and the least beside it. A
/// side of 0 that has no coat is left out.
pub(crate) fn write_scale<W: Write>(scale: Scale, output: &mut W) -> io::Result<()>
    ensures { OnOk result (Grows (W.contents output.old) (W.contents output.new)) }
{
    writeln!(
        output,
        r#"<g id="scale" transform="{BY_CELLS}" font-size="3.7">
<text x="134" y="-2">coat</text>
<text x="139" y="65.3">0</text>"#
    )?;
    write_above(scale, output)?;
    write_below(scale, output)?;
    writeln!(output, "</g>")?;
    Ok(())
}

fn write_above<W: Write>(scale: Scale, output: &mut W) -> io::Result<()>
    ensures { OnOk result (Grows (W.contents output.old) (W.contents output.new)) }
{
    let greatest = scale.greatest;
    if greatest == 0 {
        return Ok(());
    }
    let pale = palest(greatest);
    let deep = scale.shade(greatest);
    let (half, tail) = halved(greatest.unsigned_abs());
    writeln!(
        output,
        r##"<linearGradient id="blues" x1="0" y1="1" x2="0" y2="0">
<stop offset="0" stop-color="{pale}"/>
<stop offset="1" stop-color="{deep}"/>
</linearGradient>
<rect x="134" y="0" width="4" height="63" fill="url(#blues)" stroke="#000" stroke-width="0.2"/>
<text x="139" y="3">{greatest}</text>
<text x="139" y="32.8">{half}{tail}</text>"##
    )
}

fn write_below<W: Write>(scale: Scale, output: &mut W) -> io::Result<()>
    ensures { OnOk result (Grows (W.contents output.old) (W.contents output.new)) }
{
    let least = scale.least;
    if least == 0 {
        return Ok(());
    }
    let pale = palest(least);
    let deep = scale.shade(least);
    let (half, tail) = halved(least.unsigned_abs());
    writeln!(
        output,
        r##"<linearGradient id="oranges" x1="0" y1="0" x2="0" y2="1">
<stop offset="0" stop-color="{pale}"/>
<stop offset="1" stop-color="{deep}"/>
</linearGradient>
<rect x="134" y="65" width="4" height="63" fill="url(#oranges)"/>
<rect x="134" y="65" width="4" height="63" fill="url(#below)" stroke="#000" stroke-width="0.2"/>
<text x="139" y="97.8">-{half}{tail}</text>
<text x="139" y="128">{least}</text>"##
    )
}

// Half a number: its whole part, and what stands after it.
fn halved(number: u32) -> (u32, &'static str) {
    let tail = if number % 2 == 1 { ".5" } else { "" };
    (number / 2, tail)
}
