//! A plan and a map as a picture.
ghost use Rattle.std.specs.Prelude.{◌≡◌, OnOk};
ghost use Rattle.std.specs.Option.{option_map, option_copied};
ghost use Rattle.listings.specs.Dots.{dot_radius, dots_text};
ghost use Rattle.listings.specs.Figures.{figures_text};
ghost use Rattle.survey.specs.Setups.{plan_of};
ghost use Rattle.listings.specs.Pictures.{AppendsPicture, Grows};

use crate::dots::write_dots;
use crate::figures::write_figures;
use crate::grid::{scale_of, write_cells};
use crate::layout::{BY_CELLS, BY_PLACES};
use crate::numbers;
use crate::scale_bar::write_scale;
use crate::shades::Scale;
use coats::CoatMap;
use nets::{Level, Net};
use std::io;
use std::io::Write;

/// Writes a picture in SVG 1.1, 600 wide: the panel with a dot for each place, and, if there is a map, its coat
/// in shades.
///
/// # Errors
/// What the writer answers.
pub fn write_picture<P: Net, M: CoatMap, W: Write>(
    plan: &P,
    map: Option<&M>,
    output: &mut W,
) -> io::Result<()>
    ensures { OnOk result (AppendsPicture (W.contents output.old) (W.contents output.new)
        (dots_text (dot_radius (P.level plan.now)) (option_map M.terms (option_copied map.entry))
        (P.places plan.now))
        (figures_text (plan_of P.Net plan.now) (option_map M.terms (option_copied map.entry)))) }
{
    let level = plan.level();
    write_back(level, map, output)?;
    write_dots(plan, map, dot_radius(level), output)?;
    write_numbers(plan, output)?;
    write_figures(plan, map, output)?;
    write_end(output)?;
    Ok(())
}

// The radius of a dot, in the unit of the places.
fn dot_radius(level: Level) -> u32
    ensures { result ≡ dot_radius level.m }
{
    640 - 40 * level.get()
}

// What lies under the dots, up to the group that they are in.
fn write_back<M: CoatMap, W: Write>(level: Level, map: Option<&M>, output: &mut W) -> io::Result<()>
    ensures { OnOk result (Grows (W.contents output.old) (W.contents output.new)) }
{
    write_head(level, output)?;
    write_coat(map, output)?;
    write_frame(output)?;
    write_group(level, output)?;
    Ok(())
}

fn write_head<W: Write>(level: Level, output: &mut W) -> io::Result<()>
    ensures { OnOk result (Grows (W.contents output.old) (W.contents output.new)) }
{
    let m = level.get();
    writeln!(
        output,
        r##"<svg xmlns="http://www.w3.org/2000/svg" version="1.1" width="600" height="540" viewBox="0 0 600 540"
 font-family="sans-serif" font-size="13">
<title>A plan of level {m}</title>
<defs>
<pattern id="below" patternUnits="userSpaceOnUse" width="4" height="4">
<path d="M-1 1L1 -1M0 4L4 0M3 5L5 3" stroke="#555" stroke-width="0.3"/>
</pattern>
</defs>
<rect width="600" height="540" fill="#fff"/>"##
    )
}

// The coat of a map, if there is one, and its scale.
fn write_coat<M: CoatMap, W: Write>(map: Option<&M>, output: &mut W) -> io::Result<()>
    ensures { OnOk result (Grows (W.contents output.old) (W.contents output.new)) }
{
    let Some(map) = map else {
        return Ok(());
    };
    let scale = scale_of(map);
    write_shades(map, scale, output)?;
    write_scale(scale, output)?;
    Ok(())
}

fn write_shades<M: CoatMap, W: Write>(map: &M, scale: Scale, output: &mut W) -> io::Result<()>
    ensures { OnOk result (Grows (W.contents output.old) (W.contents output.new)) }
{
    writeln!(
        output,
        r#"<g id="coat" transform="{BY_CELLS}" shape-rendering="crispEdges">"#
    )?;
    write_cells(map, scale, output)?;
    writeln!(output, "</g>")?;
    Ok(())
}

// The frame, the panel's edge, and the ends of its axes.
fn write_frame<W: Write>(output: &mut W) -> io::Result<()>
    ensures { OnOk result (Grows (W.contents output.old) (W.contents output.new)) }
{
    writeln!(
        output,
        r##"<rect x="54" y="12" width="464" height="464" fill="none" stroke="#000"/>
<rect x="62" y="20" width="448" height="448" fill="none" stroke="#999"/>
<g text-anchor="end">
<text x="50" y="26">65536</text>
<text x="50" y="248">y</text>
<text x="50" y="472">0</text>
</g>
<g text-anchor="middle">
<text x="62" y="492">0</text>
<text x="286" y="492">x</text>
<text x="510" y="492">65536</text>
</g>"##
    )
}

fn write_group<W: Write>(level: Level, output: &mut W) -> io::Result<()>
    ensures { OnOk result (Grows (W.contents output.old) (W.contents output.new)) }
{
    let edge = dot_radius(level) / 4;
    writeln!(
        output,
        r##"<g id="places" transform="{BY_PLACES}" fill="#000" stroke="#fff" stroke-width="{edge}">"##
    )
}

// Ends the dots, and writes their numbers.
fn write_numbers<P: Net, W: Write>(plan: &P, output: &mut W) -> io::Result<()>
    ensures { OnOk result (Grows (W.contents output.old) (W.contents output.new)) }
{
    writeln!(output, "</g>")?;
    numbers::write_numbers(plan, output)?;
    Ok(())
}

fn write_end<W: Write>(output: &mut W) -> io::Result<()>
    ensures { OnOk result (Grows (W.contents output.old) (W.contents output.new)) }
{
    writeln!(output, "</svg>")
}
