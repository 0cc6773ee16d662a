//! Rectangles of cells.
ghost use Rattle.std.specs.Prelude.{◌≤◌, Some};

use crate::shades::Fill;
use std::fmt;

/// Cells that lie in a line: from this one on, up to that one.
#[derive(Clone, Copy, Debug)]
pub(crate) struct Span {
    pub(crate) from: usize,
    pub(crate) to: usize,
    ghost order: { from ≤ to },
    ghost inside: { to ≤ 128 },
}

/// A rectangle of cells, the rows counted from the bottom.
#[derive(Clone, Copy, Debug)]
pub(crate) struct Rectangle {
    pub(crate) columns: Span,
    pub(crate) rows: Span,
    pub(crate) fill: Fill,
}

impl fmt::Display for Rectangle {
    ghost use Rattle.listings.specs.Rectangles.{rectangle_text};

    ghost output = { λ r. Some (rectangle_text r) };

    #[tactic(auto, unfolding(crate::specs::Rectangles::rectangle_text))]
    fn fmt<W: fmt::Write>(&self, f: &mut fmt::Formatter<W>) -> fmt::Result {
        let Rectangle {
            columns,
            rows,
            fill,
        } = *self;
        let x = columns.from;
        let y = 128 - rows.to;
        let width = columns.to - columns.from;
        let height = rows.to - rows.from;
        write!(
            f,
            r#"<rect x="{x}" y="{y}" width="{width}" height="{height}" fill="{fill}"/>"#
        )
    }
}
