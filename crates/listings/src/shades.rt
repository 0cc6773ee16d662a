//! The shades of a coat: blue above zero, and orange below.
ghost use Rattle.std.specs.Prelude.{Some};
ghost use Rattle.listings.specs.Shades.{colour_text, fill_text};

use std::fmt;

/// A colour.
#[derive(Clone, Copy, Debug, PartialEq, Eq)]
pub(crate) struct Colour {
    red: u8,
    green: u8,
    blue: u8,
}

/// What fills a part of a picture.
#[derive(Clone, Copy, Debug, PartialEq, Eq)]
pub(crate) enum Fill {
    /// A colour.
    Shade(Colour),
    /// The lines that are drawn over what is below 0.
    Hatch,
}

/// The least and the greatest coat that a picture shows, 0 among them.
#[derive(Clone, Copy, Debug, Default, PartialEq, Eq)]
pub(crate) struct Scale {
    pub(crate) least: i32,
    pub(crate) greatest: i32,
}

// The shades furthest from 0. Black stands out from both.
const BLUE: Colour = Colour {
    red: 67,
    green: 147,
    blue: 195,
};

const ORANGE: Colour = Colour {
    red: 241,
    green: 145,
    blue: 59,
};

// The parts of a whole colour.
const WHOLE: u64 = 256;

// How many of them the palest shade has.
const PALEST: u64 = 32;

impl Colour {
    // So many parts of the colour, and white for the others.
    fn diluted(self, parts: u64) -> Colour {
        Colour {
            red: diluted_channel(self.red, parts),
            green: diluted_channel(self.green, parts),
            blue: diluted_channel(self.blue, parts),
        }
    }
}

fn diluted_channel(channel: u8, parts: u64) -> u8 {
    let depth = u64::from(u8::MAX - channel) * parts.min(WHOLE) / WHOLE;
    u64::from(u8::MAX).saturating_sub(depth) as u8
}

impl fmt::Display for Colour {
    ghost output = { λ c. Some (colour_text c) };

    fn fmt<W: fmt::Write>(&self, f: &mut fmt::Formatter<W>) -> fmt::Result {
        let Colour { red, green, blue } = self;
        write!(f, "rgb({red},{green},{blue})")
    }
}

impl fmt::Display for Fill {
    ghost output = { λ fill. Some (fill_text fill) };

    fn fmt<W: fmt::Write>(&self, f: &mut fmt::Formatter<W>) -> fmt::Result {
        match self {
            Fill::Shade(colour) => write!(f, "{colour}"),
            Fill::Hatch => write!(f, "url(#below)"),
        }
    }
}

impl Scale {
    // The scale that has this coat too.
    pub(crate) fn with(self, coat: i32) -> Scale {
        Scale {
            least: self.least.min(coat),
            greatest: self.greatest.max(coat),
        }
    }

    // The shade of a coat that is not 0: deeper the further it is from 0.
    pub(crate) fn shade(self, coat: i32) -> Colour {
        let furthest = self.least.unsigned_abs().max(self.greatest.unsigned_abs());
        let share = (WHOLE - PALEST) * u64::from(coat.unsigned_abs());
        colour_of(coat).diluted(PALEST + share / u64::from(furthest.max(1)))
    }
}

// What the shades of a coat's side of 0 come to at 0.
pub(crate) fn palest(coat: i32) -> Colour {
    colour_of(coat).diluted(PALEST)
}

// The colour of a coat's side of 0.
fn colour_of(coat: i32) -> Colour {
    if coat < 0 { ORANGE } else { BLUE }
}
