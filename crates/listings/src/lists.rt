//! Places as lines of text.
ghost use Rattle.std.specs.Prelude.{◌≡◌, ◌^◌, ◌<◌, Some, OnOk, slice_index_or};
ghost use Rattle.std.specs.Option.{option_map, option_copied};
ghost use Rattle.std.specs.Io.KnownBytes.{Appends};
ghost use Rattle.coats.specs.Terms.{coat_of};
ghost use Rattle.nets.specs.Rounds.{TellsRounds};
ghost use Rattle.listings.specs.Lists.{separator_of, head_of, place_text, list_text, AppendsRounds};

use crate::places::Places;
use coats::CoatMap;
use nets::{Net, Place, Rounds};
use std::io::Write;
use std::{fmt, io};

/// How the numbers of a place are written.
#[derive(Clone, Copy, Debug, PartialEq, Eq)]
pub enum Form {
    /// With a space between two of them.
    Lines,
    /// With a comma between two of them, below a line of names.
    Csv,
}

/// Writes each place of a plan on a line: x, y and, if there is a map, its coat there.
///
/// # Errors
/// What the writer answers.
pub fn write_list<P: Net, M: CoatMap, W: Write>(
    plan: &P,
    map: Option<&M>,
    form: Form,
    output: &mut W,
) -> io::Result<()>
    ensures { OnOk result (Appends (W.contents output.old) (W.contents output.new)
        (list_text form (option_map M.terms (option_copied map.entry)) (P.places plan.now))) }
{
    output.write_all(form.head(false, map.is_some()).as_bytes())?;
    for place in Places::of(plan) {
        let coat = coat_at(map, place);
        output.writeln(Row {
            form,
            place,
            rounds: None,
            coat,
        })?;
    }
    Ok(())
}

/// Writes each place of a plan on a line: x, y, the rounds in which it is made if the plan counts them, and, if
/// there is a map, its coat there.
///
/// # Errors
/// What the writer answers.
#[tactic(auto, using(crate::proofs::Told::told))]
pub fn write_rounds<P: Rounds, M: CoatMap, W: Write>(
    plan: &P,
    map: Option<&M>,
    form: Form,
    output: &mut W,
) -> io::Result<()>
    ensures { OnOk result (AppendsRounds (W.contents output.old) (W.contents output.new) form
        (P.counts plan.now) (option_map M.terms (option_copied map.entry)) (P.places plan.now)) }
{
    plan.show_net();
    output.write_all(form.head(plan.counts_rounds(), map.is_some()).as_bytes())?;
    for i in 0..plan.level().places() {
        output.writeln(row_at(plan, map, form, i))?;
    }
    Ok(())
}

// The row of an index.
fn row_at<P: Rounds, M: CoatMap>(plan: &P, map: Option<&M>, form: Form, i: u32) -> Row
    requires { i < 2 ^ P.level plan.now }
    ensures form { result.form ≡ form }
    ensures place { result.place ≡ slice_index_or (P.places plan.now) i (0, 0) }
    ensures rounds { TellsRounds (P.counts plan.now) i result.rounds }
    ensures coat { result.coat ≡ option_map (λ ts. coat_of ts result.place) (option_map M.terms (option_copied map.entry)) }
{
    let (place, rounds) = plan.place_and_rounds(i).unwrap();
    let coat = coat_at(map, place);
    Row {
        form,
        place,
        rounds,
        coat,
    }
}

// The coat of a map at a place, if there is a map.
pub(crate) fn coat_at<M: CoatMap>(map: Option<&M>, place: Place) -> Option<i32>
    ensures { result ≡ option_map (λ ts. coat_of ts place) (option_map M.terms (option_copied map.entry)) }
{
    map.map(|map| map.coat(place))
}

impl Form {
    fn separator(self) -> &'static str
        ensures { result.now ≡ separator_of self }
    {
        match self {
            Form::Lines => " ",
            Form::Csv => ",",
        }
    }

    // The line of names, if the form has one.
    fn head(self, rounds: bool, coats: bool) -> &'static str
        ensures { result.now ≡ head_of self rounds coats }
    {
        match (self, rounds, coats) {
            (Form::Lines, _, _) => "",
            (Form::Csv, false, false) => "x,y\n",
            (Form::Csv, false, true) => "x,y,coat\n",
            (Form::Csv, true, false) => "x,y,rounds\n",
            (Form::Csv, true, true) => "x,y,rounds,coat\n",
        }
    }
}

// A place with the rounds in which it is made and with its coat, each if it is wanted.
#[derive(Clone, Copy, Debug)]
pub(crate) struct Row {
    pub(crate) form: Form,
    pub(crate) place: Place,
    pub(crate) rounds: Option<u32>,
    pub(crate) coat: Option<i32>,
}

impl fmt::Display for Row {
    ghost output = { λ r. Some (place_text r.form r.place r.rounds r.coat) };

    fn fmt<W: fmt::Write>(&self, f: &mut fmt::Formatter<W>) -> fmt::Result {
        let (x, y) = self.place;
        let separator = self.form.separator();
        match (self.rounds, self.coat) {
            (None, None) => write!(f, "{x}{separator}{y}"),
            (None, Some(coat)) => write!(f, "{x}{separator}{y}{separator}{coat}"),
            (Some(rounds), None) => write!(f, "{x}{separator}{y}{separator}{rounds}"),
            (Some(rounds), Some(coat)) => {
                write!(f, "{x}{separator}{y}{separator}{rounds}{separator}{coat}")
            }
        }
    }
}
