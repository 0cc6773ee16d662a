//! How the places are written.
ghost use Rattle.std.specs.Prelude.{OnOk};
ghost use Rattle.std.specs.Option.{option_map, option_copied};
ghost use Rattle.netplan.specs.Outputs.{ChecksRounds, Writes};

use crate::fault::PlanFault;
use coats::CoatMap;
use listings::{write_bytes, write_list, write_picture, write_rounds};
use nets::Rounds;
use std::io;
use std::io::Write;

/// How the places are written.
#[derive(Clone, Copy, Debug, PartialEq, Eq)]
pub enum Form {
    /// A line for each.
    List(listings::Form),
    /// A line for each, with the rounds in which it is made.
    Rounds(listings::Form),
    /// Four bytes for each.
    Bytes,
    /// A drawing.
    Picture,
}

// Rounds can be written of a plan that counts them.
pub(crate) fn check_rounds<P: Rounds>(form: Form, plan: &P) -> Result<(), PlanFault>
    ensures { ChecksRounds form (P.counts plan.now) result }
{
    match form {
        Form::Rounds(_) if !plan.counts_rounds() => Err(PlanFault::NoRounds),
        _ => Ok(()),
    }
}

// Writes the places, and the coat of a map, if there is one and the form has room for it.
pub(crate) fn write_in<P: Rounds, M: CoatMap, W: Write>(
    form: Form,
    plan: &P,
    map: Option<&M>,
    output: &mut W,
) -> io::Result<()>
    ensures { OnOk result (Writes form (P.level plan.now) (P.places plan.now) (P.counts plan.now)
        (option_map M.terms (option_copied map.entry)) (W.contents output.old) (W.contents output.new)) }
{
    match form {
        Form::List(form) => write_list(plan, map, form, output),
        Form::Rounds(form) => write_rounds(plan, map, form, output),
        Form::Bytes => write_bytes(plan, output),
        Form::Picture => write_picture(plan, map, output),
    }
}
