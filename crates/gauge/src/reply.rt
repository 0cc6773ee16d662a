//! What a line is answered.
ghost use Rattle.std.specs.Prelude.{◌≡◌, Some};
ghost use Rattle.gauge.specs.Lines.{reply_to};
ghost use Rattle.gauge.specs.Texts.{reply_text};

use crate::unreadable::Unreadable;
use std::fmt;
use survey::{Answer, Report};

/// What a line is answered.
#[derive(Clone, Copy, Debug, PartialEq, Eq)]
pub enum Reply {
    /// The opening has its plan.
    Plan,
    /// The opening is complete.
    Opened,
    /// What the line's call answers.
    Answer(Answer),
    /// The state does not allow the line's call.
    NotAllowed,
    /// The line of this number, from 1, makes no call.
    Wrong(u64, Unreadable),
}

impl From<Option<Answer>> for Reply {
    ghost from_gives = { λ a r. r ≡ reply_to a };

    fn from(answer: Option<Answer>) -> Reply {
        match answer {
            Some(answer) => Reply::Answer(answer),
            None => Reply::NotAllowed,
        }
    }
}

impl fmt::Display for Reply {
    ghost output = { λ r. Some (reply_text r) };

    fn fmt<W: fmt::Write>(&self, f: &mut fmt::Formatter<W>) -> fmt::Result {
        match self {
            Reply::Plan => write!(f, "plan"),
            Reply::Opened => write!(f, "opened"),
            Reply::Answer(Answer::Taken(Ok(count))) => write!(f, "taken {count}"),
            Reply::Answer(Answer::Taken(Err(fault))) => write!(f, "{fault}"),
            Reply::Answer(
                Answer::Reported(
                    Report {
                        level,
                        count,
                        sum,
                        radius,
                    },
                ),
            ) => write!(
                f,
                "report level {level} taken {count} sum {sum} radius {radius}"
            ),
            Reply::Answer(Answer::Limited(Ok(()))) => write!(f, "limited"),
            Reply::Answer(Answer::Limited(Err(fault))) => write!(f, "{fault}"),
            Reply::Answer(Answer::Begun) => write!(f, "begun"),
            Reply::Answer(Answer::Paged) => write!(f, "paged"),
            Reply::Answer(Answer::Committed(Ok(()))) => write!(f, "committed"),
            Reply::Answer(Answer::Committed(Err(fault))) => write!(f, "{fault}"),
            Reply::Answer(Answer::Abandoned) => write!(f, "abandoned"),
            Reply::NotAllowed => write!(f, "not allowed"),
            Reply::Wrong(line, fault) => write!(f, "line {line}: {fault}"),
        }
    }
}
