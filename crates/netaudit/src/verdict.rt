//! What is said of a list of places.
ghost use Rattle.std.specs.Prelude.{◌≡◌, Some};
ghost use Rattle.netaudit.specs.Texts.{verdict_text};
ghost use Rattle.netaudit.specs.Verdicts.{Vets, status_of};

use audit::{AuditFault, NetBytes};
use nets::MOST_PLACES;
use std::fmt;

/// The bytes of the longest list, of level 12.
pub const LONGEST_LIST: usize = 4 * MOST_PLACES as usize;

/// What is said of a list of places.
#[derive(Clone, Copy, Debug)]
pub enum Verdict<'a> {
    /// A net, as the audit found it.
    Net(NetBytes<'a>),
    /// 12 or 13: what the audit refuses.
    Refused(AuditFault),
    /// 12: more bytes than the longest list has. Nobody has counted them.
    TooLong,
}

/// The verdict on bytes that lay down places.
pub fn vet(bytes: &[u8]) -> Verdict<'_>
    ensures { Vets bytes.now result }
{
    if bytes.len() > LONGEST_LIST {
        return Verdict::TooLong;
    }
    match NetBytes::audit(bytes) {
        Ok(net) => Verdict::Net(net),
        Err(fault) => Verdict::Refused(fault),
    }
}

impl Verdict<'_> {
    /// The status that the program ends with: 0 for a net, 1 for a list that is none.
    pub fn status(&self) -> u8
        ensures { result ≡ status_of self.now }
    {
        match self {
            Verdict::Net(_) => 0,
            Verdict::Refused(_) | Verdict::TooLong => 1,
        }
    }
}

impl fmt::Display for Verdict<'_> {
    ghost output = { λ v. Some (verdict_text v) };

    fn fmt<W: fmt::Write>(&self, f: &mut fmt::Formatter<W>) -> fmt::Result {
        match self {
            Verdict::Net(net) => {
                let places = net.level().places();
                let level = net.level().get();
                let intervals = net.intervals();
                write!(
                    f,
                    "places {places}\nlevel {level}\nintervals {intervals}\nnet"
                )
            }
            Verdict::Refused(fault) => write!(f, "{fault}"),
            Verdict::TooLong => write!(f, "refused 12 more than {LONGEST_LIST} bytes"),
        }
    }
}
