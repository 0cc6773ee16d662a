//! How the audit and loading refuse.
ghost use Rattle.std.specs.Prelude.{◌≡◌, Some};
ghost use Rattle.audit.specs.declared.faults.AuditFault.TheVariants.{Empty};
ghost use Rattle.audit.specs.declared.faults.LoadFault.TheVariants.{Audit, Memory};
ghost use Rattle.audit.specs.Refusals.{net_text, audit_text, load_text};

use std::alloc::AllocError;
use std::error::Error;
use std::fmt;

/// 13: a list of 2^m places is no net. It names the smallest depth that has an empty interval, and the
/// smallest number of an empty interval there.
#[derive(Clone, Copy, Debug, PartialEq, Eq)]
pub struct NotNet {
    /// The depth, from 0 to m.
    pub depth: u32,
    /// The number of the interval, below 2^m.
    pub interval: u32,
}

/// How the audit refuses a list.
#[derive(Clone, Copy, Debug, PartialEq, Eq)]
pub enum AuditFault {
    /// 12: no level's list has this length, in places or in bytes as the list was given.
    Length(usize),
    /// 13: it is no net.
    Empty(NotNet),
}

/// How the loading of a point list refuses.
#[derive(Clone, Copy, Debug, PartialEq, Eq)]
pub enum LoadFault {
    /// 12 or 13, as the audit says.
    Audit(AuditFault),
    /// Want of memory for the places of a net.
    Memory,
}

impl fmt::Display for NotNet {
    ghost output = { λ e. Some (net_text e) };

    fn fmt<W: fmt::Write>(&self, f: &mut fmt::Formatter<W>) -> fmt::Result {
        let NotNet { depth, interval } = self;
        write!(f, "refused 13 depth {depth} interval {interval}")
    }
}

impl fmt::Display for AuditFault {
    ghost output = { λ e. Some (audit_text e) };

    fn fmt<W: fmt::Write>(&self, f: &mut fmt::Formatter<W>) -> fmt::Result {
        match self {
            AuditFault::Length(size) => write!(f, "refused 12 place {size}"),
            AuditFault::Empty(fault) => write!(f, "{fault}"),
        }
    }
}

impl fmt::Display for LoadFault {
    ghost output = { λ e. Some (load_text e) };

    fn fmt<W: fmt::Write>(&self, f: &mut fmt::Formatter<W>) -> fmt::Result {
        match self {
            LoadFault::Audit(fault) => write!(f, "{fault}"),
            LoadFault::Memory => write!(f, "out of memory"),
        }
    }
}

impl Error for NotNet {}

impl Error for AuditFault {}

impl Error for LoadFault {}

impl From<NotNet> for AuditFault {
    ghost from_gives = { λ e r. r ≡ Empty e };

    fn from(e: NotNet) -> AuditFault {
        AuditFault::Empty(e)
    }
}

impl From<AuditFault> for LoadFault {
    ghost from_gives = { λ e r. r ≡ Audit e };

    fn from(e: AuditFault) -> LoadFault {
        LoadFault::Audit(e)
    }
}

impl From<AllocError> for LoadFault {
    ghost from_gives = { λ _ r. r ≡ Memory };

    fn from(_e: AllocError) -> LoadFault {
        LoadFault::Memory
    }
}
