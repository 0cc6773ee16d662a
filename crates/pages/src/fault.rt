//! Why words are no page.
ghost use Rattle.std.specs.Prelude.{◌≡◌, ◌≢◌, Some};
ghost use Rattle.std.specs.IoError.{error_kind};
ghost use Rattle.std.specs.declared.io.ErrorKind.TheVariants.{OutOfMemory};
ghost use Rattle.pages.specs.Faults.{fault_of_job, fault_text};
ghost use Rattle.pages.specs.declared.fault.PageFault.TheVariants.{File, Level, Map, Memory, Points};

use audit::AuditFault;
use coats::MapFault;
use jobs::JobFault;
use nets::LevelFault;
use std::alloc::{AllocError, AllocFailed};
use std::error::Error;
use std::io::ErrorKind;
use std::{fmt, io};

/// Why words are no page.
#[derive(Clone, Copy, Debug, PartialEq, Eq)]
pub enum PageFault {
    /// The words are not those of any page.
    Words,
    /// A file cannot be opened or read.
    File,
    /// 1 to 9 or 13, of a job file.
    Job(JobFault),
    /// 4, of a plan's level.
    Level(LevelFault),
    /// 12 or 13, of a list of places.
    Points(AuditFault),
    /// 7, 8 or 9, of the rows of a map.
    Map(MapFault),
    /// Want of memory.
    Memory,
}

impl fmt::Display for PageFault {
    ghost output = { λ e. Some (fault_text e) };

    fn fmt<W: fmt::Write>(&self, f: &mut fmt::Formatter<W>) -> fmt::Result {
        match self {
            PageFault::Words => write!(f, "cannot read its words"),
            PageFault::File => write!(f, "cannot read the file"),
            PageFault::Job(fault) => write!(f, "{fault}"),
            PageFault::Level(fault) => write!(f, "{fault}"),
            PageFault::Points(fault) => write!(f, "{fault}"),
            PageFault::Map(fault) => write!(f, "{fault}"),
            PageFault::Memory => write!(f, "out of memory"),
        }
    }
}

impl Error for PageFault {}

impl From<AllocError> for PageFault {
    ghost from_gives = { λ _ r. r ≡ Memory };

    fn from(_e: AllocError) -> PageFault {
        PageFault::Memory
    }
}

impl<T: Drop> From<AllocFailed<T>> for PageFault {
    ghost from_gives = { λ _ r. r ≡ Memory };

    fn from(_e: AllocFailed<T>) -> PageFault {
        PageFault::Memory
    }
}

impl From<LevelFault> for PageFault {
    ghost from_gives = { λ e r. r ≡ Level e };

    fn from(e: LevelFault) -> PageFault {
        PageFault::Level(e)
    }
}

impl From<AuditFault> for PageFault {
    ghost from_gives = { λ e r. r ≡ Points e };

    fn from(e: AuditFault) -> PageFault {
        PageFault::Points(e)
    }
}

impl From<MapFault> for PageFault {
    ghost from_gives = { λ e r. r ≡ Map e };

    fn from(e: MapFault) -> PageFault {
        PageFault::Map(e)
    }
}

impl From<JobFault> for PageFault {
    ghost from_gives = { λ e r. r ≡ fault_of_job e };

    fn from(e: JobFault) -> PageFault {
        match e {
            JobFault::Memory => PageFault::Memory,
            fault => PageFault::Job(fault),
        }
    }
}

impl From<io::Error> for PageFault {
    ghost from_gives = { λ e r. (error_kind e ≡ OutOfMemory → r ≡ Memory)
        × (error_kind e ≢ OutOfMemory → r ≡ File) };

    fn from(e: io::Error) -> PageFault {
        if e.kind() == ErrorKind::OutOfMemory {
            PageFault::Memory
        } else {
            PageFault::File
        }
    }
}
