//! Files that words name.
ghost use Rattle.pages.specs.Pages.{ReadsJob, ReadsPoints};

use crate::fault::PageFault;
use audit::{NetBytes, PointList};
use jobs::{LONGEST_JOB, Recipe};
use plans::Plan;
use std::alloc::Global;
use std::fs::File;
use std::io;
use std::io::Read;
use std::rt::Files;

/// The recipe of the job file at a path.
///
/// # Errors
/// A file that cannot be read; 1 to 9 and 13 of the job; want of memory.
pub fn read_job<R: Files + AllocGlobal>(rt: &R, path: &str) -> Result<Recipe, PageFault> {
    let bytes = read_file(rt, path, LONGEST_JOB)?;
    recipe_of(rt.alloc(), &bytes)
}

/// The bytes of the file at a path, of which at most one more than so many is read.
///
/// # Errors
/// A file that cannot be opened or read, and want of memory.
pub fn read_file<R: Files + AllocGlobal>(rt: &R, path: &str, most: usize) -> io::Result<Vec<u8>> {
    let mut bytes = Vec::new(rt.alloc());
    let mut file = File::open(rt, path)?.take((most as u64).saturating_add(1));
    file.read_to_end(&mut bytes)?;
    Ok(bytes)
}

/// The recipe that a job lays down.
///
/// # Errors
/// 1 to 9 and 13 of the job; want of memory.
pub fn recipe_of(heap: Global, job: &[u8]) -> Result<Recipe, PageFault>
    ensures { ReadsJob job.now result }
{
    Ok(Recipe::parse(heap, job)?)
}

/// The plan of the places that bytes lay down.
///
/// # Errors
/// 12 for a length that is no level's, 13 for places that are no net; want of memory, of nets alone.
pub fn points_of(heap: Global, bytes: &[u8]) -> Result<Plan, PageFault>
    ensures { ReadsPoints bytes.now result }
{
    let net = NetBytes::audit(bytes)?;
    Ok(Plan::Points(PointList::of(heap, net)?))
}
