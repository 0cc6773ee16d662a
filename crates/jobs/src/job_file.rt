//! A job file by its directory: where its sections lie, and what each of them says.
ghost use Rattle.std.specs.Prelude.{◌≡◌, ℕ, ◌+◌, ◌*◌, ◌<◌, ◌≤◌, length, IfErr, MatchResult, slice_range};
ghost use Rattle.refusals.specs.Checks.{FirstTells, Passes};
ghost use Rattle.jobs.specs.Checks.{directory_checks};
ghost use Rattle.jobs.specs.Inner.{IsPair};
ghost use Rattle.jobs.specs.Layout.{offset, size, section, SaysLayers, SaysMap};
ghost use Rattle.jobs.specs.Refusals.{directory_told, plan_told, layers_told, map_section_told};

use crate::directory_fault::DirectoryFault;
use crate::layer_section::read_layers;
use crate::layer_section_fault::LayerSectionFault;
use crate::map_section::read_map;
use crate::map_section_fault::MapSectionFault;
use crate::plan_section::PlanSection;
use crate::plan_section_fault::PlanSectionFault;
use layers::LayerNumbers;
use little_endian::u16_at;
use maps::Map;

// The bytes of the directory.
pub(crate) const DIRECTORY_SIZE: usize = 12;

/// The most bytes of a job.
pub const LONGEST_JOB: usize = 65535;

// Where a section lies in the file.
#[derive(Clone, Copy, Debug)]
pub(crate) struct Extent {
    off: u16,
    len: u16,
}

// A job whose directory has passed its checks.
#[derive(Clone, Copy, Debug)]
pub(crate) struct JobFile<'a> {
    bytes: &'a [u8],
    plan: Extent,
    layers: Extent,
    map: Extent,
    ghost passed: { Passes (directory_checks bytes.now) },
    ghost plan_pair: { IsPair bytes.now 0 plan },
    ghost layer_pair: { IsPair bytes.now 1 layers },
    ghost map_pair: { IsPair bytes.now 2 map },
}

impl<'a> JobFile<'a> {
    ghost use Rattle.jobs.specs.Checks.{plan_checks_of, layer_checks_of, map_checks_of};
    ghost use Rattle.jobs.specs.Inner.{SaysSection, TellsRowsOf};

    pub(crate) fn open(bytes: &'a [u8]) -> Result<JobFile<'a>, DirectoryFault>
        ensures { MatchResult result (λ file. file.bytes.now ≡ bytes.now)
            (λ e. FirstTells (directory_checks bytes.now) (directory_told e)) }
    {
        if bytes.len() < DIRECTORY_SIZE || bytes.len() > LONGEST_JOB {
            return Err(DirectoryFault::Size);
        }
        let plan = pair(bytes, 0, DIRECTORY_SIZE)?;
        let layers = pair(bytes, 1, plan.end())?;
        let map = pair(bytes, 2, layers.end())?;
        Ok(JobFile {
            bytes,
            plan,
            layers,
            map,
        })
    }

    pub(crate) fn plan(&self) -> Result<PlanSection<'_>, PlanSectionFault>
        ensures { let job = self.now.bytes.now in
            MatchResult result (λ s. SaysSection (section job 0) s × Passes (plan_checks_of job))
            (λ e. FirstTells (plan_checks_of job) (plan_told e)) }
    {
        PlanSection::read(self.plan.off, part(self.bytes, self.plan))
    }

    pub(crate) fn layers(&self) -> Result<LayerNumbers, LayerSectionFault>
        ensures { let job = self.now.bytes.now in
            MatchResult result (λ l. SaysLayers (section job 1) l × Passes (layer_checks_of job))
            (λ e. FirstTells (layer_checks_of job) (layers_told e)) }
    {
        read_layers(self.layers.off, part(self.bytes, self.layers))
    }

    pub(crate) fn map(&self) -> Result<Map, MapSectionFault>
        ensures laid { let job = self.now.bytes.now in
            MatchResult result (λ m. SaysMap (section job 2) m × Passes (map_checks_of job))
            (λ e. FirstTells (map_checks_of job) (map_section_told e)) }
        ensures rows { let job = self.now.bytes.now in
            IfErr result (TellsRowsOf (offset job 2) (section job 2)) }
    {
        read_map(self.map.off, part(self.bytes, self.map))
    }
}

impl Extent {
    fn end(self) -> usize
        ensures { result ≡ self.off + self.len }
    {
        usize::from(self.off) + usize::from(self.len)
    }
}

// The pair of this number, whose section begins here at the earliest.
fn pair(job: &[u8], number: u16, floor: usize) -> Result<Extent, DirectoryFault>
    requires { number < 3 }
    ensures { MatchResult result
        (λ e. IsPair job.now number e × (floor ≤ e.off) × (e.off + e.len ≤ length job.now))
        (λ e. (e ≡ DirectoryFault.Pair number)
        × ((floor ≤ offset job.now number)
        → (offset job.now number + size job.now number ≤ length job.now) → ⊥)) }
{
    let at = 4 * usize::from(number);
    let extent = Extent {
        off: u16_at(job, at),
        len: u16_at(job, at + 2),
    };
    if usize::from(extent.off) < floor || extent.end() > job.len() {
        return Err(DirectoryFault::Pair(number));
    }
    Ok(extent)
}

// A section's part of the file.
fn part(job: &[u8], extent: Extent) -> &[u8]
    requires { extent.off + extent.len ≤ length job.now }
    ensures { result.now ≡ slice_range job.now extent.off (extent.off + extent.len) }
{
    let off = usize::from(extent.off);
    let len = usize::from(extent.len);
    &job[off..off + len]
}
