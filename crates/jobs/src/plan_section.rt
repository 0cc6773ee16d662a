//! The plan section of a job file.
ghost use Rattle.std.specs.Prelude.{◌≡◌, ◌≤◌, drop, length, MatchOption, MatchResult};
ghost use Rattle.jobs.specs.Inner.{plan_code, IsNetAt, IsNoNetAt};
ghost use Rattle.jobs.specs.Layout.{kind_byte, level_byte};

use crate::plan_section_fault::{PlanSectionFault, PointsAt};
use audit::{NetBytes, PlaceBytes, PointList};
use nets::Level;
use plans::{Plan, PlanKind};
use std::alloc::{AllocError, Global};

// The bytes before the places.
const HEAD: usize = 2;

// What a section has that has passed its checks, by its kind.
#[derive(Clone, Copy, Debug)]
pub(crate) enum PlanSection<'a> {
    Hammersley(Level),
    Sobol(Level),
    Points(NetBytes<'a>),
}

impl<'a> PlanSection<'a> {
    ghost use Rattle.refusals.specs.Checks.{FirstTells, Passes};
    ghost use Rattle.jobs.specs.Checks.{plan_checks};
    ghost use Rattle.jobs.specs.Inner.{SaysSection, IsPlanOf, NeedsList};
    ghost use Rattle.jobs.specs.Refusals.{plan_told};

    // Of a section that starts at this byte of the file.
    #[tactic(auto, unfolding(crate::specs::Checks::plan_checks))]
    pub(crate) fn read(start: u16, bytes: &'a [u8]) -> Result<PlanSection<'a>, PlanSectionFault>
        ensures { MatchResult result
            (λ s. SaysSection bytes.now s × Passes (plan_checks start bytes.now))
            (λ e. FirstTells (plan_checks start bytes.now) (plan_told e)) }
    {
        let kind = plan_kind(bytes).ok_or(PlanSectionFault::Kind(start))?;
        let level = level_of(bytes).ok_or(PlanSectionFault::Level(start))?;
        match kind {
            PlanKind::Points => PlanSection::read_points(start, level, bytes),
            _ if bytes.len() != HEAD => Err(PlanSectionFault::Length(start)),
            PlanKind::Hammersley => Ok(PlanSection::Hammersley(level)),
            PlanKind::Sobol => Ok(PlanSection::Sobol(level)),
        }
    }

    // Of a section that has places of this level.
    #[tactic(auto, using(crate::proofs::Plans::points))]
    fn read_points(
        start: u16,
        level: Level,
        bytes: &'a [u8],
    ) -> Result<PlanSection<'a>, PlanSectionFault>
        requires kind { kind_byte bytes.now ≡ 2 }
        requires head { 2 ≤ length bytes.now }
        requires level { level.m ≡ level_byte bytes.now }
        ensures { MatchResult result
            (λ s. SaysSection bytes.now s × Passes (plan_checks start bytes.now))
            (λ e. FirstTells (plan_checks start bytes.now) (plan_told e)) }
    {
        let places = PlaceBytes::of_level(level, past_head(bytes)).ok_or(PlanSectionFault::Length(
            start,
        ))?;
        Ok(PlanSection::Points(audit_at(start, places)?))
    }

    // The plan that it lays down. Only memory can be wanting.
    pub(crate) fn plan(self, heap: Global) -> Result<Plan, AllocError>
        ensures { MatchResult result (IsPlanOf self.entry) (λ _. NeedsList self.entry) }
    {
        match self {
            PlanSection::Hammersley(level) => Ok(Plan::Hammersley(level.into())),
            PlanSection::Sobol(level) => Ok(Plan::Sobol(level.into())),
            PlanSection::Points(net) => Ok(Plan::Points(PointList::of(heap, net)?)),
        }
    }
}

fn plan_kind(bytes: &[u8]) -> Option<PlanKind>
    ensures { MatchOption result ((1 ≤ length bytes.now) → (kind_byte bytes.now ≤ 2) → ⊥)
        (λ k. (1 ≤ length bytes.now) × (kind_byte bytes.now ≡ plan_code k)) }
{
    match bytes.first()? {
        0 => Some(PlanKind::Hammersley),
        1 => Some(PlanKind::Sobol),
        2 => Some(PlanKind::Points),
        _ => None,
    }
}

fn level_of(bytes: &[u8]) -> Option<Level>
    ensures { MatchOption result ((2 ≤ length bytes.now) → (level_byte bytes.now ≤ 12) → ⊥)
        (λ l. (2 ≤ length bytes.now) × (l.m ≡ level_byte bytes.now)) }
{
    let level = bytes.get(1)?;
    Level::try_from(u32::from(*level)).ok()
}

// What the audit finds of the places of a section that starts at this byte of the file.
fn audit_at(start: u16, places: PlaceBytes<'_>) -> Result<NetBytes<'_>, PointsAt>
    ensures { MatchResult result (IsNetAt places.entry) (IsNoNetAt start places.entry) }
{
    places.audit().map_err(|fault| PointsAt { start, fault })
}

// The bytes of the places.
fn past_head(bytes: &[u8]) -> &[u8]
    requires { 2 ≤ length bytes.now }
    ensures { result.now ≡ drop 2 bytes.now }
{
    &bytes[HEAD..]
}
