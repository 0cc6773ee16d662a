//! Lines to commands.
ghost use Rattle.std.specs.Prelude.{◌≡◌, ◌≢◌, IfOk, MatchResult};
ghost use Rattle.maps.specs.Kinds.{kind_of};
ghost use Rattle.gauge.specs.Commands.{verb_of, word_of};
ghost use Rattle.gauge.specs.Kinds.{IsOf};

use crate::unreadable::Unreadable;
use maps::{Map, MapKind};
use pages::{PageFault, PagePlan, PlanPage, read_map, read_number, read_plan};
use plans::PlanKind;
use std::rt::Files;
use survey::Call;

/// The first word of a line.
#[derive(Clone, Copy, Debug, PartialEq, Eq)]
pub enum Verb {
    /// `open`: the plan of the opening.
    Open,
    /// `map`: the map of the opening, or a map page.
    Map,
    /// `take`
    Take,
    /// `report`
    Report,
    /// `limit`
    Limit,
    /// `begin`: a plan page.
    Begin,
    /// `commit`
    Commit,
    /// `abandon`
    Abandon,
}

impl Verb {
    pub(crate) fn read(word: &str) -> Result<Verb, Unreadable>
        ensures { MatchResult result (λ v. word.now ≡ word_of v) (λ e. e ≡ Unreadable.Unknown) }
    {
        match word {
            "open" => Ok(Verb::Open),
            "map" => Ok(Verb::Map),
            "take" => Ok(Verb::Take),
            "report" => Ok(Verb::Report),
            "limit" => Ok(Verb::Limit),
            "begin" => Ok(Verb::Begin),
            "commit" => Ok(Verb::Commit),
            "abandon" => Ok(Verb::Abandon),
            _ => Err(Unreadable::Unknown),
        }
    }
}

/// The kinds of the opening, which later pages keep.
#[derive(Clone, Copy, Debug)]
pub struct Kinds {
    /// The kind of the plan below its layers.
    pub plan: PlanKind,
    /// The kind of the map.
    pub map: MapKind,
}

impl Kinds {
    // The call that a verb and the words after it make, once a recipe is open.
    pub(crate) fn read_call<R: Files + AllocGlobal>(
        self,
        rt: &R,
        verb: Verb,
        words: &[&str],
    ) -> Result<Call<PagePlan, Map>, Unreadable>
        ensures kinds { IfOk result (IsOf self) }
        ensures verb { IfOk result (λ call. verb ≡ verb_of call) }
    {
        match (verb, words) {
            (Verb::Open, _) => Err(Unreadable::Open),
            (Verb::Map, _) => self.map_page(read_map(rt, words)?),
            (Verb::Begin, _) => self.plan_page(read_plan(rt, words)?),
            (Verb::Take, [count]) => Ok(Call::Take(read_number(count)?)),
            (Verb::Limit, [limit]) => Ok(Call::Limit(read_number(limit)?)),
            (Verb::Report, []) => Ok(Call::Report),
            (Verb::Commit, []) => Ok(Call::Commit),
            (Verb::Abandon, []) => Ok(Call::Abandon),
            _ => Err(PageFault::Words.into()),
        }
    }

    // The call that hands a plan page over.
    fn plan_page(self, page: PlanPage) -> Result<Call<PagePlan, Map>, Unreadable>
        ensures { MatchResult result (λ call. (call ≡ Call.Begin page.plan) × IsOf self call)
            (λ e. (e ≡ Unreadable.PlanKind) × (page.kind ≢ self.plan)) }
    {
        if page.kind != self.plan {
            return Err(Unreadable::PlanKind);
        }
        Ok(Call::Begin(page.plan))
    }

    // The call that hands a map page over.
    fn map_page(self, map: Map) -> Result<Call<PagePlan, Map>, Unreadable>
        ensures { MatchResult result (λ call. (call ≡ Call.MapPage map) × IsOf self call)
            (λ e. (e ≡ Unreadable.MapKind) × (kind_of map ≢ self.map)) }
    {
        if map.kind() != self.map {
            return Err(Unreadable::MapKind);
        }
        Ok(Call::MapPage(map))
    }
}
