//! The audit: a net is accepted, and any other list is refused.
ghost use Rattle.std.specs.Prelude.{◌≡◌, ℕ, ◌+◌, ◌*◌, ◌^◌, ◌≤◌, Ok, MatchOption};
ghost use Rattle.nets.specs.Places.{IsNet};
ghost use Rattle.audit.specs.Audits.{IsNoLevel, Audits, Judges};

use crate::examination::{Examination, MOST};
use crate::faults::{AuditFault, NotNet};
use nets::{Level, Net, Place};

/// Audits a list of places, and answers how many intervals were examined: (m + 1)·2^m for a net of level m.
///
/// # Errors
/// 12 for a length that is no level's, and 13 for a list that is no net.
pub fn audit(places: &[Place]) -> Result<u32, AuditFault>
    ensures cases { Audits places.now result }
    ensures accepts { (m : ℕ) → IsNet m places.now → result ≡ Ok ((m + 1) * 2 ^ m) }
{
    let level = level_of(places.len(), 1).ok_or(AuditFault::Length(places.len()))?;
    let examination = Examination {
        level,
        source: places,
    };
    Ok(examination.run()?)
}

/// Audits a plan, and answers how many intervals were examined. Each place is asked of the plan once, and
/// kept on the stack, so that no memory is needed.
///
/// # Errors
/// 13 for a plan that is no net, of which there is none.
#[tactic(auto, using(crate::proofs::Accepts::net_judged, crate::proofs::Asked::asked))]
pub fn audit_plan<P: Net>(plan: &P) -> Result<u32, NotNet>
    ensures cases { Judges (P.level plan.now) (P.places plan.now) result }
    ensures accepts { result ≡ Ok ((P.level plan.now + 1) * 2 ^ P.level plan.now) }
{
    plan.show_net();
    let level = plan.level();
    let mut places = [(0, 0); MOST];
    for i in 0..level.places() {
        places[i as usize] = plan.place(i).unwrap();
    }
    let examination = Examination {
        level,
        source: &places[..level.places() as usize],
    };
    examination.run()
}

// The level m at which 2^m places of this length each have this size.
pub(crate) fn level_of(size: usize, each: usize) -> Option<Level>
    requires { each ≤ 4 }
    ensures { MatchOption result (IsNoLevel each size) (λ level. size ≡ each * 2 ^ level.m) }
{
    for m in 0..=12 {
        if size == each << m {
            return Some(Level::try_from(m).unwrap());
        }
    }
    None
}
