//! A session, line by line: the opening, and then the calls of a gauge.
ghost use Rattle.std.specs.Prelude.{◌≡◌, IfOk, Some, None};
ghost use Rattle.gauge.specs.Commands.{verb_of};
ghost use Rattle.gauge.specs.Kinds.{IsOf};
ghost use Rattle.gauge.specs.Sessions.{Answers, Hears, IsOpened, Obeys};

use crate::commands::{Kinds, Verb};
use crate::lines::Line;
use crate::reply::Reply;
use crate::unreadable::Unreadable;
use hosts::Keeper;
use maps::Map;
use pages::{PageFault, PagePlan, PlanPage, read_map, read_plan};
use std::alloc::{AllocError, Global};
use std::rt::Files;
use survey::Call;

/// How far the opening came, and then the gauge.
#[derive(Drop)]
pub enum Session {
    /// Nothing is open.
    New,
    /// The opening has its plan.
    Planned(PlanPage),
    /// A recipe is open, with the kinds of its pages.
    Open(Kinds, Keeper<PagePlan, Map>),
}

/// The session after a line, and what the line is answered, if anything.
#[derive(Drop)]
pub struct Heard {
    /// The session after the line.
    pub session: Session,
    /// The answer.
    pub reply: Option<Reply>,
}

/// The session after a command, and what the command is answered or why it makes no call.
#[derive(Drop)]
pub struct Obeyed {
    /// The session after the command.
    pub session: Session,
    /// The answer.
    pub outcome: Result<Reply, Unreadable>,
}

impl Session {
    // Answers the line of a number. Want of memory ends the run.
    pub(crate) fn hear<R: Files + AllocGlobal>(
        self,
        rt: &R,
        number: u64,
        line: Line<'_>,
    ) -> Result<Heard, AllocError>
        ensures session { IfOk result (λ h. Hears number self h.reply h.session) }
        ensures answer { IfOk result (λ h. Answers number line.entry h.reply) }
    {
        match line {
            Line::Passed => Ok(Heard::passed(self)),
            Line::TooLong => Ok(Heard::wrong(self, number, Unreadable::TooLong)),
            Line::NotText => Ok(Heard::wrong(self, number, Unreadable::Page(PageFault::Words))),
            Line::Text(text) => self.hear_text(rt, number, text),
        }
    }

    fn hear_text<R: Files + AllocGlobal>(
        self,
        rt: &R,
        number: u64,
        text: &str,
    ) -> Result<Heard, AllocError>
        ensures { IfOk result (λ h. Hears number self h.reply h.session) }
    {
        let words = words_of(rt.alloc(), text)?;
        match words.as_slice() {
            [] => Ok(Heard::passed(self)),
            [word, words @ ..] => match Verb::read(word) {
                Ok(verb) => self.carry_out(rt, verb, words).reply(number),
                Err(fault) => Ok(Heard::wrong(self, number, fault)),
            },
        }
    }

    // Carries out a command.
    fn carry_out<R: Files + AllocGlobal>(self, rt: &R, verb: Verb, words: &[&str]) -> Obeyed
        ensures { Obeys verb self result }
    {
        match (self, verb) {
            (Session::New, Verb::Open) => match read_plan(rt, words) {
                Ok(page) => Obeyed::new(Session::Planned(page), Reply::Plan),
                Err(fault) => Session::New.refuse(fault.into()),
            },
            (Session::Planned(page), Verb::Map) => match read_map(rt, words) {
                Ok(map) => Obeyed::new(Session::open(page, map), Reply::Opened),
                Err(fault) => Session::Planned(page).refuse(fault.into()),
            },
            (Session::Planned(page), Verb::Open) => Session::Planned(page).refuse(Unreadable::Open),
            (Session::Open(kinds, keeper), verb) => match kinds.read_call(rt, verb, words) {
                Ok(call) => Obeyed::ask(kinds, keeper, call),
                Err(fault) => Session::Open(kinds, keeper).refuse(fault),
            },
            (session, _) => session.refuse(Unreadable::NotOpen),
        }
    }

    // A command that makes no call.
    fn refuse(self, fault: Unreadable) -> Obeyed
        ensures { result ≡ record { session = self; outcome = Err fault } }
    {
        Obeyed {
            session: self,
            outcome: Err(fault),
        }
    }

    // Opens a survey.
    fn open(page: PlanPage, map: Map) -> Session
        ensures { IsOpened (Session.Planned page) result }
    {
        let kinds = Kinds {
            plan: page.kind,
            map: map.kind(),
        };
        Session::Open(kinds, Keeper::open(page.plan, map))
    }
}

impl Heard {
    // A line with no answer.
    fn passed(session: Session) -> Heard
        ensures { result ≡ record { session = session; reply = None } }
    {
        Heard {
            session,
            reply: None,
        }
    }

    // A line that makes no call.
    fn wrong(session: Session, number: u64, fault: Unreadable) -> Heard
        ensures { result ≡ record { session = session; reply = Some (Reply.Wrong number fault) } }
    {
        Heard {
            session,
            reply: Some(Reply::Wrong(number, fault)),
        }
    }
}

impl Obeyed {
    fn new(session: Session, reply: Reply) -> Obeyed
        ensures { result ≡ record { session = session; outcome = Ok reply } }
    {
        Obeyed {
            session,
            outcome: Ok(reply),
        }
    }

    // Asks the gauge a call of the kinds that were opened.
    #[tactic(auto, using(crate::proofs::Asked::asked))]
    fn ask(kinds: Kinds, keeper: Keeper<PagePlan, Map>, call: Call<PagePlan, Map>) -> Obeyed
        ensures { (v : Verb) → v ≡ verb_of call → IsOf kinds call
            → Obeys v (Session.Open kinds keeper) result }
    {
        let (keeper, answer) = keeper.ask(call);
        Obeyed::new(Session::Open(kinds, keeper), answer.into())
    }

    // What the line of a number is answered. Want of memory ends the run.
    #[tactic(auto, using(crate::proofs::Asked::told))]
    fn reply(self, number: u64) -> Result<Heard, AllocError>
        ensures { IfOk result (λ h. (v : Verb) (old : Session) → Obeys v old self → Hears number old h.reply h.session) }
    {
        let Obeyed { session, outcome } = self;
        match outcome {
            Ok(reply) => Ok(Heard {
                session,
                reply: Some(reply),
            }),
            Err(Unreadable::Page(PageFault::Memory)) => Err(AllocError),
            Err(fault) => Ok(Heard::wrong(session, number, fault)),
        }
    }
}

// The words of a line. A line of spaces has none.
fn words_of(heap: Global, text: &str) -> Result<Vec<&str>, AllocError> {
    text.split(' ')
        .filter(|word| !word.is_empty())
        .collect(heap)
}
