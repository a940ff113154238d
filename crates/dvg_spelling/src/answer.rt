//! What the line of a frame or of a recipe says.

ghost use Rattle.std.specs.Prelude.{◌≡◌, ◌≤◌, ◌++◌, ℕ, List, length};
ghost use Rattle.dvg_spelling.specs.Outcomes.{answer_outcome, frame_refusal_outcome};
ghost use Rattle.dvg_spelling.specs.Report.{answer_text, frame_refusal_text, line_text};
ghost use Rattle.dvg_spelling.specs.declared.outcome.Outcome.{Outcome as OutcomeValue};

use crate::outcome::Outcome;
use crate::report::{Report, push_refusal};
use dvg_check::{Refusal, Yes};
use dvg_clocks::TimedYes;
use dvg_make::{EntryFault, FrameRefusal};

/// Where an item stands.
#[derive(Clone, Copy, Debug, PartialEq, Eq)]
pub enum ItemPlace {
    /// In a frame, at this word address.
    Frame(u16),
    /// In this line of a recipe, counted from 1.
    RecipeLine(u32),
}

/// What a line says of a frame or of a recipe, which may be refused so.
#[derive(Clone, Copy, Debug, PartialEq, Eq)]
pub enum Answer<R> {
    /// Its verdict.
    Judged(Result<Yes, R>),
    /// It is accepted, and takes so many clocks.
    Timed(TimedYes),
    /// 58: it keeps all rules, but with this item it may take more clocks than the limit.
    Slow(ItemPlace),
    /// It could not be opened or read.
    Unread,
    /// There was no memory to read it.
    NoMemory,
}

/// What a line says of a frame.
pub type FrameAnswer = Answer<FrameRefusal>;

/// Why a frame or a recipe is refused, for its line.
pub trait Why {
    /// What the line says of it.
    ghost text: { Self → List ℕ };

    /// What that comes to.
    ghost outcome: { Self → OutcomeValue };

    /// Puts what the line says of it behind a line.
    fn push_to(&self, line: &mut Report)
        requires { length line.old ≤ 2 }
        ensures text { line.new ≡ line.old ++ text self.now }
        ensures short { length line.new ≤ 95 };

    /// What was reported by its line.
    fn outcome(&self) -> Outcome
        ensures { result ≡ outcome self.now };
}

impl<R: Why> Answer<R> {
    /// What was reported by the line.
    pub fn outcome(&self) -> Outcome
        ensures { result ≡ answer_outcome R.outcome self.now }
    {
        match self {
            Answer::Judged(Ok(_)) | Answer::Timed(_) => Outcome::Accepted,
            Answer::Judged(Err(why)) => why.outcome(),
            Answer::Slow(_) => Outcome::Refused,
            Answer::Unread => Outcome::Unread,
            Answer::NoMemory => Outcome::NoMemory,
        }
    }

    /// Puts what the line says behind a line.
    pub fn push_to(&self, line: &mut Report)
        requires { length line.old ≤ 2 }
        ensures text { line.new ≡ line.old ++ answer_text R.text self.now }
        ensures short { length line.new ≤ 95 }
    {
        match self {
            Answer::Judged(Ok(yes)) => line.push_accepted(yes),
            Answer::Judged(Err(why)) => why.push_to(line),
            Answer::Timed(timed) => {
                line.push_accepted(&timed.yes);
                line.push_clocks(&timed.clocks);
            }
            Answer::Slow(place) => line.push_refused_at(58, *place),
            Answer::Unread => line.push(b"cannot read"),
            Answer::NoMemory => line.push(b"out of memory"),
        }
    }

    /// The line, from behind the name on, with its LF: 96 bytes at most. Takes no memory.
    pub fn line(&self) -> Report
        ensures text { result ≡ line_text R.text self.now }
        ensures short { length result ≤ 96 }
    {
        let mut line = Report::new();
        line.push(b": ");
        self.push_to(&mut line);
        line.ended()
    }
}

impl Why for FrameRefusal {
    ghost text = { λ refusal. frame_refusal_text refusal };

    ghost outcome = { λ refusal. frame_refusal_outcome refusal };

    fn push_to(&self, line: &mut Report) {
        match self {
            FrameRefusal::Make { at, why } => line.push_unmade(*why, ItemPlace::Frame(*at)),
            FrameRefusal::NoMemory => line.push(b"out of memory"),
            FrameRefusal::Check(Refusal::IndexMemory) => line.push(b"out of memory"),
            FrameRefusal::Check(refusal) => push_refusal(line, refusal),
        }
    }

    fn outcome(&self) -> Outcome {
        match self {
            FrameRefusal::NoMemory => Outcome::NoMemory,
            FrameRefusal::Make {
                why: EntryFault::Memory,
                ..
            } => Outcome::NoMemory,
            FrameRefusal::Check(Refusal::IndexMemory) => Outcome::NoMemory,
            FrameRefusal::Make { .. } | FrameRefusal::Check(_) => Outcome::Refused,
        }
    }
}
