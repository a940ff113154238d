//! What runs reported.

ghost use Rattle.std.specs.Prelude.{◌≡◌};
ghost use Rattle.dvg_spelling.specs.Outcomes.{outcome_of, worse};

use dvg_cert::CertWhy;
use dvg_check::{Refusal, Yes};

/// What was reported, of one thing or of several: the worst, in this order.
#[derive(Clone, Copy, Debug, PartialEq, Eq, PartialOrd, Ord)]
pub enum Outcome {
    /// An accepted line.
    Accepted,
    /// A refusal.
    Refused,
    /// That memory was out. So it is with a refusal because memory ran out for the certificate's entries, 16, or for their index, 50.
    NoMemory,
    /// That a frame or a recipe could not be read: the report of a run over several alone.
    Unread,
}

impl Outcome {
    /// The worse of two outcomes.
    pub fn or_worse(self, other: Outcome) -> Outcome
        ensures { result ≡ worse self other }
    {
        self.max(other)
    }
}

/// What was reported by the line of a verdict.
pub fn outcome_of(verdict: &Result<Yes, Refusal>) -> Outcome
    ensures { result ≡ outcome_of verdict.now }
{
    match verdict {
        Ok(_) => Outcome::Accepted,
        Err(Refusal::Cert(fault)) if fault.why == CertWhy::Memory => Outcome::NoMemory,
        Err(Refusal::IndexMemory) => Outcome::NoMemory,
        Err(_) => Outcome::Refused,
    }
}
