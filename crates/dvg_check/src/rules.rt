//! What is asked of items.

ghost use Rattle.std.specs.Prelude.{◌≡◌, ◌<◌, ◌≤◌, ℕ, IfSome, IfNone};
ghost use Rattle.dvg_cert.specs.declared.entry.Key.{Key};
ghost use Rattle.dvg_cert.specs.Entry.{IsKey};
ghost use Rattle.dvg_cert.specs.declared.limits.TheConstants.{MOST_WORDS};
ghost use Rattle.dvg_items.specs.declared.item.Kind.{Kind};
ghost use Rattle.dvg_items.specs.declared.seen.Seen.{Seen};
ghost use Rattle.dvg_items.specs.Bounds.{IsSoundSeen};

use dvg_cert::Key;
use dvg_items::{Kind, Seen};

/// What is asked of the items of a shape or of a frame.
pub trait Rules {
    /// The rules, each with a number of its own.
    type Why: Drop;

    ghost order: { Self.Why → ℕ };

    /// The limits that these rules are within.
    ghost valid: { Self → Type 0 };

    /// Whose items they are.
    const KIND: Kind;

    ghost KIND: { Kind };

    ghost scale: { Self → Key };

    /// The rule that a missing item breaks.
    const UNMAPPED: Self::Why;

    ghost UNMAPPED: { Self.Why };

    /// The rule that an odd LABS breaks.
    const ODD: Self::Why;

    ghost ODD: { Self.Why };

    /// What an item keeps.
    ghost keeps: { Self → Seen → Self.Why → Type 0 };

    /// The known scale at the start, `Any` where it is unknown.
    fn scale(&self) -> Key
        requires { valid self.now }
        ensures value { result ≡ scale self.now }
        ensures key { IsKey result };

    /// The first rule that an item breaks. Where it breaks none, the words past it are 1,000,000 at most.
    fn first_broken(&self, seen: &Seen) -> Option<Self::Why>
        requires valid { valid self.now }
        requires seen { IsSoundSeen seen.now }
        ensures kept { IfNone result ((why : Self.Why) → keeps self.now seen.now why) }
        ensures few { IfNone result (seen.now.after.words ≤ MOST_WORDS) }
        ensures broken { IfSome result (λ why. keeps self.now seen.now why → ⊥) }
        ensures lowest { IfSome result (λ why. (other : Self.Why) → order other < order why → keeps self.now seen.now other) };
}
