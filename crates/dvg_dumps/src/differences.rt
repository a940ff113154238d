//! Whether two dumps are equal, and in how much they differ.

ghost use Rattle.std.specs.Prelude.{◌≡◌, ◌↔◌, ◌≤◌, None, length, IfSome};
ghost use Rattle.dvg_dumps.specs.Differences.{counted};
ghost use Rattle.dvg_dumps.specs.declared.measuring.TheConstants.{MOST_BYTES};

use crate::measuring::{Measure, count};

/// In how much the fronts of two dumps differ.
#[derive(Clone, Copy, Debug, PartialEq, Eq)]
pub struct Differences {
    pub bytes: u32,
    /// The last word may be a byte alone.
    pub words: u32,
    pub bits: u32,
}

/// In how much the fronts of two dumps differ; `None` if the dumps are equal.
pub fn differences_of(good: &[u8], other: &[u8]) -> Option<Differences>
    requires { length good.now ≤ MOST_BYTES }
    ensures equal { (result ≡ None) ↔ (good.now ≡ other.now) }
    ensures counts { IfSome result (λ differences. differences ≡ counted good.now other.now) }
{
    if good == other {
        return None;
    }
    Some(Differences {
        bytes: count(Measure::Bytes, good, other),
        words: count(Measure::Words, good, other),
        bits: count(Measure::Bits, good, other),
    })
}
