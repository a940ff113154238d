//! The law of the verdict, proved over the definitions alone.

ghost use Rattle.dvg_verdict.specs.Laws.{OneVerdict};

use dvg_text::laws::{one_answer, one_certificate};

/// There is one verdict at most, running out of memory aside.
pub fn one_verdict()
    ensures { OneVerdict }
{
    one_certificate();
    one_answer();
}
