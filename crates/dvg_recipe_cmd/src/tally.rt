//! Counts the lines of frames by what they say of a recipe, and spells the line with these counts.

ghost use Rattle.std.specs.Prelude.{◌≡◌, ◌∷◌, []};
ghost use Rattle.dvg_recipe_cmd.specs.Answers.{belongs_summary_text, with_membership};

use crate::membership::Membership;
use dvg_cmd::Summary;
use dvg_spelling::{Summary as SummaryLine, count, push_count};
use dvg_text::{CountedWrite, WriteFault, push_bytes, write_lines};

/// How many frames belong to a recipe, how many don't, and how many could not be judged. Each count stops at 4,294,967,295.
#[derive(Clone, Copy, Debug, PartialEq, Eq)]
pub struct BelongsTally {
    /// How many frames belong.
    pub belongs: u32,
    /// How many frames are outside.
    pub outside: u32,
    /// How many frames have a wrong length, which is 2.
    pub refused: u32,
    /// How many frames could not be opened or read.
    pub unread: u32,
    /// How often memory was out.
    pub no_memory: u32,
}

impl BelongsTally {
    /// The tally of no line.
    pub fn new() -> BelongsTally
        ensures { result ≡ record { belongs = 0; outside = 0; refused = 0; unread = 0; no_memory = 0 } }
    {
        BelongsTally {
            belongs: 0,
            outside: 0,
            refused: 0,
            unread: 0,
            no_memory: 0,
        }
    }

    /// Counts the line of this answer.
    pub fn add(&mut self, membership: Membership)
        ensures { self.new ≡ with_membership self.old membership }
    {
        match membership {
            Membership::Belongs => count(&mut self.belongs),
            Membership::Outside { .. } => count(&mut self.outside),
            Membership::WrongLength => count(&mut self.refused),
            Membership::NoMemory => count(&mut self.no_memory),
            Membership::Unread => count(&mut self.unread),
        }
    }
}

/// The line that tells a tally, with its LF. Takes no memory.
pub fn belongs_summary_of(tally: &BelongsTally) -> SummaryLine
    ensures { result.items ≡ belongs_summary_text tally.now }
{
    let mut line = SummaryLine::new();
    push_count(&mut line, b"belongs=", tally.belongs);
    push_count(&mut line, b" outside=", tally.outside);
    push_count(&mut line, b" refused-2=", tally.refused);
    push_count(&mut line, b" unreadable=", tally.unread);
    push_count(&mut line, b" out-of-memory=", tally.no_memory);
    push_bytes(&mut line, b"\n");
    line
}

impl Summary for BelongsTally {
    ghost texts = { λ tally. belongs_summary_text tally ∷ [] };

    fn write<W: CountedWrite>(&self, out: &mut W) -> Result<(), WriteFault> {
        let line = belongs_summary_of(self);
        write_lines(line.as_slice(), &[], &[], out)
    }
}
