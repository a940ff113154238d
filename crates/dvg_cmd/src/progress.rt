//! How far a run over several things has come, and the lines that it writes.

ghost use Rattle.std.specs.Prelude.{◌≡◌, ◌<◌, ◌++◌, length, false};
ghost use Rattle.dvg_spelling.specs.declared.outcome.Outcome.TheVariants.{Accepted};
ghost use Rattle.dvg_cmd.specs.Sent.{Writes};
ghost use Rattle.dvg_cmd.specs.Telling.{blank_line, gone, told};

use crate::listing::Layout;
use dvg_spelling::Outcome;
use dvg_text::{CountedWrite, WriteFault, write_lines};

/// How far a run over several things has come, and how it writes their lines.
#[derive(Drop)]
pub struct Progress<T> {
    pub layout: Layout,
    /// What is counted of the lines, written or not.
    pub tally: T,
    /// The worst outcome.
    pub worst: Outcome,
    /// Whether a line was written.
    pub written: bool,
}

impl<T> Progress<T> {
    /// Before the first line, with the tally of none.
    pub fn new(layout: Layout, none: T) -> Progress<T>
        ensures { result ≡ record { layout = layout; tally = none; worst = Accepted; written = false } }
    {
        Progress {
            layout,
            tally: none,
            worst: Outcome::Accepted,
            written: false,
        }
    }

    /// Writes the blank line that sets an account apart from what was written before, if there is one.
    pub fn write_apart<W: CountedWrite>(&self, out: &mut W) -> Result<(), WriteFault>
        ensures { Writes W.contents W.whole_writes W.failures out.old out.new result (blank_line self.now.layout.apart self.now.written) }
    {
        if self.layout.apart && self.written {
            write_lines(b"\n", &[], &[], out)
        } else {
            Ok(())
        }
    }

    /// Writes a line of this outcome, with the name before it and the text behind it, if such lines are written.
    pub fn write_line<W: CountedWrite>(
        &self,
        outcome: Outcome,
        name: &str,
        line: &[u8],
        text: &str,
        out: &mut W,
    ) -> Result<(), WriteFault>
        requires { 0 < length line.now }
        ensures { Writes W.contents W.whole_writes W.failures out.old out.new result
            (told self.now outcome (name.now ++ line.now ++ text.now)) }
    {
        if !self.layout.lines.has(outcome) {
            return Ok(());
        }
        self.write_apart(out)?;
        write_lines(name.as_bytes(), line, text.as_bytes(), out)
    }

    /// Takes in a line of this outcome, which was written if such lines are.
    pub fn add(&mut self, outcome: Outcome)
        ensures { self.new ≡ gone self.old outcome self.old.tally }
    {
        self.worst = self.worst.or_worse(outcome);
        if self.layout.lines.has(outcome) {
            self.written = true;
        }
    }
}
