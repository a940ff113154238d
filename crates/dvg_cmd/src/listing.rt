//! What a run writes of several frames.

ghost use Rattle.std.specs.Prelude.{◌≡◌};
ghost use Rattle.dvg_cmd.specs.Telling.{is_written, layout_of};

use dvg_spelling::Outcome;

/// Which frames have a line.
#[derive(Clone, Copy, Debug, PartialEq, Eq)]
pub enum Lines {
    /// Each.
    All,
    /// Each that is not accepted.
    NotAccepted,
}

impl Lines {
    /// Whether a line of this outcome is written.
    pub fn has(self, outcome: Outcome) -> bool
        ensures { result ≡ is_written self outcome }
    {
        match (self, outcome) {
            (Lines::NotAccepted, Outcome::Accepted) => false,
            (Lines::NotAccepted, Outcome::Refused | Outcome::NoMemory | Outcome::Unread)
            | (Lines::All, _) => true,
        }
    }
}

/// What a run writes of several frames.
#[derive(Clone, Copy)]
pub struct Listing<D> {
    /// What is written of a frame.
    pub detail: D,
    /// Which frames have a line.
    pub lines: Lines,
    /// Whether a last line says how many frames were accepted, refused by each number, not to be read, and out of memory, whether
    /// they have a line or not. Before it: where lines tell clocks, three lines name the accepted frames that take most; with remarks, a
    /// line counts them; with accounts, lines count the refused frames by the shapes that they call.
    pub summary: bool,
}

impl<D> Listing<D> {
    /// How it is written, with a blank line before each account or without.
    pub fn layout(&self, apart: bool) -> Layout
        ensures { result ≡ layout_of self.now apart }
    {
        Layout {
            lines: self.lines,
            apart,
            summary: self.summary,
        }
    }
}

/// Which lines a run over several things writes, and how.
#[derive(Clone, Copy)]
pub struct Layout {
    /// Which things have a line.
    pub lines: Lines,
    /// Whether a blank line sets what is written of a thing, or behind them, apart from what was written before.
    pub apart: bool,
    /// Whether a summary is behind all lines.
    pub summary: bool,
}
