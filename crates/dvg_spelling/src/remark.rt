//! The kinds of remarks on accepted frames, how many there are of each, and the line that tells it.

ghost use Rattle.std.specs.Prelude.{◌≡◌};
ghost use Rattle.dvg_spelling.specs.Remarks.{no_remarks, remarks_text, with_kind};

use crate::tally::{Summary, count, push_count};
use dvg_text::push_bytes;

/// What a remark on an accepted frame is about (docs/RUNNING.md). It is no refusal.
#[derive(Clone, Copy, Debug, PartialEq, Eq, PartialOrd, Ord)]
pub enum RemarkKind {
    /// A shape runs on into a word at which something else begins.
    RunsOn,
    /// A call leads into the middle of what a label names.
    BesideLabel,
    /// A lit draw has an effective scale of 10 to 15, and lights a dot.
    ScaleOver9,
    /// A called shape, or what follows a LABS, lights nothing.
    NothingLit,
    /// Word 000 is no jump, and another list begins behind the HALT.
    NoJump,
    /// A LABS stands right before another one.
    IdleLabs,
}

impl RemarkKind {
    /// The word for it in a remark's line.
    pub fn word(self) -> &'static str {
        match self {
            RemarkKind::RunsOn => "runs-on",
            RemarkKind::BesideLabel => "beside-label",
            RemarkKind::ScaleOver9 => "scale-over-9",
            RemarkKind::NothingLit => "nothing-lit",
            RemarkKind::NoJump => "no-jump",
            RemarkKind::IdleLabs => "idle-labs",
        }
    }
}

/// How many remarks there are of each kind. Each count stops at 4,294,967,295.
#[derive(Clone, Copy, Debug, PartialEq, Eq)]
pub struct RemarkTally {
    pub runs_on: u32,
    pub beside_label: u32,
    pub scale_over_9: u32,
    pub nothing_lit: u32,
    pub no_jump: u32,
    pub idle_labs: u32,
}

impl RemarkTally {
    /// The tally of no remark.
    pub fn new() -> RemarkTally
        ensures { result ≡ no_remarks }
    {
        RemarkTally {
            runs_on: 0,
            beside_label: 0,
            scale_over_9: 0,
            nothing_lit: 0,
            no_jump: 0,
            idle_labs: 0,
        }
    }

    /// Counts a remark of this kind.
    pub fn add(&mut self, kind: RemarkKind)
        ensures { self.new ≡ with_kind kind self.old }
    {
        match kind {
            RemarkKind::RunsOn => count(&mut self.runs_on),
            RemarkKind::BesideLabel => count(&mut self.beside_label),
            RemarkKind::ScaleOver9 => count(&mut self.scale_over_9),
            RemarkKind::NothingLit => count(&mut self.nothing_lit),
            RemarkKind::NoJump => count(&mut self.no_jump),
            RemarkKind::IdleLabs => count(&mut self.idle_labs),
        }
    }
}

/// The line that tells a tally of remarks, with its LF. Takes no memory.
pub fn remarks_line_of(tally: &RemarkTally) -> Summary
    ensures { result.items ≡ remarks_text tally.now }
{
    let mut line = Summary::new();
    push_count(&mut line, b"remark-runs-on=", tally.runs_on);
    push_count(&mut line, b" remark-beside-label=", tally.beside_label);
    push_count(&mut line, b" remark-scale-over-9=", tally.scale_over_9);
    push_count(&mut line, b" remark-nothing-lit=", tally.nothing_lit);
    push_count(&mut line, b" remark-no-jump=", tally.no_jump);
    push_count(&mut line, b" remark-idle-labs=", tally.idle_labs);
    push_bytes(&mut line, b"\n");
    line
}
