//! A text that is refused, and what is told of the refused line beside its number.

ghost use Rattle.std.specs.Prelude.{◌≡◌, ◌-◌, ◌≤◌, ℕ, IfNone, IfSome};
ghost use Rattle.dvg_cert.specs.declared.limits.TheConstants.{MOST_ENTRIES};
ghost use Rattle.dvg_text.specs.Grammar.{done_line};

use crate::leaving::{FormLeaving, first_leaving, later_leaving, rom_leaving};
use crate::line::count_of;
use crate::line_buffer::LineBuffer;
use crate::taken::{Stage, TakenLines, heading};
use dvg_cert::{CertFault, CertWhy};
use dvg_words::{ASTEROIDS, RomMap};
use std::marker::Model;

/// What is told of a refused line beside its number.
#[derive(Clone, Copy, Debug, PartialEq, Eq)]
pub enum LineWhy {
    /// Where it leaves the form.
    Form(FormLeaving),
    /// How many entries it says, and how many there are.
    Count(EntryCounts),
}

/// How many entries the last line says, and how many stand before it.
#[derive(Clone, Copy, Debug, PartialEq, Eq)]
pub struct EntryCounts {
    pub claimed: u16,
    pub found: u32,
}

/// The counts of a last line with this number, which comes without its end, and before whose entries so many lines stand. `None` if
/// it is no such line: one that says at most 4,096 entries.
pub fn counts_of(line: &[u8], number: u32, before: u32) -> Option<EntryCounts>
    ensures claimed { IfSome result (λ counts. (counts.claimed ≤ MOST_ENTRIES) × (line.now ≡ done_line counts.claimed)) }
    ensures none { IfNone result ((n : ℕ) → n ≤ MOST_ENTRIES → line.now ≡ done_line n → ⊥) }
    ensures found { IfSome result (λ counts. counts.found ≡ number - before - 1) }
{
    let claimed = count_of(line)?;
    let found = number.saturating_sub(before).saturating_sub(1);
    Some(EntryCounts { claimed, found })
}

/// A text that is refused, with the refused line and what came before it, which an account of the refusal tells of.
///
/// Contracts see it as the refusal.
#[derive(Drop)]
pub struct RefusedText {
    fault: CertFault,
    /// The refused line, if one was read to its end.
    line: LineBuffer,
    /// Which line came next, and over which map.
    stage: Stage,
    map: RomMap,
}

impl Model for RefusedText {
    ghost use Rattle.dvg_cert.specs.declared.fault.CertFault.{CertFault as Fault};

    ghost Value = { Fault };

    ghost view = { λ s. s.fault };
}

impl RefusedText {
    /// A text that is refused at this line, after these.
    pub(crate) fn at(fault: CertFault, line: LineBuffer, lines: &TakenLines) -> RefusedText
        ensures { result ≡ fault }
    {
        RefusedText {
            fault,
            line,
            stage: lines.stage(),
            map: lines.map(),
        }
    }

    /// A text that is refused for its end.
    pub fn unended(fault: CertFault) -> RefusedText
        ensures { result ≡ fault }
    {
        RefusedText {
            fault,
            line: LineBuffer::new(),
            stage: Stage::Ended,
            map: ASTEROIDS,
        }
    }

    /// The refusal.
    pub fn fault(&self) -> CertFault
        ensures { result ≡ self.now }
    {
        self.fault
    }

    /// What is told of the refused line beside its number, if anything is (only tested).
    pub fn why(&self) -> Option<LineWhy> {
        let line = self.line.as_slice();
        let leaving = match (self.fault.why, self.stage) {
            (CertWhy::Count, _) => {
                return counts_of(line, self.fault.line, heading(self.map)).map(LineWhy::Count);
            }
            (CertWhy::Form, Stage::First) => first_leaving(line),
            (CertWhy::Form, Stage::Rom) => rom_leaving(line),
            (CertWhy::Form, Stage::Later) => later_leaving(self.map, line),
            _ => return None,
        };
        Some(LineWhy::Form(leaving))
    }
}
