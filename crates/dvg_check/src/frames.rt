//! The rules of frames.

ghost use Rattle.std.specs.Prelude.{◌≡◌, ◌≤◌, IfOk, IfErr, IfNone, IfSome, IsTrue, ◌↔◌};
ghost use Rattle.dvg_cert.specs.declared.entry.Key.TheVariants.{Any};
ghost use Rattle.dvg_cert.specs.declared.limits.TheConstants.{MOST_WORDS};
ghost use Rattle.dvg_items.specs.declared.item.Kind.TheVariants.{Frame};
ghost use Rattle.dvg_check.specs.Rules.{FrameWhy, FrameKeeps, IsForward, GoodFrame};
ghost use Rattle.dvg_check.specs.declared.fault.FrameWhy.TheVariants as frame;
ghost use Rattle.dvg_check.specs.FirstFault.{FrameFault, frame_number, FirstFrameFault};
ghost use Rattle.dvg_check.specs.Causes.{CauseOf};
ghost use Rattle.dvg_check.specs.Finding.{FirstFrameFound, IsSoundFound};
ghost use Rattle.dvg_items.specs.Bounds.{IsSoundSeen};
ghost use Rattle.dvg_check.specs.Private.Judging.{EachKept, frame_rules, FrameBrokenFirst};

use crate::cause::frame_cause;
use crate::fault::{FrameFault, FrameFinding, FrameWhy};
use crate::rules::Rules;
use crate::walk::walk;
use dvg_cert::{Cert, Entries, Key};
use dvg_items::{Item, Kind, Seen, has_callee, lit_in_window, place_known, scale_known, target};
use dvg_words::{FrameImage, FrameOn, Instr, Machine, RomImage, Window};

/// What is asked of a frame: how many words it may take at most, and in which window it may light.
#[derive(Drop)]
pub struct FrameRules {
    pub budget: u32,
    pub window: Window,
}

/// Whether an item is no jump to its own address or a lower one.
fn is_forward(item: &Item) -> bool
    ensures { IsTrue result ↔ IsForward item.now.at item.now.instr }
{
    match item.instr {
        Instr::Jmpl { to } => item.at < to,
        _ => true,
    }
}

/// The first rule that an item of a frame breaks.
#[inline(always)]
fn first_broken(budget: u32, window: &Window, seen: &Seen) -> Option<FrameWhy>
    requires { IsSoundSeen seen.now }
    ensures kept { IfNone result (EachKept (FrameKeeps window.now budget seen.now) frame_rules) }
    ensures broken { IfSome result (FrameBrokenFirst (FrameKeeps window.now budget seen.now)) }
{
    match seen.item.instr {
        Instr::Rtsl => Some(FrameWhy::ReturnInFrame),
        _ if !is_forward(&seen.item) => Some(FrameWhy::BackJump),
        _ if !place_known(&seen.extent, &seen.place) => Some(FrameWhy::BeamUnknown),
        _ if !scale_known(&seen.extent) => Some(FrameWhy::ScaleUnknown),
        _ if !lit_in_window(window, &seen.extent, &seen.place) => Some(FrameWhy::OffScreen),
        _ if !has_callee(target(Kind::Frame, &seen.item.instr), &seen.callee) => {
            Some(FrameWhy::NoEntry)
        }
        _ if seen.after.words > budget => Some(FrameWhy::Budget),
        _ => None,
    }
}

impl Rules for FrameRules {
    type Why = FrameWhy;

    ghost order = { frame_number };

    ghost valid = { λ r. r.budget ≤ MOST_WORDS };

    const KIND: Kind = Kind::Frame;

    ghost KIND = { Frame };

    ghost scale = { λ _. Any };

    const UNMAPPED: FrameWhy = FrameWhy::Unmapped;

    ghost UNMAPPED = { frame.Unmapped };

    const ODD: FrameWhy = FrameWhy::Odd;

    ghost ODD = { frame.Odd };

    ghost keeps = { λ r. FrameKeeps r.window r.budget };

    fn scale(&self) -> Key {
        Key::Any
    }

    #[inline(always)]
    fn first_broken(&self, seen: &Seen) -> Option<FrameWhy> {
        first_broken(self.budget, &self.window, seen)
    }
}

/// The counts of an accepted frame: the words that it fetches at most, and the return places that it stores at once at most.
#[derive(Clone, Copy, Debug, PartialEq, Eq)]
pub struct Accepted {
    pub words: u32,
    pub depth: u8,
}

/// Judges a frame by entries: its words and its depth where it keeps all rules, else its first fault, what is known there, and its
/// cause.
pub fn judge_frame<E: Entries>(
    machine: Machine,
    frame: &FrameImage,
    entries: &E,
    budget: u32,
    window: &Window,
) -> Result<Accepted, FrameFinding>
    requires budget { budget ≤ MOST_WORDS }
    ensures ok { IfOk result (λ yes. GoodFrame window.now machine frame.now (E.list entries.now) budget yes.words yes.depth) }
    ensures err { IfErr result (FirstFrameFound window.now machine frame.now (E.list entries.now) budget) }
    ensures sound { IfErr result (λ finding. IsSoundFound finding.found) }
    ensures cause { IfErr result (CauseOf window.now budget) }
{
    let rules = FrameRules {
        budget,
        window: *window,
    };
    match walk(&FrameOn::new(machine, frame), entries, &rules, 0) {
        Ok(end) => Ok(Accepted {
            words: end.words,
            depth: end.depth,
        }),
        Err(fault) => Err(FrameFinding {
            fault: FrameFault {
                word: fault.at,
                why: fault.why,
            },
            before: fault.before,
            found: fault.found,
            cause: frame_cause(&fault, &rules),
        }),
    }
}

/// Judges a frame by the entries of a certificate: its words and its depth where it keeps all rules, else its first fault.
///
/// `entries` are those of the certificate. `budget` is how many words the frame may take at most, up to 1,000,000, `window` where
/// strokes may be lit. On the profile a yes for `CLIPPED` says nothing of the screen. The ROM is the one over which the shapes were
/// accepted; no rule of a frame looks into it. The rules are 40 to 48 (profile). Takes no memory.
pub fn check_frame<E: Entries>(
    rom: &RomImage,
    frame: &FrameImage,
    cert: &Cert,
    entries: &E,
    budget: u32,
    window: &Window,
) -> Result<Accepted, FrameFault>
    requires entries { E.list entries.now ≡ cert.now.entries }
    requires map { rom.now.map ≡ cert.now.map }
    requires budget { budget ≤ MOST_WORDS }
    ensures ok { IfOk result (λ yes. GoodFrame window.now rom.now.machine frame.now cert.now.entries budget yes.words yes.depth) }
    ensures err { IfErr result (FirstFrameFault window.now rom.now.machine frame.now cert.now.entries budget) }
{
    rom.prove_whole();
    cert.prove_certificate();
    match judge_frame(rom.machine(), frame, entries, budget, window) {
        Ok(accepted) => Ok(accepted),
        Err(finding) => Err(finding.fault),
    }
}
