//! The verdict on a ROM and a frame by a certificate, with the cause of a refusal.

ghost use Rattle.std.specs.Prelude.{◌≡◌, ◌≤◌, IfOk, IfErr};
ghost use Rattle.dvg_words.specs.Memory.{rom_on};
ghost use Rattle.dvg_cert.specs.declared.limits.TheConstants.{MOST_WORDS};
ghost use Rattle.dvg_check.specs.Verdict.{PartsVerdict, RomVerdict, memory_on};
ghost use Rattle.dvg_check.specs.Means.{Means};
ghost use Rattle.dvg_check.specs.Causes.{refusal_of, verdict_of, TellsOf};
ghost use Rattle.dvg_check.specs.declared.finding.Finding.TheVariants as findings;

use crate::fault::{FrameFinding, Mode, ShapeFinding};
use crate::judged::JudgedShapes;
use crate::verdict::{Refusal, Yes};
use dvg_cert::{Cert, HashIndex};
use dvg_words::{FrameImage, ImageFault, Machine, RomImage, Window};
use std::alloc::Global;

/// Why a ROM and a frame are refused by a certificate, with the cause.
#[derive(Clone, Copy)]
pub enum Finding {
    /// 1: the ROM's bytes are not exactly two for each address of the certificate's map.
    RomLength,
    /// 50: there was no memory for the index of the certificate's entries.
    IndexMemory,
    /// 20 to 33: a shape breaks a rule.
    Shape(ShapeFinding),
    /// 40 to 48: the frame breaks a rule.
    Frame(FrameFinding),
}

impl Finding {
    /// The refusal that the finding is of.
    pub fn refusal(&self) -> Refusal
        ensures { result ≡ refusal_of self.now }
    {
        match self {
            Finding::RomLength => Refusal::Image(ImageFault::RomLength),
            Finding::IndexMemory => Refusal::IndexMemory,
            Finding::Shape(finding) => Refusal::Shape(finding.fault),
            Finding::Frame(finding) => Refusal::Frame(finding.fault),
        }
    }
}

impl From<ShapeFinding> for Finding {
    ghost from_gives = { λ shape finding. finding ≡ findings.Shape shape };

    fn from(shape: ShapeFinding) -> Finding {
        Finding::Shape(shape)
    }
}

/// Judges a frame over a vector ROM and the entries of its certificate in a mode, as [`check_parts`](crate::check_parts) and
/// [`check_parts_exact`](crate::check_parts_exact) do. With a refusal because of an item it answers what is known there, and the
/// rule's own numbers (profile). On the profile a yes for `CLIPPED` says nothing of the screen.
pub fn judge_parts(
    alloc: Global,
    rom: &RomImage,
    frame: &FrameImage,
    cert: &Cert,
    budget: u32,
    window: Window,
    mode: Mode,
) -> Result<Yes, Finding>
    requires budget { budget ≤ MOST_WORDS }
    requires map { rom.now.map ≡ cert.now.map }
    ensures verdict { PartsVerdict mode window rom.now cert.now.entries frame.now budget (verdict_of result) }
    ensures found { IfErr result (TellsOf mode window rom.now cert.now.entries frame.now budget) }
    ensures means { IfOk result (λ yes. Means mode (record { frame = frame.now; rom = rom.now }) window yes.words yes.depth) }
{
    let listed = cert.entries().len();
    let Ok(entries) = HashIndex::new(alloc, cert) else {
        return Err(Finding::IndexMemory);
    };
    let shapes = JudgedShapes::judge_shapes(rom, cert, &entries, window, mode)?;
    match shapes.judge_frame(frame, budget) {
        Ok(accepted) => Ok(Yes {
            shapes: listed as u32,
            words: accepted.words,
            depth: accepted.depth,
        }),
        Err(finding) => Err(Finding::Frame(finding)),
    }
}

/// Judges a frame over the bytes of a vector ROM and the entries of its certificate in a mode, as
/// [`check_rom`](crate::check_rom) does. With a refusal because of an item it answers what is known there, and the rule's own
/// numbers (profile).
///
/// `budget` is how many words the frame may take at most, up to 1,000,000, `window` where strokes may be lit. On the profile a yes
/// for `CLIPPED` says nothing of the screen. What is accepted is safe, on the board also on its circuit, and in the mode `Exact` the
/// counts are those of each run: the clause `means`. Takes memory for the index of the entries alone.
#[tactic(auto, using(crate::proofs::Accepting::over_rom))]
pub fn judge_rom(
    machine: Machine,
    alloc: Global,
    rom: &[u8],
    frame: &FrameImage,
    cert: &Cert,
    budget: u32,
    window: Window,
    mode: Mode,
) -> Result<Yes, Finding>
    requires { budget ≤ MOST_WORDS }
    ensures verdict { RomVerdict machine mode window rom.now cert.now frame.now budget (verdict_of result) }
    ensures found { IfErr result (TellsOf mode window (rom_on machine cert.now.map rom.now) cert.now.entries frame.now budget) }
    ensures means { IfOk result (λ yes. Means mode (memory_on machine cert.now.map frame.now rom.now) window yes.words yes.depth) }
{
    let Ok(rom) = RomImage::from_bytes_on(machine, rom, cert.map()) else {
        return Err(Finding::RomLength);
    };
    judge_parts(alloc, &rom, frame, cert, budget, window, mode)
}
