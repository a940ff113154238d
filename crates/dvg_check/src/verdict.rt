//! The verdict on a ROM and a frame by a certificate, and why they are refused.

ghost use Rattle.std.specs.Prelude.{◌≡◌, ◌≤◌, OnOk, IfOk, IfErr};
ghost use Rattle.dvg_words.specs.Memory.{words_of};
ghost use Rattle.dvg_check.specs.Rules.{Bound, Exact};
ghost use Rattle.dvg_check.specs.Verdict.{InRange, RangeRefusal, memory_on, PartsVerdict, RomVerdict};
ghost use Rattle.dvg_check.specs.Numbers.{refusal_number};
ghost use Rattle.dvg_check.specs.Means.{Means};
ghost use Rattle.dvg_check.specs.declared.verdict.Refusal.TheVariants as refusals;

use crate::fault::{FrameFault, Mode, ShapeFault};
use crate::finding::{judge_parts, judge_rom};
use dvg_cert::{Cert, CertFault, MOST_WORDS};
use dvg_words::{FrameImage, ImageFault, Machine, RomImage, Window};
use std::alloc::Global;
use thiserror::Error;

/// What is accepted: how many entries the certificate has, how many words every run fetches at most, and how many
/// return places it stores at once at most.
#[derive(Clone, Copy, Debug, PartialEq, Eq)]
pub struct Yes {
    pub shapes: u32,
    pub words: u32,
    pub depth: u8,
}

/// Why a ROM, a certificate and a frame are refused.
#[derive(Clone, Copy, Debug, PartialEq, Eq, Error)]
pub enum Refusal {
    /// 1 or 2: the ROM or the frame has a wrong length.
    #[error("{0}")]
    Image(ImageFault),
    /// 49: the budget is not 1 to 1,000,000.
    #[error("the budget is out of range")]
    BudgetRange,
    /// 10 to 16: the certificate is not one of the format, or there was no memory for it.
    #[error("certificate {0}")]
    Cert(CertFault),
    /// 50: there was no memory for the index of the certificate's entries.
    #[error("out of memory for the index")]
    IndexMemory,
    /// 20 to 33: a shape breaks a rule.
    #[error("{0}")]
    Shape(ShapeFault),
    /// 40 to 48: the frame breaks a rule.
    #[error("{0}")]
    Frame(FrameFault),
}

impl Refusal {
    /// The number of the refusal, as a report has it: 1, 2, 10 to 16, 20 to 33, 40 to 48, 49 or 50.
    pub fn number(self) -> u8
        ensures { result ≡ refusal_number self }
    {
        match self {
            Refusal::Image(fault) => fault.number(),
            Refusal::BudgetRange => 49,
            Refusal::Cert(fault) => fault.number(),
            Refusal::IndexMemory => 50,
            Refusal::Shape(fault) => fault.number(),
            Refusal::Frame(fault) => fault.number(),
        }
    }
}

impl From<ImageFault> for Refusal {
    ghost from_gives = { λ fault refusal. refusal ≡ refusals.Image fault };

    fn from(fault: ImageFault) -> Refusal {
        Refusal::Image(fault)
    }
}

impl From<CertFault> for Refusal {
    ghost from_gives = { λ fault refusal. refusal ≡ refusals.Cert fault };

    fn from(fault: CertFault) -> Refusal {
        Refusal::Cert(fault)
    }
}

impl From<ShapeFault> for Refusal {
    ghost from_gives = { λ fault refusal. refusal ≡ refusals.Shape fault };

    fn from(fault: ShapeFault) -> Refusal {
        Refusal::Shape(fault)
    }
}

impl From<FrameFault> for Refusal {
    ghost from_gives = { λ fault refusal. refusal ≡ refusals.Frame fault };

    fn from(fault: FrameFault) -> Refusal {
        Refusal::Frame(fault)
    }
}

/// The image of a frame, where its length and the budget are in range: the verdict's first step.
///
/// `budget` is how many words the frame may take at most, 1 to 1,000,000. What is refused, by the first that applies of 2 and 49,
/// is so whatever the ROM and the certificate. Takes no memory.
pub fn frame_of(frame: &[u8], budget: u32) -> Result<FrameImage<'_>, Refusal>
    ensures range { OnOk result (InRange frame.now budget) }
    ensures frame { IfOk result (λ image. image ≡ words_of frame.now) }
    ensures refused { IfErr result (RangeRefusal frame.now budget) }
{
    let frame = FrameImage::from_bytes(frame)?;
    if !(1..=MOST_WORDS).contains(&budget) {
        return Err(Refusal::BudgetRange);
    }
    Ok(frame)
}

/// Judges a frame over the bytes of a vector ROM and the entries of its certificate in a mode, as `check` and `check_exact` of
/// `dvg_verdict` do from the ROM's length on.
///
/// `budget` is how many words the frame may take at most, up to 1,000,000, `window` where strokes may be lit. On the profile a yes
/// for `CLIPPED` says nothing of the screen. The answer is exact: 1 where the bytes are not exactly two for each address of the
/// certificate's map, else that of [`check_parts`] or [`check_parts_exact`]. It takes the memory that these take, and carries the
/// same theorem, on the board also about its circuit.
pub fn check_rom(
    machine: Machine,
    alloc: Global,
    rom: &[u8],
    frame: &FrameImage,
    cert: &Cert,
    budget: u32,
    window: Window,
    mode: Mode,
) -> Result<Yes, Refusal>
    requires { budget ≤ MOST_WORDS }
    ensures verdict { RomVerdict machine mode window rom.now cert.now frame.now budget result }
    ensures means { IfOk result (λ yes. Means mode (memory_on machine cert.now.map frame.now rom.now) window yes.words yes.depth) }
{
    match judge_rom(machine, alloc, rom, frame, cert, budget, window, mode) {
        Ok(yes) => Ok(yes),
        Err(finding) => Err(finding.refusal()),
    }
}

/// Judges a frame over a vector ROM and the entries of its certificate, as `check` of `dvg_verdict` does from the shapes on.
///
/// The ROM lies where the certificate says. `budget` is how many words the frame may take at most, up to 1,000,000, `window` where
/// strokes may be lit. On the profile a yes for `CLIPPED` says nothing of the screen. The answer is exact: the first that applies of
/// 50, the first fault of the shapes (20 to 31), the frame's first fault (40 to 48), and the yes, and what is accepted is safe in
/// just the sense of `check`, for a ROM on the board also on its circuit. Takes memory for the index of the entries alone; 50 comes
/// only where there was none.
pub fn check_parts(
    alloc: Global,
    rom: &RomImage,
    frame: &FrameImage,
    cert: &Cert,
    budget: u32,
    window: Window,
) -> Result<Yes, Refusal>
    requires budget { budget ≤ MOST_WORDS }
    requires map { rom.now.map ≡ cert.now.map }
    ensures verdict { PartsVerdict Bound window rom.now cert.now.entries frame.now budget result }
    ensures means { IfOk result (λ yes. Means Bound (record { frame = frame.now; rom = rom.now }) window yes.words yes.depth) }
{
    match judge_parts(alloc, rom, frame, cert, budget, window, Mode::Bound) {
        Ok(yes) => Ok(yes),
        Err(finding) => Err(finding.refusal()),
    }
}

/// Judges a frame over a vector ROM and the entries of its certificate, as `check_exact` of `dvg_verdict` does from the shapes on,
/// for a ROM on the board also about its circuit. On the profile a yes for `CLIPPED` says nothing of the screen.
pub fn check_parts_exact(
    alloc: Global,
    rom: &RomImage,
    frame: &FrameImage,
    cert: &Cert,
    budget: u32,
    window: Window,
) -> Result<Yes, Refusal>
    requires budget { budget ≤ MOST_WORDS }
    requires map { rom.now.map ≡ cert.now.map }
    ensures verdict { PartsVerdict Exact window rom.now cert.now.entries frame.now budget result }
    ensures means { IfOk result (λ yes. Means Exact (record { frame = frame.now; rom = rom.now }) window yes.words yes.depth) }
{
    match judge_parts(alloc, rom, frame, cert, budget, window, Mode::Exact) {
        Ok(yes) => Ok(yes),
        Err(finding) => Err(finding.refusal()),
    }
}
