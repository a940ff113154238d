//! The verdict on a frame by the certificate that is made for it, with the clocks that it takes.

ghost use Rattle.std.specs.Prelude.{◌≡◌, ◌≤◌, ℕ, IfOk, IfErr};
ghost use Rattle.dvg_words.specs.declared.machine.Machine.TheVariants.{Board};
ghost use Rattle.dvg_cert.specs.declared.limits.TheConstants.{MOST_WORDS};
ghost use Rattle.dvg_check.specs.Means.{Means};
ghost use Rattle.dvg_check.specs.declared.fault.Mode.TheVariants.{Exact};
ghost use Rattle.dvg_make.specs.Frames.{FrameMade};
ghost use Rattle.dvg_make.specs.Judging.{AreLeast, FrameRefused, HasCallCause, VerdictByMade, own_verdict};
ghost use Rattle.dvg_clocks.specs.Clocks.{TakenOnCircuit, clocks_of_instr};
ghost use Rattle.dvg_clocks.specs.Forecasts.{clocks_known};
ghost use Rattle.dvg_clocks.specs.Judging.{IsAccepted, IsTimed, IsUntold, Slow, TimedRefused, TimedVerdict};
ghost use Rattle.dvg_clocks.specs.Sums.{frame_sum};

use crate::clocks::ClockRange;
use crate::dearest::Dearest;
use crate::frames::{Timing, frame_clocks_seen};
use crate::items::{SeesItems, Unseen};
use crate::shapes::ShapeClocks;
use dvg_cert::{Cert, ListIndex};
use dvg_check::Yes;
use dvg_make::{FrameRefusal, JudgedFrame, MakeAccount, explain_judging, own_verdict};
use dvg_words::{FrameImage, RomImage, Window};
use std::alloc::{AllocError, Global};

/// A frame that is accepted: its counts, and how many clocks it takes.
#[derive(Clone, Copy, Debug, PartialEq, Eq)]
pub struct TimedYes {
    pub yes: Yes,
    pub clocks: ClockRange,
}

/// Why a frame is refused by its own certificate, or takes too long.
#[derive(Clone, Copy, Debug, PartialEq, Eq)]
pub enum TimedRefusal {
    /// The refusal of [`judge`](dvg_make::judge).
    Judged(FrameRefusal),
    /// 58: with the item at this word the frame may take more clocks than the limit.
    Slow { at: u16 },
}

/// How long a frame takes, as accounts tell it.
#[derive(Clone, Copy)]
pub struct FrameTime {
    pub clocks: ClockRange,
    pub dearest: Dearest,
}

/// A frame that was judged by its own certificate, with the time that it takes.
#[derive(Drop)]
pub struct TimedJudging {
    /// That certificate, and the verdict by it; or why none is made.
    pub judged: Result<JudgedFrame, MakeAccount>,
    /// The answer of [`judge_timed`].
    pub answer: Result<TimedYes, TimedRefusal>,
    /// What the frame takes, if it is accepted, or refused with 58 alone; an `Err` says that there was no memory to find out.
    pub time: Result<Option<FrameTime>, AllocError>,
}

/// The clocks of a frame that is accepted by this certificate; or 58 at an item, or a want of memory.
fn clocks_by<S: SeesItems>(
    alloc: Global,
    timing: &Timing,
    rom: &RomImage,
    frame: &FrameImage,
    cert: &Cert,
    seen: &mut S,
) -> Result<ClockRange, TimedRefusal>
    requires { IsAccepted (record { frame = frame.now; rom = rom.now }) cert.now.entries }
    ensures value { (accepted : IsAccepted (record { frame = frame.now; rom = rom.now }) cert.now.entries)
        → IfOk result (λ clocks. clocks ≡ frame_sum (clocks_known timing.now.states) (record { frame = frame.now; rom = rom.now })
        cert.now.entries accepted.words) }
    ensures within { IfOk result (λ clocks. clocks.most ≤ timing.now.limit) }
    ensures circuit { rom.now.machine ≡ Board
        → IfOk result (TakenOnCircuit (clocks_of_instr timing.now.states) (record { frame = frame.now; rom = rom.now })) }
    ensures err { IfErr result (IsUntold timing.now (record { frame = frame.now; rom = rom.now }) cert.now.entries) }
{
    let list = cert.entries();
    let entries = ListIndex::new(cert);
    match ShapeClocks::of_all(alloc, &timing.states, rom, &entries, list) {
        Ok(shapes) => match frame_clocks_seen(timing, rom, &entries, &shapes, frame, seen) {
            Ok(clocks) => Ok(clocks),
            Err(at) => Err(TimedRefusal::Slow { at }),
        },
        Err(_) => Err(TimedRefusal::Judged(FrameRefusal::NoMemory)),
    }
}

/// What a frame is judged by, and the answer of [`judge_timed`]. The frame's items are seen, up to one that answers 58.
fn judge_seen<S: SeesItems>(
    alloc: Global,
    rom: &RomImage,
    frame: &FrameImage,
    budget: u32,
    window: Window,
    timing: &Timing,
    seen: &mut S,
) -> (
    Result<JudgedFrame, MakeAccount>,
    Result<TimedYes, TimedRefusal>,
)
    requires { budget ≤ MOST_WORDS }
    ensures timed { IsTimed timing.now rom.now frame.now window budget result.1 }
    ensures own { VerdictByMade rom.now frame.now window budget (own_verdict result.0) }
    ensures means { IfOk (own_verdict result.0) (λ yes. Means Exact (record { frame = frame.now; rom = rom.now }) window
        yes.words yes.depth) }
    ensures least { IfOk (own_verdict result.0) (λ yes. AreLeast rom.now frame.now window yes.words yes.depth) }
    ensures refused { IfErr (own_verdict result.0) (FrameRefused rom.now frame.now window budget) }
    ensures told { IfErr (own_verdict result.0) (HasCallCause rom.now frame.now) }
    ensures made { IfOk result.0 (λ judged. FrameMade rom.now frame.now judged.cert.entries) }
{
    let judged = explain_judging(alloc, rom, frame, budget, window);
    let yes = match own_verdict(&judged) {
        Ok(yes) => yes,
        Err(refusal) => return (judged, Err(TimedRefusal::Judged(refusal))),
    };
    let clocks = match &judged {
        Ok(made) => clocks_by(alloc, timing, rom, frame, &made.cert, seen),
        Err(_) => unreachable!(),
    };
    match clocks {
        Ok(clocks) => (judged, Ok(TimedYes { yes, clocks })),
        Err(refusal) => (judged, Err(refusal)),
    }
}

/// Judges a frame as [`judge`](dvg_make::judge) does, and answers how many clocks it takes, too: 58 if that may be more than the limit,
/// which is asked only of a frame that is accepted.
///
/// On the board each run of the circuit takes at most so many clocks, and just so many if the least and the most are equal; they differ
/// only by dark draws at an unknown scale. A clock is 1/1,512,000 s on Asteroids' board. Takes memory as
/// [`explain_judging`](dvg_make::explain_judging) does, and for the clocks of the shapes that are called.
pub fn judge_timed(
    alloc: Global,
    rom: &RomImage,
    frame: &FrameImage,
    budget: u32,
    window: Window,
    timing: &Timing,
) -> Result<TimedYes, TimedRefusal>
    requires { budget ≤ MOST_WORDS }
    ensures verdict { TimedVerdict timing.now rom.now frame.now window budget result }
    ensures means { IfOk result (λ timed. Means Exact (record { frame = frame.now; rom = rom.now }) window
        timed.yes.words timed.yes.depth) }
    ensures least { IfOk result (λ timed. AreLeast rom.now frame.now window timed.yes.words timed.yes.depth) }
    ensures clocks { rom.now.machine ≡ Board
        → IfOk result (λ timed. TakenOnCircuit (clocks_of_instr timing.now.states)
        (record { frame = frame.now; rom = rom.now }) timed.clocks) }
    ensures refused { IfErr result (TimedRefused rom.now frame.now window budget) }
{
    let (_, answer) = judge_seen(alloc, rom, frame, budget, window, timing, &mut Unseen);
    answer
}

/// What a frame takes that is accepted by this certificate, whatever its limit.
fn unlimited_time(
    alloc: Global,
    timing: &Timing,
    rom: &RomImage,
    frame: &FrameImage,
    cert: &Cert,
) -> Result<Option<FrameTime>, AllocError>
    requires { IsAccepted (record { frame = frame.now; rom = rom.now }) cert.now.entries }
{
    let unlimited = Timing {
        states: timing.states,
        limit: u64::MAX,
    };
    let mut dearest = Dearest::new();
    match clocks_by(alloc, &unlimited, rom, frame, cert, &mut dearest) {
        Ok(clocks) => Ok(Some(FrameTime { clocks, dearest })),
        Err(TimedRefusal::Slow { .. }) => Ok(None),
        Err(TimedRefusal::Judged(_)) => Err(AllocError),
    }
}

/// What a frame takes that is refused so: one that is refused with 58 alone.
fn refused_time(
    alloc: Global,
    timing: &Timing,
    rom: &RomImage,
    frame: &FrameImage,
    judged: &Result<JudgedFrame, MakeAccount>,
    refusal: TimedRefusal,
) -> Result<Option<FrameTime>, AllocError>
    requires { (at : ℕ) → refusal ≡ Slow at
        → IfOk judged.now (λ judged. IsAccepted (record { frame = frame.now; rom = rom.now }) judged.cert.entries) }
{
    match judged {
        Ok(made) => match refusal {
            TimedRefusal::Slow { .. } => unlimited_time(alloc, timing, rom, frame, &made.cert),
            TimedRefusal::Judged(FrameRefusal::NoMemory) => Err(AllocError),
            TimedRefusal::Judged(_) => Ok(None),
        },
        Err(_) => Ok(None),
    }
}

/// Judges a frame as [`judge_timed`] does, and answers what it was judged by, too, and the time that it takes (only tested).
///
/// Takes memory as `judge_timed` does; of a frame that is refused with 58 the clocks of the shapes are found twice.
pub fn explain_timed(
    alloc: Global,
    rom: &RomImage,
    frame: &FrameImage,
    budget: u32,
    window: Window,
    timing: &Timing,
) -> TimedJudging
    requires { budget ≤ MOST_WORDS }
    ensures timed { IsTimed timing.now rom.now frame.now window budget result.answer }
    ensures own { VerdictByMade rom.now frame.now window budget (own_verdict result.judged) }
    ensures means { IfOk (own_verdict result.judged) (λ yes. Means Exact (record { frame = frame.now; rom = rom.now }) window
        yes.words yes.depth) }
    ensures least { IfOk (own_verdict result.judged) (λ yes. AreLeast rom.now frame.now window yes.words yes.depth) }
    ensures refused { IfErr (own_verdict result.judged) (FrameRefused rom.now frame.now window budget) }
    ensures told { IfErr (own_verdict result.judged) (HasCallCause rom.now frame.now) }
    ensures made { IfOk result.judged (λ judged. FrameMade rom.now frame.now judged.cert.entries) }
{
    let mut dearest = Dearest::new();
    let (judged, answer) = judge_seen(alloc, rom, frame, budget, window, timing, &mut dearest);
    let time = match answer {
        Ok(timed) => Ok(Some(FrameTime {
            clocks: timed.clocks,
            dearest,
        })),
        Err(refusal) => refused_time(alloc, timing, rom, frame, &judged, refusal),
    };
    TimedJudging {
        judged,
        answer,
        time,
    }
}
