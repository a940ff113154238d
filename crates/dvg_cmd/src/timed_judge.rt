//! The judge of each frame by its own certificate, with the clocks that it takes.

ghost use Rattle.std.specs.Prelude.{◌≡◌, Ok, Err, None, IfSome, false};
ghost use Rattle.dvg_make.specs.declared.judging.FrameRefusal.TheVariants.{Check};
ghost use Rattle.dvg_cmd.specs.Frames.{JudgesAlike, Timed, judged_timed, timed_answer, told_with};
ghost use Rattle.dvg_cmd.specs.declared.detail.Detail.{Detail as Asked};
ghost use Rattle.dvg_cmd.specs.declared.detail.Detail.TheVariants as details;
ghost use Rattle.dvg_cmd.specs.Kept.{IsTimedFor};
ghost use Rattle.dvg_cmd.specs.Private.Judging.{IsAnswerOf};

use crate::detail::Detail;
use crate::frame_judge::{FrameJudge, OwnCertificates, ToldAnswer, explain_by_own};
use dvg_check::frame_of;
use dvg_clocks::{TimedRefusal, TimedYes, Timing, judge_timed};
use dvg_kept::TimedShapes;
use dvg_make::FrameRefusal;
use dvg_spelling::{Answer, FrameAnswer, ItemPlace};
use dvg_words::{Machine, RomImage, RomMap, Window};
use std::alloc::Global;

/// Whether the line of an accepted frame tells its clocks.
#[derive(Clone, Copy, Debug, PartialEq, Eq)]
pub enum LineClocks {
    Told,
    LeftOut,
}

impl LineClocks {
    /// The answer to what is accepted with its clocks, as a line tells it.
    pub fn answer<R>(self, timed: TimedYes) -> Answer<R>
        ensures { result ≡ told_with self (Timed timed) }
    {
        match self {
            LineClocks::Told => Answer::Timed(timed),
            LineClocks::LeftOut => Answer::Judged(Ok(timed.yes)),
        }
    }
}

/// What is asked of the clocks of frames.
#[derive(Clone, Copy)]
pub struct ClockOptions {
    /// How clocks are counted, and how many a frame may take at most.
    pub timing: Timing,
    pub line: LineClocks,
}

/// The judge of each frame by its own certificate, with its clocks, as [`judge_timed`] judges. It keeps shapes and what they take, as
/// [`KeptCertificates`](crate::KeptCertificates) keep shapes. On the profile clocks are a sum, and say nothing of runs.
#[derive(Drop)]
pub struct TimedCertificates<'a> {
    own: OwnCertificates<'a>,
    asked: ClockOptions,
    /// `None` if an account is asked for, the ROM has a wrong length, or there was no memory to keep shapes.
    kept: Option<TimedShapes<'a>>,
}

/// Shapes to be kept over this ROM with what they take, none so far, if no account is asked for, the ROM's length is right and there is
/// memory for them.
fn timed_over<'a>(
    alloc: Global,
    detail: Detail,
    machine: Machine,
    rom: &'a [u8],
    map: RomMap,
    window: Window,
    timing: &Timing,
) -> Option<TimedShapes<'a>>
    ensures { IfSome result (IsTimedFor timing.now machine rom.now map window) }
{
    if detail.has_account() {
        return None;
    }
    let rom = RomImage::from_bytes_on(machine, rom, map).ok()?;
    TimedShapes::new(alloc, rom, window, timing.states).ok()
}

impl<'a> TimedCertificates<'a> {
    /// A judge that keeps nothing so far. With an account each frame is judged anew, and so it is where there is no memory to keep shapes.
    pub fn new(
        alloc: Global,
        own: OwnCertificates<'a>,
        asked: ClockOptions,
        detail: Detail,
    ) -> TimedCertificates<'a>
        ensures own { result.own ≡ own.entry }
        ensures asked { result.asked ≡ asked }
        ensures kept { IfSome result.kept (IsTimedFor asked.timing own.entry.machine own.entry.rom.now own.entry.map own.entry.window) }
    {
        let OwnCertificates {
            machine,
            rom,
            map,
            budget,
            window,
            others,
        } = own;
        let kept = timed_over(alloc, detail, machine, rom, map, window, &asked.timing);
        let own = OwnCertificates {
            machine,
            rom,
            map,
            budget,
            window,
            others,
        };
        TimedCertificates { own, asked, kept }
    }
}

/// The answer of a verdict with clocks, as a line tells it.
fn timed_answer(timed: Result<TimedYes, TimedRefusal>, line: LineClocks) -> FrameAnswer
    ensures { result ≡ told_with line (timed_answer timed) }
{
    match timed {
        Ok(timed) => line.answer(timed),
        Err(TimedRefusal::Judged(refusal)) => Answer::Judged(Err(refusal)),
        Err(TimedRefusal::Slow { at }) => Answer::Slow(ItemPlace::Frame(at)),
    }
}

/// The answer to the bytes of a frame over kept shapes.
fn answer_by_kept(
    alloc: Global,
    own: &OwnCertificates,
    asked: &ClockOptions,
    kept: &mut TimedShapes,
    frame: &[u8],
) -> FrameAnswer
    requires { IsTimedFor asked.now.timing own.now.machine own.now.rom.now own.now.map own.now.window kept.old }
    ensures answer { IsAnswerOf (judged_timed asked.now own.now) frame.now result }
    ensures kept { IsTimedFor asked.now.timing own.now.machine own.now.rom.now own.now.map own.now.window kept.new }
{
    match frame_of(frame, own.budget) {
        Ok(frame) => timed_answer(
            kept.judge(alloc, &frame, own.budget, asked.timing.limit),
            asked.line,
        ),
        Err(refusal) => Answer::Judged(Err(FrameRefusal::Check(refusal))),
    }
}

/// The answer to the bytes of a frame, for which nothing is kept.
fn answer_by_own(
    alloc: Global,
    own: &OwnCertificates,
    asked: &ClockOptions,
    frame: &[u8],
) -> FrameAnswer
    ensures { IsAnswerOf (judged_timed asked.now own.now) frame.now result }
{
    match own.images(frame) {
        Ok((frame, rom)) => timed_answer(
            judge_timed(alloc, &rom, &frame, own.budget, own.window, &asked.timing),
            asked.line,
        ),
        Err(refusal) => Answer::Judged(Err(FrameRefusal::Check(refusal))),
    }
}

impl<'a> FrameJudge for TimedCertificates<'a> {
    ghost valid = { λ judge _. IfSome judge.kept (IsTimedFor judge.asked.timing judge.own.machine judge.own.rom.now judge.own.map
        judge.own.window) };

    ghost judging = { λ judge. judged_timed judge.asked judge.own };

    fn machine(&self) -> Machine {
        self.own.machine
    }

    fn answer(&mut self, alloc: Global, frame: &[u8], detail: Detail) -> ToldAnswer {
        match (detail, &mut self.kept) {
            (Detail::Account(labels), _) => {
                let explained = explain_by_own(alloc, &self.own, &self.asked.timing, frame, labels);
                (
                    timed_answer(explained.answer, self.asked.line),
                    explained.behind,
                )
            }
            (Detail::Line, Some(kept)) => (
                answer_by_kept(alloc, &self.own, &self.asked, kept, frame),
                Ok(None),
            ),
            (Detail::Line, None) => (
                answer_by_own(alloc, &self.own, &self.asked, frame),
                Ok(None),
            ),
        }
    }
}
