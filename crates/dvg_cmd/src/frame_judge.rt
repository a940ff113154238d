//! By which certificate a frame is judged: by its own, which is made for it, or by a given one, whose shapes were judged.

ghost use Rattle.std.specs.Prelude.{◌≡◌, false, length, Err, None, IfOk, IfErr, IfSome};
ghost use Rattle.dvg_words.specs.Memory.{IsFrameLength, words_of};
ghost use Rattle.dvg_check.specs.Means.{Means};
ghost use Rattle.dvg_check.specs.declared.fault.Mode.TheVariants.{Exact};
ghost use Rattle.dvg_make.specs.Judging.{HasCallCause};
ghost use Rattle.dvg_make.specs.declared.judging.FrameRefusal.TheVariants.{Check};
ghost use Rattle.dvg_words.specs.declared.machine.Machine.TheVariants.{Board};
ghost use Rattle.dvg_clocks.specs.Clocks.{TakenOnCircuit, clocks_of_instr};
ghost use Rattle.dvg_cmd.specs.Detail.{IsBehind};
ghost use Rattle.dvg_cmd.specs.Frames.{JudgesAlike, Judging, MayJudgeOver, VerdictBy, VerdictOver, is_unread, judged_by_own, judged_over, judged_timed, memory_of, refusal_in, rom_of, timed_answer, told_with, yes_in};
ghost use Rattle.dvg_cmd.specs.declared.detail.Detail.{Detail};
ghost use Rattle.dvg_cmd.specs.declared.detail.Detail.TheVariants as details;
ghost use Rattle.dvg_cmd.specs.declared.timed_judge.LineClocks.{LineClocks};
ghost use Rattle.dvg_cmd.specs.Kept.{IsKeptFor};
ghost use Rattle.dvg_cmd.specs.Private.Judging.{AreImages, IsAnswerOf};

use crate::detail::{Behind, Detail};
use dvg_account::{Inputs, ShapeStarts, frame_text, timed_text};
use dvg_cert::{Cert, Entries};
use dvg_check::{Finding, JudgedShapes, Mode, Refusal, Yes, frame_of};
use dvg_clocks::{ClockRange, DVG_STATES, TimedRefusal, TimedYes, Timing, explain_timed};
use dvg_kept::KeptShapes;
use dvg_labels::Labels;
use dvg_make::{EntryCause, FrameRefusal, explain_judging, judge, own_verdict};
use dvg_spelling::{Answer, FrameAnswer};
use dvg_words::{FrameImage, Machine, RomImage, RomMap, Window};
use std::alloc::{AllocError, Global};

/// A verdict on a frame, and what the detail asks for behind its line.
pub type ToldVerdict = (Result<Yes, FrameRefusal>, Behind);

/// The answer to a frame, and what the detail asks for behind its line.
pub type ToldAnswer = (FrameAnswer, Behind);

/// A judge of frames over a vector ROM.
pub trait FrameJudge {
    /// What must hold of it before it judges with this detail.
    ghost valid: { Self → Detail → Type 0 };

    /// What is an answer to the bytes of a frame, and what is known of why one is refused; which ROM frames call, which part of the
    /// screen may be lit, and in which mode counts are judged.
    ghost judging: { Self → Judging };

    /// The machine that accounts name.
    fn machine(&self) -> Machine;

    /// The answer to the bytes of a frame, and what the detail asks for behind its line. It judges later frames in the same way.
    fn answer(&mut self, alloc: Global, frame: &[u8], detail: Detail) -> ToldAnswer
        requires { valid self.old detail }
        ensures answer { (judging self.old).is_answer frame.now result.0 }
        ensures judged { is_unread result.0 ≡ false }
        ensures behind { IsBehind detail.entry result.1 }
        ensures whole { IfSome (yes_in result.0) (λ yes. IsFrameLength (length frame.now)) }
        ensures means { IfSome (yes_in result.0) (λ yes. Means (judging self.old).mode
            (record { frame = words_of frame.now; rom = (judging self.old).rom }) (judging self.old).window yes.words yes.depth) }
        ensures told { IfSome (refusal_in result.0) ((judging self.old).is_told frame.now) }
        ensures valid { valid self.new detail.entry }
        ensures same { JudgesAlike (judging self.old) (judging self.new) };
}

/// The judge of each frame by its own certificate, as [`judge`] judges.
#[derive(Clone, Copy)]
pub struct OwnCertificates<'a> {
    /// The machine that runs the frames.
    pub machine: Machine,
    /// The bytes of the ROM.
    pub rom: &'a [u8],
    /// Where the ROM lies.
    pub map: RomMap,
    /// How many words a frame may take at most.
    pub budget: u32,
    /// Where strokes may be lit. On the profile a yes for `CLIPPED` says nothing of the screen.
    pub window: Window,
    /// Where the shapes of other frames begin, if an account is to tell which of a frame's own shapes runs on into one of them.
    pub others: Option<&'a ShapeStarts>,
}

impl<'a> FrameJudge for OwnCertificates<'a> {
    ghost valid = { λ _ _. Unit {0} };

    ghost judging = { judged_by_own };

    fn machine(&self) -> Machine {
        self.machine
    }

    fn answer(&mut self, alloc: Global, frame: &[u8], detail: Detail) -> ToldAnswer {
        let (verdict, behind) = self.verdict(alloc, frame, detail);
        (Answer::Judged(verdict), behind)
    }
}

impl<'a> OwnCertificates<'a> {
    /// The frame and the ROM of these bytes: answers the first that applies of 2, 49 and 1.
    pub(crate) fn images<'b>(
        &self,
        frame: &'b [u8],
    ) -> Result<(FrameImage<'b>, RomImage<'a>), Refusal>
        ensures ok { IfOk result (λ images. AreImages self.now frame.now images.0 images.1) }
        ensures err { IfErr result (λ refusal. VerdictBy self.now frame.now (Err (Check refusal))) }
    {
        let frame = frame_of(frame, self.budget)?;
        Ok((
            frame,
            RomImage::from_bytes_on(self.machine, self.rom, self.map)?,
        ))
    }

    /// The verdict on the bytes of a frame: the first that applies of 2, 49 and 1, else that of [`judge`]; and what the detail asks for
    /// behind its line.
    pub fn verdict(&self, alloc: Global, frame: &'a [u8], detail: Detail<'a>) -> ToldVerdict
        ensures verdict { VerdictBy self.now frame.now result.0 }
        ensures means { IfOk result.0 (λ yes. Means Exact (memory_of self.now frame.now) self.now.window yes.words yes.depth) }
        ensures told { IfErr result.0 (HasCallCause (rom_of self.now) (words_of frame.now)) }
        ensures behind { IsBehind detail.entry result.1 }
    {
        match detail {
            Detail::Line => (verdict_by_own(alloc, self, frame), Ok(None)),
            Detail::Account(labels) => {
                let explained = explain_by_own(alloc, self, &UNLIMITED, frame, labels);
                (explained.verdict, explained.behind)
            }
        }
    }

    /// The verdict on the bytes of a frame, as [`verdict`](OwnCertificates::verdict) answers it, and how many clocks an accepted frame takes on
    /// the board; `None` on the profile, and where there was no memory to count them.
    pub fn timed_verdict(
        &self,
        alloc: Global,
        frame: &[u8],
    ) -> (Result<Yes, FrameRefusal>, Option<ClockRange>)
        ensures verdict { VerdictBy self.now frame.now result.0 }
        ensures means { IfOk result.0 (λ yes. Means Exact (memory_of self.now frame.now) self.now.window yes.words yes.depth) }
        ensures told { IfErr result.0 (HasCallCause (rom_of self.now) (words_of frame.now)) }
        ensures clocks { IfSome result.1 (λ clocks. (self.now.machine ≡ Board) × TakenOnCircuit (clocks_of_instr DVG_STATES)
            (memory_of self.now frame.now) clocks) }
    {
        let Machine::Board = self.machine else {
            return (verdict_by_own(alloc, self, frame), None);
        };
        match self.images(frame) {
            Ok((frame, rom)) => {
                let timed = explain_timed(
                    alloc,
                    &rom,
                    &frame,
                    self.budget,
                    self.window,
                    &UNLIMITED,
                );
                let clocks = match timed.answer {
                    Ok(timed) => Some(timed.clocks),
                    Err(_) => None,
                };
                (own_verdict(&timed.judged), clocks)
            }
            Err(refusal) => (Err(FrameRefusal::Check(refusal)), None),
        }
    }

    /// The certificate that is made for a frame, if one can be made. Takes memory as [`explain_judging`] does; an `Err` says that there was
    /// none.
    pub fn made_for(&self, alloc: Global, frame: &[u8]) -> Result<Option<Cert>, AllocError> {
        let Ok((frame, rom)) = self.images(frame) else {
            return Ok(None);
        };
        match explain_judging(alloc, &rom, &frame, self.budget, self.window) {
            Ok(judged) => Ok(Some(judged.cert)),
            Err(account) if account.cause == EntryCause::Memory => Err(AllocError),
            Err(_) => Ok(None),
        }
    }

    /// Adds where the shapes begin that a frame calls, if a certificate can be made for it. Takes memory as
    /// [`made_for`](OwnCertificates::made_for) does.
    pub fn add_starts(
        &self,
        alloc: Global,
        frame: &[u8],
        starts: &mut ShapeStarts,
    ) -> Result<(), AllocError> {
        if let Some(cert) = self.made_for(alloc, frame)? {
            starts.add(&cert);
        }
        Ok(())
    }
}

/// The verdict on the bytes of a frame by its own certificate: the first that applies of 2, 49 and 1, else that of [`judge`].
#[tactic(auto, using(crate::proofs::Answers::own_verdict, crate::proofs::Answers::own_told))]
fn verdict_by_own(alloc: Global, own: &OwnCertificates, frame: &[u8]) -> Result<Yes, FrameRefusal>
    ensures verdict { VerdictBy own.now frame.now result }
    ensures told { IfErr result (HasCallCause (rom_of own.now) (words_of frame.now)) }
{
    match own.images(frame) {
        Ok((frame, rom)) => judge(alloc, &rom, &frame, own.budget, own.window),
        Err(refusal) => Err(FrameRefusal::Check(refusal)),
    }
}

/// A frame that was judged by its own certificate, with an account.
#[derive(Drop)]
pub struct ExplainedFrame {
    /// The verdict of [`judge`].
    pub verdict: Result<Yes, FrameRefusal>,
    /// That of [`judge_timed`](dvg_clocks::judge_timed).
    pub answer: Result<TimedYes, TimedRefusal>,
    /// The account, which on the board tells the time that the frame takes.
    pub behind: Behind,
}

/// The verdict on the bytes of a frame by its own certificate, without clocks and with them, and the account of it.
pub fn explain_by_own<'a>(
    alloc: Global,
    own: &OwnCertificates<'a>,
    timing: &Timing,
    frame: &'a [u8],
    labels: Option<&'a Labels>,
) -> ExplainedFrame
    ensures verdict { VerdictBy own.now frame.now result.verdict }
    ensures told { IfErr result.verdict (HasCallCause (rom_of own.now) (words_of frame.now)) }
    ensures answer { (line : LineClocks) → IsAnswerOf (judged_timed (record { timing = timing.now; line = line }) own.now) frame.now
        (told_with line (timed_answer result.answer)) }
    ensures behind { IsBehind (details.Account None) result.behind }
{
    let inputs = Inputs {
        machine: own.machine,
        rom: own.rom,
        map: Some(own.map),
        cert: None,
        frame,
        budget: own.budget,
        window: own.window,
        mode: Mode::Exact,
        labels,
        others: own.others,
    };
    match own.images(frame) {
        Ok((image, rom)) => {
            let timed = explain_timed(alloc, &rom, &image, own.budget, own.window, timing);
            ExplainedFrame {
                verdict: own_verdict(&timed.judged),
                answer: timed.answer,
                behind: timed_text(alloc, &inputs, &rom, &image, timed, timing.limit).map(Some),
            }
        }
        Err(refusal) => {
            let refusal = FrameRefusal::Check(refusal);
            ExplainedFrame {
                verdict: Err(refusal),
                answer: Err(TimedRefusal::Judged(refusal)),
                behind: frame_text(alloc, &inputs, &Err(refusal), None).map(Some),
            }
        }
    }
}

/// How accounts count clocks where there is no limit.
const UNLIMITED: Timing = Timing {
    states: DVG_STATES,
    limit: u64::MAX,
};

/// The judge of each frame by its own certificate, as [`OwnCertificates`] judges. It keeps what it made for the frames that it
/// accepted, so that a later one that calls the same shapes costs less.
#[derive(Drop)]
pub struct KeptCertificates<'a> {
    own: OwnCertificates<'a>,
    /// `None` if an account is asked for, the ROM has a wrong length, or there was no memory to keep shapes.
    kept: Option<KeptShapes<'a>>,
}

/// Shapes to be kept over this ROM, none so far, if no account is asked for, the ROM's length is right and there is memory for them.
fn shapes_over<'a>(
    alloc: Global,
    detail: Detail,
    machine: Machine,
    rom: &'a [u8],
    map: RomMap,
    window: Window,
) -> Option<KeptShapes<'a>>
    ensures { IfSome result (IsKeptFor machine rom.now map window) }
{
    if detail.has_account() {
        return None;
    }
    let rom = RomImage::from_bytes_on(machine, rom, map).ok()?;
    KeptShapes::new(alloc, rom, window).ok()
}

impl<'a> KeptCertificates<'a> {
    /// A judge that keeps nothing so far. With an account each frame is judged anew, and so it is where there is no memory to keep shapes.
    pub fn new(alloc: Global, own: OwnCertificates<'a>, detail: Detail) -> KeptCertificates<'a>
        ensures own { result.own ≡ own.entry }
        ensures kept { IfSome result.kept (IsKeptFor own.entry.machine own.entry.rom.now own.entry.map own.entry.window) }
    {
        let OwnCertificates {
            machine,
            rom,
            map,
            budget,
            window,
            others,
        } = own;
        let kept = shapes_over(alloc, detail, machine, rom, map, window);
        let own = OwnCertificates {
            machine,
            rom,
            map,
            budget,
            window,
            others,
        };
        KeptCertificates { own, kept }
    }
}

/// The verdict of [`verdict_by_own`], over kept shapes.
#[tactic(auto, using(crate::proofs::Answers::kept_verdict, crate::proofs::Answers::kept_told))]
fn verdict_by_kept(
    alloc: Global,
    own: &OwnCertificates,
    kept: &mut KeptShapes,
    frame: &[u8],
) -> Result<Yes, FrameRefusal>
    requires { IsKeptFor own.now.machine own.now.rom.now own.now.map own.now.window kept.old }
    ensures verdict { VerdictBy own.now frame.now result }
    ensures told { IfErr result (HasCallCause (rom_of own.now) (words_of frame.now)) }
    ensures kept { IsKeptFor own.now.machine own.now.rom.now own.now.map own.now.window kept.new }
{
    match frame_of(frame, own.budget) {
        Ok(frame) => kept.judge(alloc, &frame, own.budget),
        Err(refusal) => Err(FrameRefusal::Check(refusal)),
    }
}

impl<'a> FrameJudge for KeptCertificates<'a> {
    ghost valid = { λ judge _. IfSome judge.kept (IsKeptFor judge.own.machine judge.own.rom.now judge.own.map judge.own.window) };

    ghost judging = { λ judge. judged_by_own judge.own };

    fn machine(&self) -> Machine {
        self.own.machine
    }

    fn answer(&mut self, alloc: Global, frame: &[u8], detail: Detail) -> ToldAnswer {
        let (verdict, behind) = match (detail, &mut self.kept) {
            (Detail::Line, Some(kept)) => (
                verdict_by_kept(alloc, &self.own, kept, frame),
                Ok(None),
            ),
            _ => self.own.verdict(alloc, frame, detail),
        };
        (Answer::Judged(verdict), behind)
    }
}

/// The judge of frames over judged shapes. Before it judges, these must be the shapes of the certificate's entries over a ROM at its map;
/// and for an account, over these bytes of the ROM, and judged on this machine and in this mode.
#[derive(Drop)]
pub struct GivenCertificate<'a, E: Entries> {
    /// The machine on which the shapes were judged.
    pub machine: Machine,
    /// The bytes of the ROM.
    pub rom: &'a [u8],
    pub cert: &'a Cert,
    pub shapes: &'a JudgedShapes<'a, E>,
    /// The mode in which the shapes were judged.
    pub mode: Mode,
    /// How many words a frame may take at most.
    pub budget: u32,
}

impl<'a, E: Entries> FrameJudge for GivenCertificate<'a, E> {
    ghost valid = { λ given detail. MayJudgeOver given.machine given.shapes.now given.cert.now given.rom.now given.mode detail };

    ghost judging = { λ given. judged_over given.shapes.now (length given.cert.now.entries) given.budget };

    fn machine(&self) -> Machine {
        self.machine
    }

    fn answer(&mut self, alloc: Global, frame: &[u8], detail: Detail) -> ToldAnswer {
        let (verdict, cause) = verdict_over(self.shapes, self.cert, frame, self.budget);
        let behind = match detail {
            Detail::Line => Ok(None),
            Detail::Account(labels) => {
                account_over(alloc, self, frame, &verdict, cause.as_ref(), labels)
            }
        };
        (Answer::Judged(verdict), behind)
    }
}

/// The verdict on the bytes of a frame over the judged shapes of this certificate: the first that applies of 2, 49, the frame's
/// first fault, and the yes; and the cause of that fault.
fn verdict_over<E: Entries>(
    shapes: &JudgedShapes<E>,
    cert: &Cert,
    frame: &[u8],
    budget: u32,
) -> (Result<Yes, FrameRefusal>, Option<Finding>)
    ensures { VerdictOver shapes.now (length cert.now.entries) frame.now budget result.0 }
{
    let frame = match frame_of(frame, budget) {
        Ok(frame) => frame,
        Err(refusal) => return (Err(FrameRefusal::Check(refusal)), None),
    };
    match shapes.judge_frame(&frame, budget) {
        Ok(accepted) => {
            let yes = Yes {
                shapes: cert.entries().len() as u32,
                words: accepted.words,
                depth: accepted.depth,
            };
            (Ok(yes), None)
        }
        Err(finding) => {
            let refusal = Refusal::Frame(finding.fault);
            (
                Err(FrameRefusal::Check(refusal)),
                Some(Finding::Frame(finding)),
            )
        }
    }
}

/// The account of this verdict on the bytes of a frame over judged shapes.
fn account_over<'a, E: Entries>(
    alloc: Global,
    given: &GivenCertificate<'a, E>,
    frame: &'a [u8],
    verdict: &Result<Yes, FrameRefusal>,
    cause: Option<&Finding>,
    labels: Option<&'a Labels>,
) -> Behind
    ensures { IsBehind (details.Account None) result }
{
    let inputs = Inputs {
        machine: given.machine,
        rom: given.rom,
        map: Some(given.cert.map()),
        cert: Some(given.cert),
        frame,
        budget: given.budget,
        window: given.shapes.window(),
        mode: given.mode,
        labels,
        others: None,
    };
    frame_text(alloc, &inputs, verdict, cause).map(Some)
}
