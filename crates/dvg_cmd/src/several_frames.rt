//! Running a judge of frames on several frames, one after another.

ghost use Rattle.std.specs.Prelude.{◌≡◌, ◌⊎◌, length, Ok, Err, IfOk, IfErr, OnErr, is_err};
ghost use Rattle.std.specs.Iterator.{IsFinite};
ghost use Rattle.dvg_words.specs.Memory.{IsRomLength};
ghost use Rattle.dvg_text.specs.Devices.{count_after};
ghost use Rattle.dvg_check.specs.Causes.{refusal_of};
ghost use Rattle.dvg_cmd.specs.Detail.{IsBehind};
ghost use Rattle.dvg_cmd.specs.Frames.{JudgesAlike};
ghost use Rattle.dvg_cmd.specs.SeveralFrames.{AnswersOpened, IsLineOfFrame, of_frames, ReportsRefusal, ReportsRefusalPrefix, RefusesShapes, judged_given};
ghost use Rattle.dvg_cmd.specs.Telling.{HoldsOfAll, HoldsOfTaken, Reports, ReportsPrefix, no_line};
ghost use Rattle.dvg_cmd.specs.Remarking.{IsBehindFrame, answer_detail};

use crate::detail::{Behind, Detail};
use crate::frame_judge::{FrameJudge, GivenCertificate};
use crate::frame_run::{answer_of, unread_account};
use crate::listing::Listing;
use crate::progress::Progress;
use crate::remarking::{BehindFrame, FrameDetail};
use crate::running::{text_account, write_report};
use crate::summary::FramesSummary;
use crate::telling::{Tell, run_each};
use dvg_account::{Inputs, verdict_text};
use dvg_cert::{Cert, HashIndex};
use dvg_check::{Finding, JudgedShapes, Mode, Refusal};
use dvg_spelling::{Answer, FrameAnswer, Outcome, RunFault};
use dvg_text::{CountedRead, CountedWrite, RefusedText, WriteFault};
use dvg_words::{Machine, RomImage, Window};
use std::alloc::Global;

/// A frame or a recipe whose turn it is.
#[derive(Drop)]
pub struct NamedReader<R> {
    /// The name in its line, which has no control characters.
    pub name: String,
    /// What reads it, or `None` if it can't be opened.
    pub reader: Option<R>,
}

/// What is asked of frames.
#[derive(Clone, Copy)]
pub struct FrameOptions {
    /// The machine that runs the frames.
    pub machine: Machine,
    /// The word address at which each frame starts, if not at word 000.
    pub start: Option<u16>,
    /// How many words a frame may take at most.
    pub budget: u32,
    /// Where strokes may be lit. On the profile a yes for `CLIPPED` says nothing of the screen.
    pub window: Window,
}

/// The answer to a frame of this name whose turn it is, and what the detail asks for behind its line.
fn answer_opened<J: FrameJudge, R: CountedRead + Drop>(
    alloc: Global,
    judge: &mut J,
    start: Option<u16>,
    name: &str,
    reader: Option<R>,
    detail: FrameDetail,
) -> (FrameAnswer, BehindFrame)
    requires { J.valid judge.old (answer_detail detail) }
    ensures answers { AnswersOpened R.remaining R.failures (J.judging judge.old) start reader result.0 }
    ensures behind { IsBehindFrame detail.entry result.0 result.1 }
    ensures valid { J.valid judge.new (answer_detail detail.entry) }
    ensures same { JudgesAlike (J.judging judge.old) (J.judging judge.new) }
{
    match reader {
        Some(mut reader) => answer_of(alloc, judge, start, name, &mut reader, detail),
        None => (
            Answer::Unread,
            BehindFrame::Answer(
                unread_account(judge.machine(), alloc, detail.of_answer()),
                None,
            ),
        ),
    }
}

/// A judge that tells of frames.
#[derive(Drop)]
struct FrameTeller<'j, 'a, J> {
    judge: &'j mut J,
    start: Option<u16>,
    listing: Listing<FrameDetail<'a>>,
}

impl<'j, 'a, J: FrameJudge, R: CountedRead + Drop> Tell<NamedReader<R>> for FrameTeller<'j, 'a, J> {
    type Answer = (FrameAnswer, BehindFrame);

    type Tally = FramesSummary;

    ghost valid = { λ teller. J.valid teller.judge.now (answer_detail teller.listing.detail) };

    ghost is_line_of = { λ teller. IsLineOfFrame R.remaining R.failures (J.judging teller.judge.now) teller.start teller.listing.detail };

    ghost telling = { λ teller. of_frames teller.listing };

    #[tactic(auto, using(crate::proofs::Alike::lines_alike))]
    fn tell<W: CountedWrite>(
        &mut self,
        alloc: Global,
        thing: NamedReader<R>,
        progress: &mut Progress<FramesSummary>,
        out: &mut W,
    ) -> Result<(), WriteFault> {
        let NamedReader { name, reader } = thing;
        let detail = self.listing.detail;
        let (answer, behind) = answer_opened(
            alloc,
            self.judge,
            self.start,
            name.as_str(),
            reader,
            detail,
        );
        let outcome = behind.outcome_with(answer.outcome());
        let report = answer.line();
        progress.write_line(
            outcome,
            name.as_str(),
            report.as_bytes(),
            behind.text(),
            out,
        )?;
        progress.tally.add(alloc, name, &answer, behind);
        progress.add(outcome);
        Ok(())
    }
}

/// Before the first frame.
fn no_frame(listing: Listing<FrameDetail>) -> Progress<FramesSummary>
    ensures { result ≡ no_line (of_frames listing.entry) }
{
    let apart = listing.detail.of_answer().has_account();
    Progress::new(listing.layout(apart), FramesSummary::new())
}

/// Judges frames, one after another, and writes a line for each that the listing has: the name, which has no control characters, a
/// colon, a space, and the report; and behind it what the detail asks for: an account of the answer, which a blank line sets apart from
/// what was written before, or the remarks on an accepted frame. At the end it writes the summary if it is asked for, behind lines of the
/// frames that take most if lines tell clocks, and of how many remarks there are if these are asked for. It answers the worst outcome.
///
/// With a start, which is below 1000 hexadecimal, a frame is judged as though its word 000 were the jump there. Each frame is read to
/// its end, or to one byte past its limit, and nothing is tried again. A frame that can't be opened or read has a line, too. The next
/// frame is taken once the line of the one before it is written. The only fault is 73, if the writer failed, and then a prefix of
/// these lines was written.
pub fn run_frames<
    J: FrameJudge,
    R: CountedRead + Drop,
    I: Iterator<Item = NamedReader<R>> + Drop,
    W: CountedWrite,
>(
    alloc: Global,
    judge: &mut J,
    start: Option<u16>,
    frames: I,
    listing: Listing<FrameDetail>,
    out: &mut W,
) -> Result<Outcome, RunFault>
    requires valid { J.valid judge.old (answer_detail listing.detail) }
    requires can { I.can_next frames }
    requires ends { IsFinite (I.remaining frames) }

    // A line is written for each frame that the listing has, in their order, and then the summary, each by one write if it fits one.
    // Of each accepted frame it says what a yes means (`AnswersFrame`).
    ensures report { IfOk result (λ end. HoldsOfAll I.next_gives frames (λ taken.
        Reports (IsLineOfFrame R.remaining R.failures (J.judging judge.old) start listing.entry.detail) (of_frames listing.entry) taken
        (W.contents out.old) (W.contents out.new)
        (W.whole_writes out.old) (W.whole_writes out.new) end)) }

    // Where the writer failed, a prefix of what is written of the frames that were taken.
    ensures prefix { OnErr result (HoldsOfTaken I.next_gives frames (λ taken.
        ReportsPrefix (IsLineOfFrame R.remaining R.failures (J.judging judge.old) start listing.entry.detail) (of_frames listing.entry) taken
        (W.contents out.old) (W.contents out.new))) }
    ensures fault { IfErr result (λ fault. fault ≡ RunFault.Write) }
    ensures count { W.failures out.new ≡ count_after (is_err result) (W.failures out.old) }
{
    let mut teller = FrameTeller {
        judge,
        start,
        listing,
    };
    Ok(run_each(alloc, &mut teller, no_frame(listing), frames, out)?)
}

/// The bytes of a ROM and a certificate by which frames are judged, and what is asked of them.
#[derive(Clone, Copy)]
struct Given<'a> {
    rom: &'a [u8],
    cert: &'a Cert,
    options: &'a FrameOptions,
}

impl<'a> Given<'a> {
    /// What the detail asks for behind the line of a refusal of the ROM or of a shape, with this cause.
    fn refusal_account(&self, alloc: Global, cause: &Finding, detail: Detail<'a>) -> Behind
        requires { RefusesShapes self.now.options.now.machine self.now.options.now.window self.now.rom.now self.now.cert.now
            (refusal_of cause.now) }
        ensures { IsBehind detail.entry result }
    {
        let Detail::Account(labels) = detail else {
            return Ok(None);
        };
        let inputs = Inputs {
            machine: self.options.machine,
            rom: self.rom,
            map: Some(self.cert.map()),
            cert: Some(self.cert),
            frame: &[],
            budget: 1,
            window: self.options.window,
            mode: Mode::Bound,
            labels,
            others: None,
        };
        let verdict = Err(cause.refusal());
        verdict_text(alloc, &inputs, &verdict, Some(cause)).map(Some)
    }

    /// Writes the report of that refusal, and what the detail asks for behind it.
    fn refuse<W: CountedWrite>(
        &self,
        alloc: Global,
        cause: &Finding,
        detail: Detail<'a>,
        out: &mut W,
    ) -> Result<Outcome, RunFault>
        requires { RefusesShapes self.now.options.now.machine self.now.options.now.window self.now.rom.now self.now.cert.now
            (refusal_of cause.now) }
        ensures report { IfOk result (ReportsRefusal self.now.options.now.machine detail.entry self.now.options.now.window
            self.now.rom.now (Ok self.now.cert.now)
            (W.contents out.old) (W.contents out.new) (W.whole_writes out.old) (W.whole_writes out.new)) }
        ensures prefix { OnErr result (ReportsRefusalPrefix self.now.options.now.machine detail.entry self.now.options.now.window
            self.now.rom.now (Ok self.now.cert.now)
            (W.contents out.old) (W.contents out.new)) }
        ensures fault { IfErr result (λ fault. fault ≡ RunFault.Write) }
        ensures count { W.failures out.new ≡ count_after (is_err result) (W.failures out.old) }
    {
        let behind = self.refusal_account(alloc, cause, detail);
        write_report(&Err(cause.refusal()), &behind, out)
    }
}

/// Judges frames by a given certificate, one after another, and writes a line for each, as [`run_frames`] does; or the line of the
/// refusal of the certificate, of the ROM's length or of a shape, and no frame is taken.
///
/// The counts of the certificate are bounds.
pub fn run_frames_given<
    R: CountedRead + Drop,
    I: Iterator<Item = NamedReader<R>> + Drop,
    W: CountedWrite,
>(
    alloc: Global,
    rom: &[u8],
    cert: &Result<Cert, RefusedText>,
    options: &FrameOptions,
    frames: I,
    listing: Listing<FrameDetail>,
    out: &mut W,
) -> Result<Outcome, RunFault>
    requires can { I.can_next frames }
    requires ends { IsFinite (I.remaining frames) }

    // The report of a refusal is written, or a line for each frame, in their order, each by one write if it fits one.
    ensures report { IfOk result (λ end. ReportsRefusal options.now.machine (answer_detail listing.entry.detail) options.now.window rom.now cert.now
        (W.contents out.old) (W.contents out.new) (W.whole_writes out.old) (W.whole_writes out.new) end
        ⊎ IfOk cert.now (λ given. IsRomLength given.map (length rom.now)
        × HoldsOfAll I.next_gives frames (λ taken.
        Reports (IsLineOfFrame R.remaining R.failures
        (judged_given options.now.machine options.now.window rom.now given options.now.budget) options.now.start listing.entry.detail)
        (of_frames listing.entry) taken
        (W.contents out.old) (W.contents out.new) (W.whole_writes out.old) (W.whole_writes out.new) end))) }
    // Without a certificate it is the refusal.
    ensures refused { IfOk result (λ end. IfErr cert.now (λ fault. ReportsRefusal options.now.machine (answer_detail listing.entry.detail)
        options.now.window rom.now cert.now (W.contents out.old) (W.contents out.new) (W.whole_writes out.old)
        (W.whole_writes out.new) end)) }

    // Where the writer failed, a prefix of them.
    ensures prefix { OnErr result (ReportsRefusalPrefix options.now.machine (answer_detail listing.entry.detail) options.now.window rom.now cert.now
        (W.contents out.old) (W.contents out.new)
        ⊎ IfOk cert.now (λ given. IsRomLength given.map (length rom.now)
        × HoldsOfTaken I.next_gives frames (λ taken.
        ReportsPrefix (IsLineOfFrame R.remaining R.failures
        (judged_given options.now.machine options.now.window rom.now given options.now.budget) options.now.start listing.entry.detail)
        (of_frames listing.entry) taken
        (W.contents out.old) (W.contents out.new)))) }
    ensures fault { IfErr result (λ fault. fault ≡ RunFault.Write) }
    ensures count { W.failures out.new ≡ count_after (is_err result) (W.failures out.old) }
{
    let detail = listing.detail.of_answer();
    let cert = match cert {
        Ok(cert) => cert,
        Err(refused) => {
            let refusal = Refusal::Cert(refused.fault());
            let behind = text_account(options.machine, alloc, refused, detail);
            return write_report(&Err(refusal), &behind, out);
        }
    };
    let given = Given { rom, cert, options };
    let FrameOptions {
        machine,
        start,
        budget,
        window,
    } = *options;
    let Ok(image) = RomImage::from_bytes_on(machine, rom, cert.map()) else {
        return given.refuse(alloc, &Finding::RomLength, detail, out);
    };
    let Ok(entries) = HashIndex::new(alloc, cert) else {
        return given.refuse(alloc, &Finding::IndexMemory, detail, out);
    };
    let mode = Mode::Bound;
    match JudgedShapes::judge_shapes(&image, cert, &entries, window, mode) {
        Ok(shapes) => {
            let mut judge = GivenCertificate {
                machine,
                rom,
                cert,
                shapes: &shapes,
                mode,
                budget,
            };
            run_frames(alloc, &mut judge, start, frames, listing, out)
        }
        Err(finding) => given.refuse(alloc, &Finding::Shape(finding), detail, out),
    }
}
