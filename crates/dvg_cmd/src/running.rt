//! Running a check over readers and a writer.

ghost use Rattle.std.specs.Prelude.{◌≡◌, ◌≤◌, ◌++◌, ℕ, List, Option, Ok, Err, IfOk, IfErr, OnOk, OnErr, is_err, true};
ghost use Rattle.std.specs.Io.KnownBytes.{Appends};
ghost use Rattle.dvg_words.specs.declared.machine.Machine.TheVariants.{Profile};
ghost use Rattle.dvg_cert.specs.declared.limits.TheConstants.{MOST_WORDS};
ghost use Rattle.dvg_text.specs.Devices.{AppendsPrefix, TakesOneWrite, count_after};
ghost use Rattle.dvg_spelling.specs.Report.{report_text};
ghost use Rattle.dvg_cmd.specs.Detail.{IsBehind, behind_text, outcome_behind};
ghost use Rattle.dvg_cmd.specs.Runs.{CountsFaults, ReadsInOrder, MOST_ROM_READ, MOST_FRAME_READ, IsReadFor, Judges, MeansRead, outcome_of, Reports, ReportsPrefix, ReportsAccepted};
ghost use Rattle.dvg_cmd.specs.declared.detail.Detail.TheVariants as details;
ghost use Rattle.dvg_cmd.specs.Private.Judging.{JudgesRom};
ghost use Rattle.dvg_cmd.specs.Private.Reading.{IsPrefix};

use crate::detail::{Behind, Detail, behind_text, outcome_behind};
use crate::reading::{read_certificate, read_frame, read_rom, skip};
use dvg_account::{Inputs, certificate_text, verdict_text};
use dvg_cert::Cert;
use dvg_check::{Finding, Mode, Refusal, Yes, frame_of, judge_rom};
use dvg_spelling::{Outcome, RunFault, outcome_of, report_of};
use dvg_text::laws::prefix_refusal;
use dvg_text::{CountedRead, CountedWrite, RefusedText, write_lines};
use dvg_words::{FrameImage, Machine, RomMap, Window};
use std::alloc::Global;
use std::io;

/// How many bytes of a certificate are read at most: one past its limit.
const PAST_CERTIFICATE_LIMIT: usize = 1_048_577;

/// What is asked of a frame, a ROM and a certificate.
#[derive(Clone, Copy)]
pub struct CheckOptions {
    /// The machine that runs the frame.
    pub machine: Machine,
    /// How many words the frame may take at most.
    pub budget: u32,
    /// Where strokes may be lit. On the profile a yes for `CLIPPED` says nothing of the screen.
    pub window: Window,
    /// Whether the certificate's counts are bounds or exact.
    pub mode: Mode,
}

/// A verdict on a ROM, a certificate and a frame.
#[derive(Drop)]
pub struct Judgment {
    pub verdict: Result<Yes, Refusal>,
    /// The cause of a refusal, if the ROM was looked at.
    pub cause: Option<Finding>,
    /// The certificate, if it was taken.
    pub cert: Option<Cert>,
    /// Its text, if that was refused.
    pub refused: Option<RefusedText>,
}

impl Judgment {
    /// Where the ROM lies, by the certificate.
    pub fn map(&self) -> Option<RomMap> {
        match &self.cert {
            Some(cert) => Some(cert.map()),
            None => None,
        }
    }
}

/// The verdict on the bytes of a ROM and on a frame by a certificate, and the cause of a refusal.
fn judge_taken(
    alloc: Global,
    rom: &[u8],
    frame: &FrameImage,
    cert: &Cert,
    options: &CheckOptions,
) -> (Result<Yes, Refusal>, Option<Finding>)
    requires { options.now.budget ≤ MOST_WORDS }
    ensures { JudgesRom options.now.machine options.now.mode options.now.window rom.now cert.now frame.now options.now.budget result.0 }
{
    let CheckOptions {
        budget,
        window,
        mode,
        ..
    } = *options;
    let judged = judge_rom(
        options.machine,
        alloc,
        rom,
        frame,
        cert,
        budget,
        window,
        mode,
    );
    match judged {
        Ok(yes) => (Ok(yes), None),
        Err(cause) => (Err(cause.refusal()), Some(cause)),
    }
}

/// The verdict on the bytes of a ROM and of a frame and on the certificate that a reader holds. If the frame or the budget is
/// refused, the certificate is read all the same, and nothing of it is kept.
#[tactic(auto, using(crate::proofs::Reporting::judges_range, crate::proofs::Reporting::judges_refused, crate::proofs::Reporting::judges_cert))]
pub fn read_verdict<R: CountedRead>(
    alloc: Global,
    rom: &[u8],
    cert: &mut R,
    frame: &[u8],
    options: &CheckOptions,
) -> io::Result<Judgment>
    ensures verdict { (rom_held frame_held : Option (List ℕ)) → IsPrefix MOST_ROM_READ rom_held rom.now
        → IsPrefix MOST_FRAME_READ frame_held frame.now
        → IfOk result (λ judged. Judges options.now.machine options.now.mode options.now.window rom_held
        (R.remaining cert.old) frame_held options.now.budget judged.verdict) }
    ensures read { IfOk result (λ judged. IsReadFor judged.verdict (R.remaining cert.old) (R.remaining cert.new)) }
    ensures count { R.failures cert.new ≡ count_after (is_err result) (R.failures cert.old) }
{
    // By this law the refusal of what was read is the refusal of the whole text.
    prefix_refusal();
    let frame = match frame_of(frame, options.budget) {
        Ok(frame) => frame,
        Err(refusal) => {
            skip(cert, PAST_CERTIFICATE_LIMIT)?;
            return Ok(Judgment {
                verdict: Err(refusal),
                cause: None,
                cert: None,
                refused: None,
            });
        }
    };
    match read_certificate(alloc, cert)? {
        Ok(taken) => {
            let (verdict, cause) = judge_taken(alloc, rom, &frame, &taken, options);
            Ok(Judgment {
                verdict,
                cause,
                cert: Some(taken),
                refused: None,
            })
        }
        Err(text) => Ok(Judgment {
            verdict: Err(Refusal::Cert(text.fault())),
            cause: None,
            cert: None,
            refused: Some(text),
        }),
    }
}

/// What the detail asks for behind the refusal of a certificate's text.
pub fn text_account(
    machine: Machine,
    alloc: Global,
    refused: &RefusedText,
    detail: Detail,
) -> Behind
    ensures { IsBehind detail.entry result }
{
    match detail {
        Detail::Line => Ok(None),
        Detail::Account(labels) => certificate_text(machine, alloc, refused, labels).map(Some),
    }
}

/// What the detail asks for behind the report of a verdict on these bytes.
fn account_of<'a>(
    alloc: Global,
    rom: &'a [u8],
    frame: &'a [u8],
    judged: &'a Judgment,
    options: &CheckOptions,
    detail: Detail<'a>,
) -> Behind
    ensures { IsBehind detail.entry result }
{
    if let Some(refused) = &judged.refused {
        return text_account(options.machine, alloc, refused, detail);
    }
    let Detail::Account(labels) = detail else {
        return Ok(None);
    };
    let inputs = Inputs {
        machine: options.machine,
        rom,
        map: judged.map(),
        cert: judged.cert.as_ref(),
        frame,
        budget: options.budget,
        window: options.window,
        mode: options.mode,
        labels,
        others: None,
    };
    verdict_text(alloc, &inputs, &judged.verdict, judged.cause.as_ref()).map(Some)
}

/// Writes the report of a verdict, and a text behind it.
pub fn write_report<W: CountedWrite>(
    verdict: &Result<Yes, Refusal>,
    behind: &Behind,
    out: &mut W,
) -> Result<Outcome, RunFault>
    ensures outcome { IfOk result (λ outcome. outcome ≡ outcome_behind behind.now (outcome_of verdict.now)) }
    ensures written { OnOk result (Appends (W.contents out.old) (W.contents out.new) (report_text verdict.now ++ behind_text behind.now)) }
    ensures one_write { OnOk result (TakesOneWrite (report_text verdict.now ++ behind_text behind.now)
        (W.whole_writes out.old) (W.whole_writes out.new)) }
    ensures prefix { OnErr result (AppendsPrefix (W.contents out.old) (W.contents out.new)
        (report_text verdict.now ++ behind_text behind.now)) }
    ensures line_write { IsBehind details.Line behind.now → OnOk result
        (W.whole_writes out.new ≡ count_after true (W.whole_writes out.old)) }
    ensures fault { IfErr result (λ fault. fault ≡ RunFault.Write) }
    ensures count { W.failures out.new ≡ count_after (is_err result) (W.failures out.old) }
{
    let report = report_of(verdict);
    write_lines(report.as_bytes(), behind_text(behind).as_bytes(), &[], out)?;
    Ok(outcome_behind(behind, outcome_of(verdict)))
}

/// Reads a ROM, a frame and a certificate, in this order, and writes the report of the verdict on them, and an account of it if the
/// detail asks for one.
///
/// It reads and ends as [`run_check`] does.
pub fn run_check_in<R1: CountedRead, R2: CountedRead, R3: CountedRead, W: CountedWrite>(
    alloc: Global,
    rom: &mut R1,
    cert: &mut R2,
    frame: &mut R3,
    options: &CheckOptions,
    detail: Detail,
    out: &mut W,
) -> Result<Outcome, RunFault>
    // A fault of 70 to 73 comes exactly where its device failed in this call, and the device's count then rises by one.
    ensures counts { CountsFaults result (R1.failures rom.old) (R1.failures rom.new) (R2.failures cert.old) (R2.failures cert.new)
        (R3.failures frame.old) (R3.failures frame.new) (W.failures out.old) (W.failures out.new) }

    // With an outcome the ROM and the frame were read to their end or to one byte past their limit, whatever was known by
    // then. After a failed read no later device is touched, and by the counts none is called again.
    ensures reads { ReadsInOrder result (R1.remaining rom.old) (R1.remaining rom.new)
        (R3.remaining frame.old) (R3.remaining frame.new) frame.old frame.new cert.old cert.new out.old out.new }

    // What is written is the report of the verdict on all bytes that the readers held, with its account, or a prefix of them.
    ensures report { IfOk result (Reports options.now.machine detail.entry options.now.mode options.now.window
        (R1.remaining rom.old) (R2.remaining cert.old)
        (R2.remaining cert.new) (R3.remaining frame.old) options.now.budget (W.contents out.old) (W.contents out.new)
        (W.whole_writes out.old) (W.whole_writes out.new)) }
    ensures prefix { result ≡ Err RunFault.Write → ReportsPrefix options.now.machine detail.entry options.now.mode
        options.now.window (R1.remaining rom.old)
        (R2.remaining cert.old) (R3.remaining frame.old) options.now.budget (W.contents out.old) (W.contents out.new) }
    ensures one_write { detail.entry ≡ details.Line → OnOk result (W.whole_writes out.new ≡ count_after true (W.whole_writes out.old)) }

    // What is accepted is safe, with the counts of the line that was written: all that a yes means, in this mode and on this machine.
    ensures means { result ≡ Ok Outcome.Accepted → ReportsAccepted detail.entry (W.contents out.old) (W.contents out.new)
        (MeansRead options.now.machine options.now.mode options.now.window
        (R1.remaining rom.old) (R2.remaining cert.old) (R3.remaining frame.old)) }
{
    let Ok(rom) = read_rom(rom) else {
        return Err(RunFault::ReadRom);
    };
    let Ok(frame) = read_frame(frame) else {
        return Err(RunFault::ReadFrame);
    };
    let Ok(judged) = read_verdict(alloc, rom.as_slice(), cert, frame.as_slice(), options) else {
        return Err(RunFault::ReadCert);
    };
    let behind = account_of(
        alloc,
        rom.as_slice(),
        frame.as_slice(),
        &judged,
        options,
        detail,
    );
    write_report(&judged.verdict, &behind, out)
}

/// Reads a ROM, a frame and a certificate, in this order, and writes the report of the verdict on them on the profile's machine.
///
/// The ROM lies where the certificate says; `window` is where strokes may be lit, and `mode` says whether the claimed counts are
/// bounds or exact. A yes for `CLIPPED` says nothing of the screen. Each input is read to its end, or to one byte past its limit:
/// 4096 bytes for a ROM, 2048 for a frame, 1,048,576 for a certificate; a certificate that is refused, no further than the piece of
/// 4096 bytes in which that is known. No more is kept of a certificate than that piece, the line begun and the entries. The first
/// failed read or write ends the run, and nothing is tried again. On 70, 71 and 72 nothing was written, on 73 a prefix of the report.
/// 74 never comes.
pub fn run_check<R1: CountedRead, R2: CountedRead, R3: CountedRead, W: CountedWrite>(
    alloc: Global,
    rom: &mut R1,
    cert: &mut R2,
    frame: &mut R3,
    budget: u32,
    window: Window,
    mode: Mode,
    out: &mut W,
) -> Result<Outcome, RunFault>
    // A fault of 70 to 73 comes exactly where its device failed in this call, and the device's count then rises by one.
    ensures counts { CountsFaults result (R1.failures rom.old) (R1.failures rom.new) (R2.failures cert.old) (R2.failures cert.new)
        (R3.failures frame.old) (R3.failures frame.new) (W.failures out.old) (W.failures out.new) }

    // With an outcome the ROM and the frame were read to their end or to one byte past their limit, whatever was known by
    // then. After a failed read no later device is touched, and by the counts none is called again.
    ensures reads { ReadsInOrder result (R1.remaining rom.old) (R1.remaining rom.new) (R3.remaining frame.old)
        (R3.remaining frame.new) frame.old frame.new cert.old cert.new out.old out.new }

    // What is written is the report of the verdict on all bytes that the readers held, or a prefix of it. The certificate was
    // read as far as the ROM, or so far that its own refusal was known.
    ensures report { IfOk result (Reports Profile details.Line mode window (R1.remaining rom.old) (R2.remaining cert.old)
        (R2.remaining cert.new)
        (R3.remaining frame.old) budget (W.contents out.old) (W.contents out.new) (W.whole_writes out.old) (W.whole_writes out.new)) }
    ensures prefix { result ≡ Err RunFault.Write → ReportsPrefix Profile details.Line mode window (R1.remaining rom.old)
        (R2.remaining cert.old)
        (R3.remaining frame.old) budget (W.contents out.old) (W.contents out.new) }

    // Just one write took its whole piece: it is the only one, if the writer takes the line whole.
    ensures one_write { OnOk result (W.whole_writes out.new ≡ count_after true (W.whole_writes out.old)) }

    // What is accepted is safe, with the counts of the line that was written, and in the mode `Exact` these are the counts of
    // each run.
    ensures means { result ≡ Ok Outcome.Accepted → ReportsAccepted details.Line (W.contents out.old) (W.contents out.new)
        (MeansRead Profile mode window (R1.remaining rom.old) (R2.remaining cert.old) (R3.remaining frame.old)) }
{
    let options = CheckOptions {
        machine: Machine::Profile,
        budget,
        window,
        mode,
    };
    run_check_in(alloc, rom, cert, frame, &options, Detail::Line, out)
}
