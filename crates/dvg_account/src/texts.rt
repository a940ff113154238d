//! The accounts of answers, as texts. Where labels are given, they name the addresses: `SHIP+3 (819)` is three words past `SHIP`.

use crate::inputs::{Inputs, PlainWhy, push_plain_refusal, push_refused_text};
use crate::leaving::push_leaving;
use crate::lines::Lines;
use crate::making::{push_made, push_unmade};
use crate::spelling::{CertificateOf, Telling};
use crate::swapped::{Swapped, find_swapped};
use crate::text::Text;
use crate::time::{push_slow, push_time};
use crate::verdicts::{push_own, push_verdict};
use dvg_cert::Cert;
use dvg_check::{Finding, Refusal, Yes};
use dvg_clocks::{FrameTime, TimedJudging, TimedRefusal};
use dvg_labels::Labels;
use dvg_make::{FrameRefusal, JudgedFrame, MakeAccount, own_verdict};
use dvg_text::RefusedText;
use dvg_words::{FrameImage, Machine, RomImage};
use std::alloc::{AllocError, Global};

/// An account that speaks of a frame's own certificate, or of none.
fn own_account<'a>(alloc: Global, labels: Option<&'a Labels>) -> Lines<'a> {
    Lines::new(alloc, Telling::new(CertificateOf::Frame, None), labels)
}

/// What the words of an account of this verdict depend on. Of a refusal because of an item, or by the maker, it is found out which input
/// gets it accepted once its bytes are swapped.
fn telling_of(
    alloc: Global,
    cert: CertificateOf,
    inputs: &Inputs,
    verdict: &Result<Yes, FrameRefusal>,
) -> Result<Telling, AllocError> {
    let swapped = match verdict {
        Err(FrameRefusal::Make { .. })
        | Err(FrameRefusal::Check(Refusal::Shape(_) | Refusal::Frame(_))) => {
            find_swapped(alloc, inputs)?
        }
        _ => None,
    };
    Ok(Telling::new(cert, swapped))
}

/// The account of a verdict on these inputs (this project's own). A refusal because of an item has a cause, and its account tells first
/// what [`find_swapped`] finds.
pub fn verdict_text(
    alloc: Global,
    inputs: &Inputs,
    verdict: &Result<Yes, Refusal>,
    cause: Option<&Finding>,
) -> Result<String, AllocError> {
    let verdict = verdict.map_err(FrameRefusal::Check);
    text_by(alloc, CertificateOf::User, inputs, &verdict, cause)
}

/// The account of a verdict on a frame, by the certificate of these inputs, if they have one (this project's own). A refusal because of an
/// item has a cause. Of that, and of a refusal by the maker, the account tells first what [`find_swapped`] finds.
pub fn frame_text(
    alloc: Global,
    inputs: &Inputs,
    verdict: &Result<Yes, FrameRefusal>,
    cause: Option<&Finding>,
) -> Result<String, AllocError> {
    let cert = match inputs.cert {
        Some(_) => CertificateOf::User,
        None => CertificateOf::Frame,
    };
    text_by(alloc, cert, inputs, verdict, cause)
}

/// That account, by this certificate.
fn text_by(
    alloc: Global,
    cert: CertificateOf,
    inputs: &Inputs,
    verdict: &Result<Yes, FrameRefusal>,
    cause: Option<&Finding>,
) -> Result<String, AllocError> {
    let telling = telling_of(alloc, cert, inputs, verdict)?;
    let mut lines = Lines::new(alloc, telling, inputs.labels);
    push_verdict(&mut lines, inputs, verdict, cause)?;
    lines.finish()
}

/// The account of the verdict on a frame by its own certificate, or of why none is made, with the time that the frame takes on the board.
fn own_text(
    alloc: Global,
    inputs: &Inputs,
    rom: &RomImage,
    frame: &FrameImage,
    judged: Result<JudgedFrame, MakeAccount>,
    time: Option<FrameTime>,
) -> Result<String, AllocError> {
    let telling = telling_of(alloc, CertificateOf::Frame, inputs, &own_verdict(&judged))?;
    let mut lines = Lines::new(alloc, telling, inputs.labels);
    push_own(&mut lines, inputs, rom, frame, judged)?;
    if let (Machine::Board, Some(time)) = (inputs.machine, time) {
        push_time(&mut lines, &time);
    }
    lines.finish()
}

/// The account of a frame that was judged by its own certificate, with its time (this project's own): that of the verdict, behind which the
/// time is told that an accepted frame takes on the board; or where it may take more than `limit` clocks, that of its refusal with 58. Of a
/// refusal because of an item, or by the maker, it tells first what [`find_swapped`] finds.
pub fn timed_text(
    alloc: Global,
    inputs: &Inputs,
    rom: &RomImage,
    frame: &FrameImage,
    timed: TimedJudging,
    limit: u64,
) -> Result<String, AllocError> {
    let TimedJudging {
        judged,
        answer,
        time,
    } = timed;
    match (answer, time?) {
        (Err(TimedRefusal::Slow { at }), Some(time)) => {
            let mut lines = own_account(alloc, inputs.labels);
            push_slow(&mut lines, inputs, frame, at, limit, &time);
            lines.finish()
        }
        (_, time) => own_text(alloc, inputs, rom, frame, judged, time),
    }
}

/// The account of a refusal with this number before any item was judged on a machine, where no certificate was given (this project's own).
pub fn plain_text(
    machine: Machine,
    alloc: Global,
    number: u8,
    why: PlainWhy,
    labels: Option<&Labels>,
) -> Result<String, AllocError> {
    let mut lines = own_account(alloc, labels);
    push_plain_refusal(&mut lines, machine, number, why);
    lines.finish()
}

/// The account of a frame on the board that leaves a recipe at a word address, where an item of one of these lines of the recipe's text
/// could stand (this project's own).
pub fn leaving_text(
    alloc: Global,
    frame: &FrameImage,
    at: u16,
    could_stand: Vec<u32>,
    labels: Option<&Labels>,
) -> Result<String, AllocError> {
    let mut lines = own_account(alloc, labels);
    push_leaving(&mut lines, frame, at, &could_stand);
    lines.finish()
}

/// The account of a certificate's text that is refused (this project's own).
pub fn certificate_text(
    machine: Machine,
    alloc: Global,
    refused: &RefusedText,
    labels: Option<&Labels>,
) -> Result<String, AllocError> {
    let mut lines = Lines::new(alloc, Telling::new(CertificateOf::User, None), labels);
    push_refused_text(&mut lines, machine, refused.fault(), refused.why());
    lines.finish()
}

/// A word address as accounts spell it: with the label that names it, if one does, as in `SHIP+3 (819)`.
pub fn address_text(
    alloc: Global,
    addr: u16,
    labels: Option<&Labels>,
) -> Result<String, AllocError> {
    let mut text = Text::new(alloc, labels);
    text.push_address(addr);
    text.finish()
}

/// The account of a certificate that is made for a machine (this project's own).
pub fn made_text(
    machine: Machine,
    alloc: Global,
    cert: &Cert,
    labels: Option<&Labels>,
) -> Result<String, AllocError> {
    let mut lines = own_account(alloc, labels);
    push_made(&mut lines, machine, cert);
    lines.finish()
}

/// The account of a refusal of the maker over a ROM, which was asked for the entries of these frames, too (this project's own).
pub fn unmade_text(
    alloc: Global,
    rom: &RomImage,
    frames: &[FrameImage],
    account: MakeAccount,
    labels: Option<&Labels>,
) -> Result<String, AllocError> {
    let mut lines = own_account(alloc, labels);
    push_unmade(&mut lines, rom, frames, &account)?;
    lines.finish()
}
