//! The accounts of verdicts.

use crate::accepted::push_accepted;
use crate::inputs::{Inputs, PlainWhy, push_plain_refusal};
use crate::lines::Lines;
use crate::making::push_unmade;
use crate::refused::push_refused;
use dvg_check::{Finding, Mode, Yes};
use dvg_make::{EntryCause, FrameRefusal, JudgedFrame, MakeAccount, MakeFault};
use dvg_words::{FrameImage, RomImage};
use std::alloc::AllocError;
use std::slice;

/// Adds the lines of a verdict on these inputs (this project's own). A refusal because of an item has a cause. A refusal of the maker has
/// the lines of one for memory: `push_own` has its own.
pub fn push_verdict(
    lines: &mut Lines,
    inputs: &Inputs,
    verdict: &Result<Yes, FrameRefusal>,
    cause: Option<&Finding>,
) -> Result<(), AllocError> {
    let rom = match inputs.cert {
        Some(cert) => RomImage::from_bytes_on(inputs.machine, inputs.rom, cert.map()).ok(),
        None => None,
    };
    let frame = FrameImage::from_bytes(inputs.frame).ok();
    let (rom, frame) = (rom.as_ref(), frame.as_ref());
    match verdict {
        Ok(yes) => push_accepted(lines, inputs, rom, frame, *yes),
        Err(FrameRefusal::Check(refusal)) => {
            push_refused(lines, inputs, rom, frame, refusal, cause)
        }
        Err(_) => {
            push_memory(lines, inputs);
            Ok(())
        }
    }
}

/// Adds the lines of the verdict on the inputs' frame by the certificate that is made for it, in the mode `Exact` (this project's own).
/// Any certificate of the inputs is ignored. The ROM and the frame are those of the inputs.
pub fn push_own(
    lines: &mut Lines,
    inputs: &Inputs,
    rom: &RomImage,
    frame: &FrameImage,
    judged: Result<JudgedFrame, MakeAccount>,
) -> Result<(), AllocError> {
    match judged {
        Ok(judged) => push_judged(lines, inputs, rom, frame, &judged),
        Err(account) if account.cause == EntryCause::Memory => {
            push_memory(lines, inputs);
            Ok(())
        }
        Err(account) => push_unmade(lines, rom, slice::from_ref(frame), &account),
    }
}

/// Adds the lines of a want of memory.
fn push_memory(lines: &mut Lines, inputs: &Inputs) {
    let number = MakeFault::Memory.number();
    push_plain_refusal(lines, inputs.machine, number, PlainWhy::Nothing);
}

/// Adds the lines of the verdict on the frame of these inputs by its own certificate.
fn push_judged(
    lines: &mut Lines,
    inputs: &Inputs,
    rom: &RomImage,
    frame: &FrameImage,
    judged: &JudgedFrame,
) -> Result<(), AllocError> {
    let inputs = Inputs {
        cert: Some(&judged.cert),
        mode: Mode::Exact,
        ..*inputs
    };
    let (rom, frame) = (Some(rom), Some(frame));
    match &judged.verdict {
        Ok(yes) => push_accepted(lines, &inputs, rom, frame, *yes),
        Err(finding) => {
            let refusal = finding.refusal();
            push_refused(lines, &inputs, rom, frame, &refusal, Some(finding))
        }
    }
}
