//! Whether inputs that are refused are accepted with the bytes of each word swapped.

ghost use Rattle.std.specs.Prelude.{◌≡◌, Some, Ok, IfOk, IfSome};
ghost use Rattle.dvg_words.specs.Memory.{words_of};
ghost use Rattle.dvg_account.specs.Swapped.{IsOwnAnswer};
ghost use Rattle.dvg_check.specs.Verdict.{InRange, RomVerdict};
ghost use Rattle.dvg_account.specs.Swapped.{swapped, IsAcceptedSwapped, AreAccepted};

use crate::accepted::own_answer;
use crate::inputs::Inputs;
use dvg_cert::Cert;
use dvg_check::{Refusal, Yes, check_rom, frame_of};
use dvg_words::RomMap;
use std::alloc::{AllocError, Global};

/// Of which input the two bytes of each word are swapped.
#[derive(Clone, Copy)]
pub enum Swapped {
    Frame,
    Rom,
    Both,
}

/// These bytes, with the two of each word swapped. A last one alone stays.
fn swap_words(alloc: Global, bytes: &[u8]) -> Result<Vec<u8>, AllocError>
    ensures { IfOk result (λ other. other.items ≡ swapped bytes.now) }
{
    let mut other = Vec::new(alloc);
    let mut rest = bytes;
    while let Some((low, behind)) = rest.split_first() {
        rest = behind;
        if let Some((high, after)) = behind.split_first() {
            other.push(*high)?;
            rest = after;
        }
        other.push(*low)?;
    }
    Ok(other)
}

/// The input, of these refused ones, whose bytes have to be swapped for all to be accepted: by their certificate, or without one by the
/// frame's own. `None` if no swap gets them accepted (only tested). A frame that is HALT alone once its own bytes are swapped is not told:
/// every word whose low byte begins with the digit B is a HALT once swapped. The inputs are judged anew for each swap.
pub fn find_swapped(alloc: Global, inputs: &Inputs) -> Result<Option<Swapped>, AllocError>
    ensures { IfOk result (λ found. IfSome found (IsAcceptedSwapped inputs.now)) }
{
    let frame = swap_words(alloc, inputs.frame)?;
    match accepted(alloc, inputs, inputs.rom, &frame)? {
        Some(counts) if counts.words > 1 => return Ok(Some(Swapped::Frame)),
        _ => {}
    }
    let rom = swap_words(alloc, inputs.rom)?;
    if accepted(alloc, inputs, &rom, inputs.frame)?.is_some() {
        return Ok(Some(Swapped::Rom));
    }
    match accepted(alloc, inputs, &rom, &frame)? {
        Some(counts) if counts.words > 1 => Ok(Some(Swapped::Both)),
        _ => Ok(None),
    }
}

/// The counts of a yes on these bytes of a ROM and of a frame, in the place of the inputs' own.
fn accepted(
    alloc: Global,
    inputs: &Inputs,
    rom: &[u8],
    frame: &[u8],
) -> Result<Option<Yes>, AllocError>
    ensures { IfOk result (λ counts. IfSome counts (AreAccepted inputs.now inputs.now.cert inputs.now.map rom.now frame.now)) }
{
    match (inputs.cert, inputs.map) {
        (Some(cert), _) => accepted_by(alloc, inputs, cert, rom, frame),
        (None, Some(map)) => accepted_own(alloc, inputs, map, rom, frame),
        (None, None) => Ok(None),
    }
}

/// Their counts, if they are accepted by the frame's own certificate, where the ROM lies here.
fn accepted_own(
    alloc: Global,
    inputs: &Inputs,
    map: RomMap,
    rom: &[u8],
    frame: &[u8],
) -> Result<Option<Yes>, AllocError>
    ensures { IfOk result (λ counts. IfSome counts (λ yes.
        IsOwnAnswer inputs.now.machine inputs.now map rom.now frame.now (Some (Ok yes)))) }
{
    match own_answer(inputs.machine, alloc, inputs, map, rom, frame)? {
        Some(Ok(yes)) => Ok(Some(yes)),
        _ => Ok(None),
    }
}

/// Their counts, if they are accepted by this certificate.
fn accepted_by(
    alloc: Global,
    inputs: &Inputs,
    cert: &Cert,
    rom: &[u8],
    frame: &[u8],
) -> Result<Option<Yes>, AllocError>
    ensures range { IfOk result (λ counts. IfSome counts (λ _. InRange frame.now inputs.now.budget)) }
    ensures yes { IfOk result (λ counts. IfSome counts (λ yes. RomVerdict inputs.now.machine inputs.now.mode inputs.now.window
        rom.now cert.now (words_of frame.now) inputs.now.budget (Ok yes))) }
{
    let Inputs {
        machine,
        budget,
        window,
        mode,
        ..
    } = *inputs;
    let Ok(frame) = frame_of(frame, budget) else {
        return Ok(None);
    };
    match check_rom(machine, alloc, rom, &frame, cert, budget, window, mode) {
        Ok(yes) => Ok(Some(yes)),
        Err(Refusal::IndexMemory) => Err(AllocError),
        Err(_) => Ok(None),
    }
}
