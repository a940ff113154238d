//! Running the maker over readers, with an account of its answer.

ghost use Rattle.std.specs.Prelude.{◌≡◌, ◌≢◌, ◌⊎◌, Option, None, List, ℕ, Err, false, IfOk, IfErr, OnErr, is_err};
ghost use Rattle.dvg_text.specs.Devices.{AppendsPrefix, count_after};
ghost use Rattle.dvg_cmd.specs.Explaining.{MakesEntries, MakeExplained, frame_to_blame, make_text};
ghost use Rattle.dvg_cmd.specs.Detail.{IsBehind};
ghost use Rattle.dvg_cmd.specs.declared.detail.Detail.TheVariants as details;
ghost use Rattle.dvg_cmd.specs.MakingFrames.{blames_frames_rom, blames_a_frame, blames_frames_writer, of_each, FramesFaultMeans, ReadsInputs};
ghost use Rattle.dvg_spelling.specs.Faults.{make_run_number};
ghost use Rattle.dvg_cmd.specs.Private.Inputs.{AreRead};

use crate::detail::{Behind, behind_text, outcome_behind};
use crate::inputs::InputBytes;
use dvg_account::{PlainWhy, made_text, plain_text, unmade_text};
use dvg_cert::Key;
use dvg_labels::Labels;
use dvg_make::{MakeFault, explain_making};
use dvg_spelling::{MakeRunFault, Outcome, RunFault, make_line_of};
use dvg_text::{CountedRead, CountedWrite, write_lines};
use dvg_words::{Machine, RomMap};
use std::alloc::Global;

/// The maker's answer: how many entries it makes, or why none, and the account of the answer, if there was memory for it.
#[derive(Drop)]
pub struct MakeAnswer {
    pub made: Result<u32, MakeRunFault>,
    pub behind: Behind,
}

impl MakeAnswer {
    /// The index of the frame to blame, from 0, if one is.
    pub fn frame(&self) -> Option<usize>
        ensures { result ≡ frame_to_blame self.now.made }
    {
        match self.made {
            Ok(_) => None,
            Err(fault) => fault.frame(),
        }
    }
}

/// The answer that nothing is made, because of this fault of the inputs.
fn unasked(
    machine: Machine,
    alloc: Global,
    fault: MakeRunFault,
    why: PlainWhy,
    labels: Option<&Labels>,
) -> MakeAnswer
    ensures made { result.made ≡ Err fault }
    ensures behind { IsBehind (details.Account None) result.behind }
{
    MakeAnswer {
        made: Err(fault),
        behind: plain_text(machine, alloc, fault.number(), why, labels).map(Some),
    }
}

/// Why these bytes make no images, with this ROM's map.
fn length_why(fault: MakeRunFault, bytes: &InputBytes, map: RomMap) -> PlainWhy {
    match fault {
        MakeRunFault::RomLength => PlainWhy::RomLength {
            bytes: bytes.rom.len(),
            map,
        },
        MakeRunFault::FrameLength { frame } if frame < bytes.frames.len() => {
            PlainWhy::FrameLength {
                bytes: bytes.frames[frame].len(),
            }
        }
        _ => PlainWhy::Nothing,
    }
}

/// The maker's answer to the bytes of a ROM at this map, on a machine, and of frames.
fn answer_on(
    machine: Machine,
    alloc: Global,
    bytes: &InputBytes,
    map: RomMap,
    roots: &[(u16, Key)],
    labels: Option<&Labels>,
) -> MakeAnswer
    ensures made { (held : Option (List ℕ)) (readers : List (Option (List ℕ)))
        → AreRead held readers bytes.now.rom.items (of_each (λ bytes. bytes.items) bytes.now.frames.items)
        → IfOk result.made (MakesEntries machine held map roots.now readers) }
    ensures refused { (held : Option (List ℕ)) (readers : List (Option (List ℕ)))
        → AreRead held readers bytes.now.rom.items (of_each (λ bytes. bytes.items) bytes.now.frames.items)
        → IfErr result.made (FramesFaultMeans machine held map roots.now readers) }
    ensures no_device { (blames_frames_rom result.made ≡ false) × (blames_a_frame result.made ≡ false)
        × (blames_frames_writer result.made ≡ false) }
    ensures behind { IsBehind (details.Account None) result.behind }
{
    let images = match bytes.images(machine, alloc, map) {
        Ok(images) => images,
        Err(fault) => {
            let why = length_why(fault, bytes, map);
            return unasked(machine, alloc, fault, why, labels);
        }
    };
    match explain_making(alloc, &images.rom, roots, &images.frames) {
        Ok(cert) => MakeAnswer {
            made: Ok(cert.entries().len() as u32),
            behind: made_text(machine, alloc, &cert, labels).map(Some),
        },
        Err(account) => MakeAnswer {
            made: Err(account.fault.into()),
            behind: unmade_text(alloc, &images.rom, &images.frames, account, labels).map(Some),
        },
    }
}

/// Reads a ROM and frames, as [`run_make_frames`](crate::run_make_frames) does, and makes the certificate that it would write.
/// Answers how many entries it has, or why none are made, with an account of the answer (docs/RULES.md), whose addresses labels
/// name, if there are any. Nothing is written.
///
/// The faults are those of `run_make_frames` that have no account: a failed read, and that there was no memory to make entries.
pub fn run_explain_make<R1: CountedRead, R2: CountedRead>(
    machine: Machine,
    alloc: Global,
    rom: &mut R1,
    map: RomMap,
    roots: &[(u16, Key)],
    frames: &mut [R2],
    labels: Option<&Labels>,
) -> Result<MakeAnswer, MakeRunFault>
    // 70 and 71 come exactly where their device failed in this call, and the device's count then rises by one; else it is 63. With an
    // answer, ROM and frames were read to their end or to one byte past their limit, and no further.
    ensures read { ReadsInputs R1.remaining R1.failures R2.remaining R2.failures rom.old rom.new frames.old frames.new result }
    ensures fault { IfErr result (λ fault. (fault ≡ MakeRunFault.ReadRom) ⊎ (fault ≡ MakeRunFault.ReadFrame)
        ⊎ (make_run_number fault ≡ 63)) }

    // So many entries has the list that is made for all bytes that the readers held; 1 and 2 come for a wrong length alone, and 60
    // to 62 as the maker refuses. Nothing else is an answer: no fault of a device, and not that memory was out.
    ensures made { IfOk result (λ answer. IfOk answer.made (MakesEntries machine (R1.remaining rom.old) map roots.now
        (of_each (λ frame. R2.remaining frame) frames.old))) }
    ensures refused { IfOk result (λ answer. IfErr answer.made (FramesFaultMeans machine (R1.remaining rom.old) map roots.now
        (of_each (λ frame. R2.remaining frame) frames.old))) }
    ensures told { IfOk result (λ answer. IfErr answer.made (λ fault. make_run_number fault ≢ 63)) }
    ensures no_device { IfOk result (λ answer. (blames_frames_rom answer.made ≡ false) × (blames_a_frame answer.made ≡ false)
        × (blames_frames_writer answer.made ≡ false)) }
    ensures behind { IfOk result (λ answer. IsBehind (details.Account None) answer.behind) }
{
    let bytes = InputBytes::read(alloc, rom, frames)?;
    let answer = answer_on(machine, alloc, &bytes, map, roots, labels);
    if let Err(fault) = answer.made {
        if fault.number() == MakeFault::Memory.number() {
            return Err(fault);
        }
    }
    Ok(answer)
}

/// Writes the line of an answer of [`run_explain_make`], and behind it its account, or that there was no memory for one. The name
/// before the line names the frame to blame, and has no control characters; it is empty if no frame is to blame.
pub fn write_make_answer<W: CountedWrite>(
    name: &str,
    answer: &MakeAnswer,
    out: &mut W,
) -> Result<Outcome, RunFault>
    ensures ok { IfOk result (MakeExplained name.now answer.now (W.contents out.old) (W.contents out.new) (W.whole_writes out.old)
        (W.whole_writes out.new)) }
    ensures prefix { OnErr result (AppendsPrefix (W.contents out.old) (W.contents out.new) (make_text name.now answer.now)) }
    ensures fault { IfErr result (λ fault. fault ≡ RunFault.Write) }
    ensures count { W.failures out.new ≡ count_after (is_err result) (W.failures out.old) }
{
    let report = make_line_of(&answer.made);
    write_lines(
        name.as_bytes(),
        report.as_bytes(),
        behind_text(&answer.behind).as_bytes(),
        out,
    )?;
    let outcome = match answer.made {
        Ok(_) => Outcome::Accepted,
        Err(_) => Outcome::Refused,
    };
    Ok(outcome_behind(&answer.behind, outcome))
}
