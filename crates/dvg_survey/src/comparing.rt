//! What a change of a ROM touches, of what is made for roots and frames.

ghost use Rattle.std.specs.Prelude.{◌≡◌, None, IfOk, IfErr, IfSome};
ghost use Rattle.dvg_make.specs.Accounts.{HasCause};
ghost use Rattle.dvg_make.specs.Refusals.{FramesRefuse};
ghost use Rattle.dvg_make.specs.declared.fault.EntryFault.TheVariants.{Memory};
ghost use Rattle.dvg_kept.specs.Kept.{AreMade};
ghost use Rattle.dvg_survey.specs.Comparing.{FrameReaches, IsComparison};

use crate::touched::{TouchedEntry, reaches_touched, touched_entries};
use dvg_cert::Key;
use dvg_kept::frame_entries;
use dvg_make::{EntryFault, FramesFault, MadeEntries, make_with_index};
use dvg_words::{FrameImage, RomImage};
use std::alloc::Global;

/// What a change of a ROM touches, of what is made for roots and frames over the first ROM.
#[derive(Drop)]
pub struct Comparison {
    /// The entries whose shapes read a word in which the ROMs differ, of the certificate that is made for all roots and frames.
    pub entries: Vec<TouchedEntry>,
    /// Of each frame, in their order, whether the certificate that is made for it alone has an entry with such a shape.
    pub reaching: Vec<bool>,
}

/// The refusal where memory is out.
fn no_memory() -> FramesFault
    ensures { result ≡ record { call = None; why = Memory } }
{
    FramesFault {
        call: None,
        why: EntryFault::Memory,
    }
}

/// Whether the certificate that is made for a frame has an entry whose shape is touched, by entries that were made for it and for others;
/// `None` if one of its entries is not among these, or there is no memory.
fn frame_reaches(
    alloc: Global,
    rom: &RomImage,
    other: &RomImage,
    entries: &MadeEntries,
    frame: &FrameImage,
) -> Option<bool>
    requires { AreMade rom.now entries.now }
    ensures { IfSome result (FrameReaches rom.now other.now frame.now) }
{
    let own = frame_entries(alloc, rom, entries, frame)?;
    Some(reaches_touched(rom, other, &own))
}

/// Compares two ROMs at the same addresses by what is made over the first one, for roots and for frames: tells which entries have
/// shapes that read a word in which the ROMs differ, and which frames reach one.
///
/// The refusals are those of [`make_for_frames`](dvg_make::make_for_frames) over the first ROM. 63 comes also where there is no memory for
/// the answer, or for the entries of a frame. Takes memory for the certificate of all roots and frames, beside it for the entries of one
/// frame at a time, and for the answer.
#[tactic(auto, using(crate::proofs::EachFrame::memory_told, crate::proofs::EachFrame::next_frame))]
pub fn compare(
    alloc: Global,
    rom: &RomImage,
    other: &RomImage,
    roots: &[(u16, Key)],
    frames: &[FrameImage],
) -> Result<Comparison, FramesFault>
    ensures ok { IfOk result (IsComparison rom.now other.now roots.now frames.now) }
    ensures err { IfErr result (FramesRefuse rom.now roots.now frames.now) }
    ensures told { IfErr result (HasCause rom.now roots.now frames.now) }
{
    let made = make_with_index(alloc, rom, roots, frames)?;
    let Ok(entries) = touched_entries(alloc, rom, other, made.cert.entries()) else {
        return Err(no_memory());
    };
    let mut reaching = Vec::new(alloc);
    for frame in frames {
        let Some(reaches) = frame_reaches(alloc, rom, other, &made.entries, frame) else {
            return Err(no_memory());
        };
        let Ok(()) = reaching.push(reaches) else {
            return Err(no_memory());
        };
    }
    Ok(Comparison { entries, reaching })
}
