//! The list of a frame, as remarks look at it, and another one behind it.

use crate::item::instruction_at;
use crate::labs_watch::LabsWatch;
use crate::remarked::FrameRemark;
use dvg_items::{Item, Items, Kind};
use dvg_spelling::RemarkKind;
use dvg_words::{Fetch, FrameOn, Instr, RAM_WORDS, RomImage};
use std::alloc::{AllocError, Global};

/// The remarks on the items of a frame's list and on what stands behind it, in their order.
pub fn list_remarks(
    alloc: Global,
    rom: &RomImage,
    frame: &FrameOn,
) -> Result<Vec<FrameRemark>, AllocError> {
    let mut remarks = Vec::new(alloc);
    let mut watch = LabsWatch::new();
    let mut last = None;
    for item in Items::from(frame, Kind::Frame, 0) {
        if let Some(remark) = watch.pass(&item) {
            remarks.push(remark)?;
        }
        last = Some(item);
    }
    if let Some(remark) = remark_behind(rom, frame, last) {
        remarks.push(remark)?;
    }
    Ok(remarks)
}

/// The remark on another list behind the last item of a list, if that is a HALT.
fn remark_behind(rom: &RomImage, frame: &FrameOn, last: Option<Item>) -> Option<FrameRemark> {
    let last = last?;
    match last.instr {
        Instr::Halt => Some(FrameRemark {
            at: unseen_list(rom, frame, last.at)?,
            kind: RemarkKind::NoJump,
        }),
        _ => None,
    }
}

/// Where another list seems to begin, of a frame whose list ends with the HALT at this word address. None where word 000 is a jump, which
/// says what list is to be drawn. It begins with a LABS or a call of a word of the ROM: behind two zeros or more, as the list of a second
/// half of vector RAM does, or else right behind the HALT. What stands there may also be left from an older, longer list.
fn unseen_list(rom: &RomImage, frame: &FrameOn, halt: u16) -> Option<u16> {
    if let Some(Instr::Jmpl { .. }) = instruction_at(frame, 0).map(|there| there.instr) {
        return None;
    }
    let behind = halt.saturating_add(1);
    for at in behind..RAM_WORDS {
        if stands_behind_zeros(frame, at) && begins_list(rom, frame, at) {
            return Some(at);
        }
    }
    if begins_list(rom, frame, behind) {
        Some(behind)
    } else {
        None
    }
}

/// Whether the two words before a word address are zeros.
fn stands_behind_zeros(frame: &FrameOn, at: u16) -> bool {
    frame.fetch(at.saturating_sub(1)) == Some(0) && frame.fetch(at.saturating_sub(2)) == Some(0)
}

/// Whether a LABS or a call of a word of the ROM stands at a word address.
fn begins_list(rom: &RomImage, frame: &FrameOn, at: u16) -> bool {
    match instruction_at(frame, at).map(|there| there.instr) {
        Some(Instr::Labs { .. }) => true,
        Some(Instr::Jsrl { to }) => rom.word(to).is_some(),
        _ => false,
    }
}
