//! The entries of the certificate that is made for a frame, among made ones.

ghost use Rattle.std.specs.Prelude.{IfSome};
ghost use Rattle.dvg_items.specs.Bounds.{IsSomeCertificate};
ghost use Rattle.dvg_make.specs.Frames.{FrameMade};
ghost use Rattle.dvg_kept.specs.Kept.{AreMade};
ghost use Rattle.dvg_kept.specs.Private.Leaves.{AreLeaves};
ghost use Rattle.dvg_kept.specs.Private.Marks.{IsMarking};
ghost use Rattle.dvg_kept.specs.Private.Own.{AreOwn};

use crate::leaves::Leaves;
use crate::marks::{MarkedEntries, Place};
use dvg_cert::{Entry, Key};
use dvg_items::Kind;
use dvg_make::MadeEntries;
use dvg_words::{FrameImage, FrameOn, RomImage};
use std::alloc::Global;

/// The marks of the entries that a frame's items call; `None` if one of them is not among these, or there is no memory.
fn called_by_frame(
    alloc: Global,
    rom: &RomImage,
    entries: &MadeEntries,
    leaves: &Leaves,
    frame: &FrameImage,
) -> Option<MarkedEntries>
    requires entries { IsSomeCertificate entries.now }
    requires leaves { AreLeaves rom.now leaves.now }
    ensures { IfSome result (IsMarking rom.now frame.now entries.now) }
{
    let Ok(mut marks) = MarkedEntries::none(alloc, entries.len()) else {
        return None;
    };
    let first = Place {
        kind: Kind::Frame,
        at: 0,
        scale: Key::Any,
    };
    let words = FrameOn::new(rom.machine(), frame);
    marks.mark_calls(entries, leaves, &words, first)?;
    Some(marks)
}

/// The marks of the entries that a frame's items call, and of all that these call; `None` if one of them is not among these, or there is
/// no memory. Those of `leaves` call nothing.
pub fn own_marks(
    alloc: Global,
    rom: &RomImage,
    entries: &MadeEntries,
    leaves: &Leaves,
    frame: &FrameImage,
) -> Option<MarkedEntries>
    requires entries { IsSomeCertificate entries.now }
    requires leaves { AreLeaves rom.now leaves.now }
    ensures { IfSome result (AreOwn rom.now frame.now entries.now) }
{
    let mut marks = called_by_frame(alloc, rom, entries, leaves, frame)?;
    while let Some(position) = marks.take() {
        let entry = entries.get(position)?;
        let first = Place {
            kind: Kind::Shape,
            at: entry.addr,
            scale: entry.key,
        };
        marks.mark_calls(entries, leaves, rom, first)?;
    }
    Some(marks)
}

/// The entries of the certificate that is made for a frame, out of the entries that were made for it and for others: those that its calls
/// lead to. `None` if one of them is not among these, or where there is no memory for marks and answer.
pub fn frame_entries(
    alloc: Global,
    rom: &RomImage,
    entries: &MadeEntries,
    frame: &FrameImage,
) -> Option<Vec<Entry>>
    requires { AreMade rom.now entries.now }
    ensures { IfSome result (λ own. FrameMade rom.now frame.now own.items) }
{
    let leaves = Leaves::none(alloc).ok()?;
    let marks = own_marks(alloc, rom, entries, &leaves, frame)?;
    marks.marked(alloc, entries).ok()
}
