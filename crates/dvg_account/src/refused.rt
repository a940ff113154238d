//! The account of a refusal because of an item of a frame or of a shape.

use crate::accepted::push_board;
use crate::chains::push_steps;
use crate::inputs::{Inputs, push_plain_refusal};
use crate::item::{RefusedItem, callee_of, push_item};
use crate::lines::Lines;
use crate::piece::Piece::{self, Cure, Line, Name, OrHalt, Rule, Text, ToDo};
use crate::why::{push_frame_why, push_shape_why};
use dvg_cert::{Cert, Entries, Entry, HashIndex, ListIndex};
use dvg_check::{Finding, FrameCause, FrameFinding, Refusal, ShapeFinding, ShapeWhy};
use dvg_items::{Item, Kind};
use dvg_survey::{Losses, find_chain, frame_losses, furthest_stroke, shape_losses};
use dvg_words::{FrameImage, FrameOn, Machine, RomImage};
use std::alloc::AllocError;

/// Adds the lines of a refusal of these inputs. The images are those of the inputs; an input of a wrong length has none. A refusal because of
/// an item has a cause.
pub fn push_refused(
    lines: &mut Lines,
    inputs: &Inputs,
    rom: Option<&RomImage>,
    frame: Option<&FrameImage>,
    refusal: &Refusal,
    cause: Option<&Finding>,
) -> Result<(), AllocError> {
    match (cause, inputs.cert, rom, frame) {
        (Some(Finding::Shape(finding)), Some(cert), Some(rom), frame) => {
            push_shape_fault(lines, inputs, rom, cert, frame, finding)
        }
        (Some(Finding::Frame(finding)), Some(cert), rom, Some(frame)) => {
            push_frame_fault(lines, inputs, rom, cert, frame, finding)
        }
        _ => {
            let why = inputs.plain_why(refusal);
            push_plain_refusal(lines, inputs.machine, refusal.number(), why);
            Ok(())
        }
    }
}

/// Adds the lines of the first fault of a frame of these inputs, over a ROM, if its bytes are of the right length.
fn push_frame_fault(
    lines: &mut Lines,
    inputs: &Inputs,
    rom: Option<&RomImage>,
    cert: &Cert,
    frame: &FrameImage,
    finding: &FrameFinding,
) -> Result<(), AllocError> {
    let machine = inputs.machine;
    let at = finding.fault.word;
    let number = finding.fault.number();
    let before = Some(finding.before);
    let callee = callee_of(&finding.found);
    let framed = FrameOn::new(machine, frame);
    let item = RefusedItem {
        losses: frame_losses(machine, cert, &ListIndex::new(cert), frame, at),
        ..RefusedItem::new(&framed, Kind::Frame, 0, at, before, callee)
    };
    let stroke = furthest(rom, cert, finding);
    lines.push_machine(machine);
    lines.push_zone(&inputs.window);
    lines.add(&[Line("rule"), Rule(number), Line("why")]);
    push_frame_why(lines, machine, finding, frame);
    push_item(lines, "reaches furthest", stroke);
    item.push_lines(lines);
    push_beside_frame(lines, inputs, cert, finding.cause)?;
    push_frame_cure(lines, finding, frame);
    Ok(())
}

/// The stroke by which a called shape reaches furthest past the edge that its box leaves, where a frame is refused because of that box.
#[tactic(auto, using(dvg_items::proofs::Listed::listed_at))]
pub fn furthest(rom: Option<&RomImage>, cert: &Cert, finding: &FrameFinding) -> Option<Item> {
    let (Some(rom), FrameCause::OffScreen(leaving), Some(called)) = (
        rom,
        finding.cause,
        callee_of(&finding.found),
    ) else {
        return None;
    };
    let entries = ListIndex::new(cert);
    let entry = entries.find(called.addr, called.key)?;
    furthest_stroke(rom, cert, &entries, &entry, leaving.edge)
}

/// Adds what to do about the first fault of a frame. A jump back that is its last word may be meant as its end.
fn push_frame_cure(lines: &mut Lines, finding: &FrameFinding, frame: &FrameImage) {
    let number = finding.fault.number();
    match finding.cause {
        FrameCause::BackJump(_) if finding.fault.word == frame.words().saturating_sub(1) => {
            lines.add(&[ToDo, Cure(number), OrHalt])
        }
        _ => lines.add(&[ToDo, Cure(number)]),
    }
}

/// Adds what else is told of the cause in a frame: of an odd LABS what the board answers, and of a call that names no entry the scales at
/// which the certificate has the called shape.
fn push_beside_frame(
    lines: &mut Lines,
    inputs: &Inputs,
    cert: &Cert,
    cause: FrameCause,
) -> Result<(), AllocError> {
    match cause {
        FrameCause::Odd => push_board(lines, inputs)?,
        FrameCause::NoEntry { to, .. } => push_keys_at(lines, cert.entries(), to),
        _ => {}
    }
    Ok(())
}

/// Adds the line of the keys of the entries at a word address, in their order.
fn push_keys_at(lines: &mut Lines, entries: &[Entry], addr: u16) {
    lines.add(&[Line("claimed scales")]);
    let mut any = false;
    for entry in entries {
        if entry.addr == addr {
            let before = Text(if any { ", " } else { "" });
            lines.add(&[before, Piece::Key(entry.key)]);
            any = true;
        }
    }
    lines.add(&[Text(if any { "" } else { "none" })]);
}

/// Adds what else is told of the cause in a shape: of an odd LABS what the board answers, of an end or a box that differs the other
/// machine.
fn push_beside_shape(lines: &mut Lines, inputs: &Inputs, why: ShapeWhy) -> Result<(), AllocError> {
    match why {
        ShapeWhy::Odd => push_board(lines, inputs)?,
        _ => push_other_machine(lines, inputs.machine, why),
    }
    Ok(())
}

/// Adds the lines of the first fault of the shapes of these inputs, with a frame, if there is one.
fn push_shape_fault(
    lines: &mut Lines,
    inputs: &Inputs,
    rom: &RomImage,
    cert: &Cert,
    frame: Option<&FrameImage>,
    finding: &ShapeFinding,
) -> Result<(), AllocError> {
    let entry = finding.entry;
    let at = finding.fault.word;
    let number = finding.fault.number();
    let before = Some(finding.before);
    let callee = callee_of(&finding.found);
    let item = RefusedItem {
        losses: losses_in_shape(rom, cert, &entry, at),
        ..RefusedItem::new(rom, Kind::Shape, entry.addr, at, before, callee)
    };
    lines.push_machine(rom.machine());
    lines.push_zone(&inputs.window);
    lines.add(&[Line("rule"), Rule(number), Line("why")]);
    push_shape_why(lines, finding, rom);
    item.push_lines(lines);
    lines.add(&[Line("entry claims"), Piece::Entry(entry)]);
    push_chain(lines, rom, cert, frame, &entry)?;
    push_beside_shape(lines, inputs, finding.fault.why)?;
    lines.add(&[ToDo, Cure(number)]);
    Ok(())
}

/// Adds that the certificate may have been made for the other machine, if this fault may come of it.
fn push_other_machine(lines: &mut Lines, machine: Machine, why: ShapeWhy) {
    let (ShapeWhy::EndDiffers | ShapeWhy::BoxTooSmall) = why else {
        return;
    };
    lines.add(&[
        Line("other machine"),
        Text("the certificate may have been made "),
        Text(match machine {
            Machine::Profile => {
                "for the board, by `make --board`; `make` without it makes one for this machine"
            }
            Machine::Board => "without `--board`; `make --board` makes one for the board",
        }),
    ]);
}

/// Adds how a frame reaches an entry, if there is a frame.
fn push_chain(
    lines: &mut Lines,
    rom: &RomImage,
    cert: &Cert,
    frame: Option<&FrameImage>,
    goal: &Entry,
) -> Result<(), AllocError> {
    let Some(frame) = frame else {
        return Ok(());
    };
    let entries = HashIndex::new(lines.alloc, cert)?;
    let Some(calls) = find_chain(lines.alloc, rom, cert, &entries, frame, goal)? else {
        let name = Name(goal.addr, goal.key);
        lines.add(&[
            Line("chain"),
            Text("none, the frame does not come to "),
            name,
        ]);
        return Ok(());
    };
    push_steps(lines, "chain", None, &calls);
    Ok(())
}

/// The items of an entry's shape by which the place and the scale were lost that are not known before a word.
#[tactic(auto, using(dvg_items::proofs::Listed::listed_at))]
fn losses_in_shape(rom: &RomImage, cert: &Cert, entry: &Entry, at: u16) -> Option<Losses> {
    let entries = ListIndex::new(cert);
    match entries.find(entry.addr, entry.key) {
        Some(listed) => shape_losses(rom, cert, &entries, &listed, at),
        None => None,
    }
}
