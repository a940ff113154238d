//! A jump of a frame that may lead into the middle of an instruction.

use crate::lines::Lines;
use crate::piece::Piece::{self, Line, Text};
use dvg_items::{Item, Items, Kind};
use dvg_make::{EntryFault, MakeAccount};
use dvg_words::{Fetch, FrameImage, FrameOn, Instr, Machine};

/// A jump, and the instruction into whose second word it may lead.
#[derive(Clone, Copy)]
pub struct Middle {
    pub jump: Item,
    pub into: Item,
}

/// The instruction whose second word is at a word address, if the words from another address on are instructions that go on one to the
/// next, and this is one of them.
fn long_over<F: Fetch>(words: &F, from: u16, to: u16) -> Option<Item> {
    for item in Items::from(words, Kind::Shape, from) {
        if to <= item.at {
            return None;
        }
        if to < item.at + item.format.words() {
            return Some(item);
        }
    }
    None
}

/// The instruction into whose second word a jump of a frame may lead: the words behind the jump, read as instructions, have one there.
/// A start puts its jump in the place of word 000, which may have been the first of two: so behind that one they must have one as
/// read from word 002 on, too.
fn into_by<F: Fetch>(frame: &F, jump: &Item, to: u16) -> Option<Item> {
    if jump.at == 0 && long_over(frame, 2, to).is_none() {
        return None;
    }
    long_over(frame, jump.at.checked_add(1)?, to)
}

/// The first jump of a frame before its call at a word address that may lead into the middle of an instruction. A guess, since the
/// words that a jump passes over need not be instructions.
fn middle_before<F: Fetch>(frame: &F, call: u16) -> Option<Middle> {
    for jump in Items::from(frame, Kind::Frame, 0) {
        if call <= jump.at {
            return None;
        }
        let Instr::Jmpl { to } = jump.instr else {
            continue;
        };
        if let Some(into) = into_by(frame, &jump, to) {
            return Some(Middle { jump, into });
        }
    }
    None
}

/// That jump before the call of a frame, if there is one and the making stops at an item that can be in no shape that is called so, as
/// where a word that is no call is read as one.
pub fn middle_of(
    machine: Machine,
    frame: Option<&FrameImage>,
    account: &MakeAccount,
) -> Option<Middle> {
    let EntryFault::Unstraight { .. } = account.fault.why else {
        return None;
    };
    let framed = FrameOn::new(machine, frame?);
    middle_before(&framed, account.fault.call?.at)
}

/// Adds the line of a jump that may lead into the middle of an instruction, if there is one.
pub fn push_middle(lines: &mut Lines, middle: Option<Middle>) {
    if let Some(middle) = middle {
        lines.add(&[
            Line("jumps into"),
            Piece::Item(middle.into),
            Text(", by "),
            Piece::Item(middle.jump),
        ]);
    }
}
