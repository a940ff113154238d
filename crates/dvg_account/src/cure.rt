//! What to do about an entry that can't be made.

use crate::meant::is_outside;
use crate::piece::Piece::{self, Cure, Text};
use dvg_check::ShapeWhy;
use dvg_make::{EntryCause, MakeAccount, MakeFault};
use dvg_words::{RAM_WORDS, RomMap};

/// These words alone.
fn words(words: &'static str) -> [Piece; 2] {
    [Text(words), Text("")]
}

/// What the table of numbers says of this one.
fn rule(number: u8) -> [Piece; 2] {
    [Text(""), Cure(number)]
}

/// What to do about a refusal of the maker over a ROM that lies here.
pub fn advice(map: RomMap, account: &MakeAccount) -> [Piece; 2] {
    let is_called = account.fault.call.is_some();
    match account.cause {
        EntryCause::RootOutside => {
            words("name shapes in the ROM; where it lies elsewhere, say so by `--rom`")
        }
        EntryCause::Missing => of_missing(map, account),
        EntryCause::Odd => of_item(is_called, ShapeWhy::Odd),
        EntryCause::Halt => of_item(is_called, ShapeWhy::HaltInShape),
        EntryCause::BeamUnknown | EntryCause::ScaleUnknown => of_scale(is_called),
        EntryCause::Ring { .. } => words("take the shape out of itself"),
        EntryCause::Deep { .. } => words(
            "take out a level of calls; a jump (JMPL) in place of a shape's last call adds none",
        ),
        EntryCause::TooManyWords { .. } => words("draw less in one call"),
        EntryCause::TooManyEntries if is_called => {
            words("call fewer shapes, or at fewer scales")
        }
        EntryCause::TooManyEntries => rule(MakeFault::TooLarge.number()),
        EntryCause::Memory => rule(MakeFault::Memory.number()),
    }
}

/// What to do about a missing word: a shape runs out of the ROM, or the very word that is called or jumped to is outside it.
fn of_missing(map: RomMap, account: &MakeAccount) -> [Piece; 2] {
    let at = account.at;
    match account.chain.last() {
        Some(shape) if shape.addr == at && is_outside(map, at) => {
            words(outside(account.chain.len() == 1, at < RAM_WORDS))
        }
        _ => rule(ShapeWhy::Unmapped.number()),
    }
}

/// What to do about a call outside the ROM: the frame's own, or one to which a shape leads, into vector RAM or elsewhere.
fn outside(is_own: bool, is_in_ram: bool) -> &'static str {
    match (is_own, is_in_ram) {
        (true, true) => {
            "call what is in the ROM: a call into vector RAM is always refused, whatever stands there"
        }
        (true, false) => "call what is in the ROM; where it lies elsewhere, say so by `--rom`",
        (false, true) => {
            "see that the call or root is a shape's first word: in the ROM, too, a call into vector RAM is always refused"
        }
        (false, false) => {
            "see that the call or root is a shape's first word; where the ROM lies elsewhere, say so by `--rom`"
        }
    }
}

/// What to do about an item that breaks a rule of shapes. A frame's call may be of no shape's first word.
fn of_item(is_called: bool, why: ShapeWhy) -> [Piece; 2] {
    let before = if is_called {
        "see that the call is to a shape's first word; if it is, "
    } else {
        ""
    };
    [Text(before), Cure(why.number())]
}

/// What to do about an unknown scale, at a frame's call or of a root.
fn of_scale(is_called: bool) -> [Piece; 2] {
    words(if is_called {
        "put a LABS before the frame's call, by which the place and the scale are known there; see that the call is to a shape's first word"
    } else {
        "name the scales at which the shape is called, in place of `any`; or put a LABS before it"
    })
}
