//! The item of a refusal: where it stands, what it is, and what is known before it.

use crate::lines::Lines;
use crate::piece::Piece::{self, Address, At, Line, Number, Place, Scale, Text, Word};
use crate::zeros::{Way, Zeros};
use dvg_cert::Entry;
use dvg_check::Found;
use dvg_items::{Item, Kind, Known};
use dvg_survey::Losses;
use dvg_words::{Cell, Fetch, is_long, read_cell};

/// The item of a refusal, and what is known before it, where the account says that.
#[derive(Clone, Copy)]
pub struct RefusedItem {
    pub kind: Kind,
    pub at: u16,
    /// The first of its words, if it is there, and the second, if it has one that is there.
    pub words: Option<(u16, Option<u16>)>,
    pub instruction: Option<Item>,
    pub callee: Option<Entry>,
    pub before: Option<Known>,
    pub losses: Option<Losses>,
    pub way: Way,
}

impl RefusedItem {
    /// The item at a word address, among the items that begin at another; what is known before it, if that is told, and the entry that it
    /// names.
    pub fn new<F: Fetch>(
        memory: &F,
        kind: Kind,
        first: u16,
        at: u16,
        before: Option<Known>,
        callee: Option<Entry>,
    ) -> RefusedItem {
        RefusedItem {
            kind,
            at,
            words: words_at(memory, at),
            instruction: instruction_at(memory, at),
            callee,
            before,
            losses: None,
            way: Way::to(memory, kind, first, at),
        }
    }

    /// The call of a frame at a word address. The account says nothing else of it.
    pub fn call<F: Fetch>(memory: &F, at: u16) -> RefusedItem {
        RefusedItem::new(memory, Kind::Frame, 0, at, None, None)
    }

    /// Adds the lines of the item, by which something is refused.
    pub fn push_lines(&self, lines: &mut Lines) {
        lines.add(&[Line("item"), At(self.at)]);
        self.push_details(lines);
    }

    /// Adds the lines of the item, at which the making of an entry stops that a frame's call needs.
    pub fn push_lines_there(&self, lines: &mut Lines) {
        lines.add(&[Line("comes to"), At(self.at)]);
        lines.begin_keys_with("there ");
        self.push_details(lines);
        lines.begin_keys_with("");
    }

    /// Adds the lines of what the item is, what is known before it, by which items the rest was lost, and the zeros that lead to it.
    fn push_details(&self, lines: &mut Lines) {
        push_words(lines, self.words);
        push_instruction(lines, self.instruction);
        if let Some(entry) = self.callee {
            lines.add(&[Line("called entry"), Piece::Entry(entry)]);
        }
        push_item(lines, "comes from", self.comes_from());
        if let Some(before) = self.before {
            lines.add(&[Line("place before"), Place(before.place)]);
            lines.add(&[Line("scale before"), Scale(before.scale)]);
            lines.add(&[Line("words before"), Number(before.words as u64)]);
        }
        if let Some(losses) = self.losses {
            push_item(lines, "place lost by", losses.place);
            push_item(lines, "scale lost by", losses.scale);
        }
        push_zeros(lines, self.way.zeros);
    }

    /// The item that goes on to an item of a frame, or to one of a shape that is missing, unless zeros lead there.
    fn comes_from(&self) -> Option<Item> {
        match (self.kind, self.words, self.way.zeros) {
            (Kind::Frame, _, None) | (Kind::Shape, None, None) => self.way.last,
            _ => None,
        }
    }
}

/// Adds the line of what an item's words are.
fn push_words(lines: &mut Lines, words: Option<(u16, Option<u16>)>) {
    lines.add(&[Line("holds")]);
    match words {
        None => lines.add(&[Text("nothing")]),
        Some((first, None)) => lines.add(&[Word(first)]),
        Some((first, Some(second))) => lines.add(&[Word(first), Text(" "), Word(second)]),
    }
}

/// Adds the line of an item's instruction, or that its words are none.
fn push_instruction(lines: &mut Lines, instruction: Option<Item>) {
    let instruction = match instruction {
        Some(there) => Piece::Instruction(there),
        None => Text("none"),
    };
    lines.add(&[Line("instruction"), instruction]);
}

/// Adds a line with this key that names another item, if there is one.
pub fn push_item(lines: &mut Lines, key: &'static str, item: Option<Item>) {
    if let Some(item) = item {
        lines.add(&[Line(key), Piece::Item(item)]);
    }
}

/// Adds the lines of the zeros that lead to an item, if there are any, and of the item before them, or that there is none.
fn push_zeros(lines: &mut Lines, zeros: Option<Zeros>) {
    if let Some(zeros) = zeros {
        lines.add(&[
            Line("zeros"),
            Address(zeros.first),
            Text(" to "),
            Address(zeros.last),
            Line("before zeros"),
            item_or_none(zeros.before),
        ]);
    }
}

/// An item, or that there is none.
fn item_or_none(item: Option<Item>) -> Piece {
    match item {
        Some(item) => Piece::Item(item),
        None => Text("none"),
    }
}

/// The entry that is named by what was found.
pub fn callee_of(found: &Found) -> Option<Entry> {
    match found {
        Found::Seen(seen) => seen.callee,
        _ => None,
    }
}

/// The instruction at a word address, if there is one.
pub fn instruction_at<F: Fetch>(memory: &F, at: u16) -> Option<Item> {
    match read_cell(memory, at) {
        Cell::Holds { format, instr } => Some(Item { at, format, instr }),
        _ => None,
    }
}

/// The words of the item at a word address: the first, and of a long one the second, if it is there.
pub fn words_at<F: Fetch>(memory: &F, at: u16) -> Option<(u16, Option<u16>)> {
    let first = memory.fetch(at)?;
    let second = if is_long(first) {
        memory.fetch(at + 1)
    } else {
        None
    };
    Some((first, second))
}
