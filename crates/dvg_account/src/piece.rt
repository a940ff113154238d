//! The pieces of which an account is made: the keys of its lines, what they tell, and the words between.

use dvg_cert::{End, Entry, Key, LitBox};
use dvg_check::{Leaving, Yes};
use dvg_items::Item;
use dvg_make::FrameRefusal;
use dvg_words::{Point, RomMap};

/// A piece of an account. A key begins a line, and what follows it up to the next key is the line's value.
#[derive(Clone, Copy)]
pub enum Piece {
    /// The key of a line.
    Line(&'static str),
    /// The key of the line of what to do, behind which the bytes stand that are to be swapped first, if some are.
    ToDo,
    /// Words between values.
    Text(&'static str),
    Number(u64),
    /// How many bytes an input has, which may have so many at most.
    Bytes(usize, usize),
    /// A word address, by the label that names it, if one does.
    Address(u16),
    /// A word address alone, whatever label names it.
    BareAddress(u16),
    /// A word address, and the processor's address of its first byte.
    At(u16),
    /// What a word holds.
    Word(u16),
    /// The instruction of an item.
    Instruction(Item),
    /// The word address of an item, and its instruction.
    Item(Item),
    /// The name of an entry: its address and its key.
    Name(u16, Key),
    /// An entry as a certificate spells it, and so its end and its key.
    Entry(Entry),
    End(End),
    Key(Key),
    /// A place that is known, or that it is lost.
    Place(End),
    /// A scale that is known, or that it is not.
    Scale(Key),
    Point(Point),
    /// The corner that is past an edge of the window, where the edge is, and by how much.
    PastWindow(Leaving),
    /// The same of an edge of the claimed box.
    PastBox(Leaving),
    /// The coordinates between which a box lies.
    Within(LitBox),
    Distance(u64),
    /// What a number means.
    Rule(u8),
    /// What to do about a number.
    Cure(u8),
    /// What else to do where a list is to end.
    OrHalt,
    /// The words of a ROM that is said to lie here, and what else so many bytes may be.
    Fitting(RomMap, usize),
    /// The answer to a frame by its own certificate.
    Answer(Result<Yes, FrameRefusal>),
    /// What was expected at a column of a certificate's line.
    Expected(&'static str),
}
