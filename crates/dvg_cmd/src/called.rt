//! Counts the shapes that refused frames call at the item that is refused, and writes a line for each.

ghost use Rattle.std.specs.Prelude.{◌≡◌, ◌≤◌, [], None, Some, IfNone, IfSome, length};
ghost use Rattle.dvg_words.specs.Memory.{IsFrameLength, words_of};
ghost use Rattle.dvg_cmd.specs.Called.{again_at, called_by, called_text, called_texts, is_before, is_counted, place_in, refused_at, with_called};
ghost use Rattle.dvg_cmd.specs.Sent.{Writes};

use crate::entry_lines::{HasLine, write_each};
use arrayvec::ArrayVec;
use dvg_check::Refusal;
use dvg_make::FrameRefusal;
use dvg_spelling::{Answer, FrameAnswer, ItemPlace, Summary, push_count};
use dvg_text::{CountedWrite, WriteFault, push_bytes, write_lines};
use dvg_words::{Cell, FrameImage, FrameOn, Instr, Machine, read_cell};
use std::marker::Model;

/// How accounts spell a word address: a label has at most 80 bytes.
pub type AddressName = ArrayVec<u8, 96>;

/// A shape that is called by the item with which a frame is refused.
#[derive(Default, Drop)]
pub struct Called {
    /// The number of the refusal.
    pub number: u8,
    /// The word address of the shape.
    pub shape: u16,
    /// How accounts spell that address.
    pub name: AddressName,
}

/// How many frames are refused by this number at a call of this shape.
#[derive(Default, Drop)]
pub struct CalledCount {
    pub called: Called,
    /// It stops at 4,294,967,295.
    pub count: u32,
}

/// Counts refused frames by number and by the shape that is called there, in the order of the numbers and then of the shapes. The first 64
/// pairs that come are counted, further ones are not.
#[derive(Drop)]
pub struct CalledTally {
    counts: ArrayVec<CalledCount, 64>,
}

impl Model for CalledTally {
    ghost use Rattle.std.specs.Prelude.{List};
    ghost use Rattle.dvg_cmd.specs.declared.called.CalledCount.{CalledCount};

    ghost Value = { List CalledCount };

    ghost view = { λ t. t.counts.items };
}

/// The word address of the item because of which a frame is refused, if there is one.
fn refused_at(answer: &FrameAnswer) -> Option<u16>
    ensures { result ≡ refused_at answer.now }
{
    match answer {
        Answer::Judged(Err(FrameRefusal::Make { at, .. })) => Some(*at),
        Answer::Judged(Err(FrameRefusal::Check(Refusal::Frame(fault)))) => Some(fault.word),
        Answer::Slow(ItemPlace::Frame(at)) => Some(*at),
        _ => None,
    }
}

/// A frame is refused because of an item: the word address of the shape that this item calls, if it is a call.
pub fn called_by(machine: Machine, frame: &[u8], answer: &FrameAnswer) -> Option<u16>
    ensures some { IfSome result (λ shape. called_by machine (words_of frame.now) answer.now ≡ Some shape) }
    ensures none { IfNone result (IsFrameLength (length frame.now) → called_by machine (words_of frame.now) answer.now ≡ None) }
{
    let at = refused_at(answer)?;
    let frame = FrameImage::from_bytes(frame).ok()?;
    match read_cell(&FrameOn::new(machine, &frame), at) {
        Cell::Holds {
            instr: Instr::Jsrl { to },
            ..
        } => Some(to),
        _ => None,
    }
}

/// The first 96 bytes of an address as accounts spell it.
pub fn name_of(text: &str) -> AddressName {
    let bytes = text.as_bytes();
    let mut name = AddressName::new();
    push_bytes(&mut name, &bytes[..bytes.len().min(96)]);
    name
}

/// Whether a count comes before the count of this number and shape.
fn is_before(count: &CalledCount, number: u8, shape: u16) -> bool
    ensures { result ≡ is_before count.now number shape }
{
    (count.called.number, count.called.shape) < (number, shape)
}

/// How many of these counts come before the count of this number and shape.
fn place_of(counts: &[CalledCount], number: u8, shape: u16) -> usize
    ensures place { result ≡ place_in counts.now number shape }
    ensures within { result ≤ length counts.now }
{
    for at in 0..counts.len() {
        if !is_before(&counts[at], number, shape) {
            return at;
        }
    }
    counts.len()
}

/// Whether the count of this number and shape stands at a place.
fn is_counted(counts: &[CalledCount], at: usize, called: &Called) -> bool
    ensures { result ≡ is_counted counts.now at called.now }
{
    match counts.get(at) {
        Some(there) => {
            there.called.number == called.number && there.called.shape == called.shape
        }
        None => false,
    }
}

/// Adds one to the count at a place, if there is one.
fn count_again(counts: &mut [CalledCount], at: usize)
    ensures { counts.new ≡ again_at counts.old at }
{
    if at < counts.len() {
        let there = &mut counts[at];
        there.count = there.count.saturating_add(1);
    }
}

/// Counts a frame that is refused so.
fn count_called(counts: &mut ArrayVec<CalledCount, 64>, called: Called)
    ensures { counts.new.items ≡ with_called counts.old.items called }
{
    let at = place_of(counts.as_slice(), called.number, called.shape);
    if is_counted(counts.as_slice(), at, &called) {
        count_again(counts.as_mut_slice(), at);
    } else if !counts.is_full() {
        counts.insert(at, CalledCount { called, count: 1 });
    }
}

impl HasLine for CalledCount {
    ghost text = { called_text };

    fn write<W: CountedWrite>(&self, out: &mut W) -> Result<(), WriteFault> {
        let mut head = Summary::new();
        push_count(&mut head, b"refused-", u32::from(self.called.number));
        push_count(&mut head, b"=", self.count);
        push_bytes(&mut head, b" calling ");
        write_lines(head.as_slice(), self.called.name.as_slice(), b"\n", out)
    }
}

impl CalledTally {
    /// Of no frame.
    pub fn new() -> CalledTally
        ensures { result ≡ [] }
    {
        CalledTally {
            counts: ArrayVec::new(),
        }
    }

    /// Counts a frame that is refused so.
    pub fn add(&mut self, called: Called)
        ensures { self.new ≡ with_called self.old called }
    {
        count_called(&mut self.counts, called);
    }

    /// Writes a line for each count.
    pub fn write<W: CountedWrite>(&self, out: &mut W) -> Result<(), WriteFault>
        ensures { Writes W.contents W.whole_writes W.failures out.old out.new result (called_texts self.now) }
    {
        write_each(self.counts.as_slice(), out)
    }
}
