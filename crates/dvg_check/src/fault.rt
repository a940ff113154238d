//! Which rule is broken, and where.

ghost use Rattle.std.specs.Prelude.{◌≡◌};
ghost use Rattle.dvg_check.specs.FirstFault.{shape_number, frame_number};

use crate::cause::{FrameCause, ShapeCause};
use dvg_cert::{Entry, Key};
use dvg_items::{Cursor, Known, Seen};
use thiserror::Error;

/// Whether the words and the depth that a certificate claims are bounds, or exact.
#[derive(Clone, Copy, Debug, PartialEq, Eq)]
pub enum Mode {
    Bound,
    Exact,
}

/// The rules that an item of a shape may break, 20 to 33.
#[derive(Clone, Copy, Debug, PartialEq, Eq, Error)]
pub enum ShapeWhy {
    /// 20: a word of the item is outside the ROM.
    #[error("a word of the item is outside the ROM")]
    Unmapped,
    /// 21: the item is an odd LABS.
    #[error("the item is an odd LABS")]
    Odd,
    /// 22: the item is HALT.
    #[error("the item is HALT")]
    HaltInShape,
    /// 23: it lights at a lost place.
    #[error("it lights at a lost place")]
    BeamUnknown,
    /// 24: it lights at unknown scale.
    #[error("it lights at unknown scale")]
    ScaleUnknown,
    /// 25: it lights outside the window.
    #[error("it lights outside the window")]
    OffScreen,
    /// 26: no entry is named by a call or tail jump.
    #[error("it calls a shape that has no entry")]
    NoEntry,
    /// 27: more return places are needed than claimed.
    #[error("more return places are needed than claimed")]
    TooDeep,
    /// 28: more words are needed than claimed.
    #[error("more words are needed than claimed")]
    TooManyWords,
    /// 29: the place at the end is not the claimed one.
    #[error("the place at the end is not the claimed one")]
    EndDiffers,
    /// 30: the scale at the end is not the claimed one.
    #[error("the scale at the end is not the claimed one")]
    ScaleDiffers,
    /// 31: it lights outside the claimed box.
    #[error("it lights outside the claimed box")]
    BoxTooSmall,
    /// 32: the words are fewer than claimed, where claims are exact.
    #[error("the words are fewer than claimed")]
    WordsDiffer,
    /// 33: the depth is less than claimed, where claims are exact.
    #[error("the depth is less than claimed")]
    DepthDiffers,
}

impl ShapeWhy {
    /// The number of the rule, 20 to 33.
    pub fn number(self) -> u8
        ensures { result ≡ shape_number self }
    {
        match self {
            ShapeWhy::Unmapped => 20,
            ShapeWhy::Odd => 21,
            ShapeWhy::HaltInShape => 22,
            ShapeWhy::BeamUnknown => 23,
            ShapeWhy::ScaleUnknown => 24,
            ShapeWhy::OffScreen => 25,
            ShapeWhy::NoEntry => 26,
            ShapeWhy::TooDeep => 27,
            ShapeWhy::TooManyWords => 28,
            ShapeWhy::EndDiffers => 29,
            ShapeWhy::ScaleDiffers => 30,
            ShapeWhy::BoxTooSmall => 31,
            ShapeWhy::WordsDiffer => 32,
            ShapeWhy::DepthDiffers => 33,
        }
    }
}

/// The rules that an item of a frame may break, 40 to 48.
#[derive(Clone, Copy, Debug, PartialEq, Eq, Error)]
pub enum FrameWhy {
    /// 40: a word of the item is outside the frame.
    #[error("a word of the item is outside the frame")]
    Unmapped,
    /// 41: the item is an odd LABS.
    #[error("the item is an odd LABS")]
    Odd,
    /// 42: the item is RTSL.
    #[error("the item is RTSL")]
    ReturnInFrame,
    /// 43: the item is a jump to its own address or a lower one.
    #[error("the item is a jump to its own address or a lower one")]
    BackJump,
    /// 44: it lights at a lost place.
    #[error("it lights at a lost place")]
    BeamUnknown,
    /// 45: it lights at unknown scale.
    #[error("it lights at unknown scale")]
    ScaleUnknown,
    /// 46: it lights outside the window.
    #[error("it lights outside the window")]
    OffScreen,
    /// 47: no entry is named by a call.
    #[error("it calls a shape that has no entry")]
    NoEntry,
    /// 48: the words, with those of the item, are over the budget.
    #[error("the words so far are over the budget")]
    Budget,
}

impl FrameWhy {
    /// The number of the rule, 40 to 48.
    pub fn number(self) -> u8
        ensures { result ≡ frame_number self }
    {
        match self {
            FrameWhy::Unmapped => 40,
            FrameWhy::Odd => 41,
            FrameWhy::ReturnInFrame => 42,
            FrameWhy::BackJump => 43,
            FrameWhy::BeamUnknown => 44,
            FrameWhy::ScaleUnknown => 45,
            FrameWhy::OffScreen => 46,
            FrameWhy::NoEntry => 47,
            FrameWhy::Budget => 48,
        }
    }
}

/// What stands at a word address: an instruction with a word missing, an odd LABS, or an item, as the rules see it.
#[derive(Clone, Copy)]
pub enum Found {
    Missing,
    Odd,
    Seen(Seen),
}

/// The first item that breaks a rule, by its word address, the lowest rule that it breaks, what is known before it, and what
/// stands there.
#[derive(Clone, Copy)]
pub struct Fault<Why> {
    pub at: u16,
    pub why: Why,
    pub before: Known,
    pub found: Found,
}

impl<Why> Fault<Why> {
    /// The fault at a cursor: this rule is broken by what stands there. Seldom reached, so it stays out of its callers' loops.
    #[inline(never)]
    pub fn at(cursor: &Cursor, why: Why, found: Found) -> Fault<Why>
        ensures { result ≡ record { at = cursor.now.at; why = why; before = cursor.now.known; found = found } }
    {
        Fault {
            at: cursor.at,
            why,
            before: cursor.known,
            found,
        }
    }
}

/// The first faulty entry of a certificate, the word address of the first item of its shape that breaks a rule, and the
/// lowest rule that this item breaks.
#[derive(Clone, Copy, Debug, PartialEq, Eq, Error)]
#[error("shape {addr:03X}/{key} at {word:03X}: {why}")]
pub struct ShapeFault {
    pub addr: u16,
    pub key: Key,
    pub word: u16,
    pub why: ShapeWhy,
}

impl ShapeFault {
    /// The number of the rule, 20 to 33.
    pub fn number(self) -> u8
        ensures { result ≡ shape_number self.why }
    {
        self.why.number()
    }
}

/// The word address of the first item of a frame that breaks a rule, and the lowest rule that this item breaks.
#[derive(Clone, Copy, Debug, PartialEq, Eq, Error)]
#[error("frame at {word:03X}: {why}")]
pub struct FrameFault {
    pub word: u16,
    pub why: FrameWhy,
}

impl FrameFault {
    /// The number of the rule, 40 to 48.
    pub fn number(self) -> u8
        ensures { result ≡ frame_number self.why }
    {
        self.why.number()
    }
}

/// A frame's first fault, what is known before the item that breaks a rule (place, scale, words and depth so far), what stands
/// there, and the rule's own numbers.
#[derive(Clone, Copy)]
pub struct FrameFinding {
    pub fault: FrameFault,
    pub before: Known,
    pub found: Found,
    pub cause: FrameCause,
}

/// The first fault of a certificate's shapes, the entry whose shape it is, what is known before the item that breaks a rule
/// (place, scale, words and depth so far), what stands there, and the rule's own numbers.
#[derive(Clone, Copy)]
pub struct ShapeFinding {
    pub fault: ShapeFault,
    pub entry: Entry,
    pub before: Known,
    pub found: Found,
    pub cause: ShapeCause,
}
