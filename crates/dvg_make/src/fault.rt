//! Why no certificate is made.

ghost use Rattle.std.specs.Prelude.{◌≡◌, None};
ghost use Rattle.dvg_make.specs.Refusals.{fault_number, make_fault_of, Memory};
ghost use Rattle.dvg_make.specs.declared.fault.MakeFault.TheVariants as make;

use std::alloc::AllocError;
use thiserror::Error;

/// Why an entry that a certificate needs can't be made: 60 to 63, with two cases of 62.
#[derive(Clone, Copy, Debug, PartialEq, Eq, Error)]
pub enum EntryFault {
    /// 60: the item at this word is missing, odd or HALT, or it lights at an unknown place or scale; or the root at this
    /// word is outside the ROM, or has a key over 15.
    #[error("no shape can have the item at {word:03X}")]
    Unstraight { word: u16 },
    /// 61: a shape needs itself, or its calls go more than three deep.
    #[error("the shapes call too deep")]
    Deep,
    /// 62: a shape has more than 1,000,000 words.
    #[error("a shape has too many words")]
    TooManyWords,
    /// 62: there would be more than 4,096 entries.
    #[error("there are too many entries")]
    TooManyEntries,
    /// 63: there was no memory.
    #[error("there is no memory for the certificate")]
    Memory,
}

/// Why no certificate is made. The numbers are 60 to 63, in this order.
#[derive(Clone, Copy, Debug, PartialEq, Eq, Error)]
pub enum MakeFault {
    /// 60: the item at this word is missing, odd or HALT, or it lights at an unknown place or scale; or the root at this
    /// word is outside the ROM, or has a key over 15.
    #[error("no shape can have the item at {word:03X}")]
    Unstraight { word: u16 },
    /// 61: a shape needs itself, or its calls go more than three deep.
    #[error("the shapes call too deep")]
    Deep,
    /// 62: a shape has more than 1,000,000 words, or there are more than 4,096 entries.
    #[error("the shapes are too large for a certificate")]
    TooLarge,
    /// 63: there was no memory.
    #[error("there is no memory for the certificate")]
    Memory,
}

impl MakeFault {
    /// 60 to 63.
    pub fn number(self) -> u8
        ensures { result ≡ fault_number self }
    {
        match self {
            MakeFault::Unstraight { .. } => 60,
            MakeFault::Deep => 61,
            MakeFault::TooLarge => 62,
            MakeFault::Memory => 63,
        }
    }
}

impl From<EntryFault> for MakeFault {
    ghost from_gives = { λ why fault. fault ≡ make_fault_of why };

    fn from(why: EntryFault) -> MakeFault {
        match why {
            EntryFault::Unstraight { word } => MakeFault::Unstraight { word },
            EntryFault::Deep => MakeFault::Deep,
            EntryFault::TooManyWords | EntryFault::TooManyEntries => MakeFault::TooLarge,
            EntryFault::Memory => MakeFault::Memory,
        }
    }
}

/// A call of one of several frames: which frame, counted from 0, and the word address of the call.
#[derive(Clone, Copy, Debug, PartialEq, Eq)]
pub struct FrameCall {
    pub frame: usize,
    pub at: u16,
}

/// Why no certificate is made for frames.
#[derive(Clone, Copy, Debug, PartialEq, Eq)]
pub struct FramesFault {
    /// The call whose entry can't be made. `None` if it is a root's entry, or if memory was out for something else: the certificate,
    /// an account, or the answer of a comparison.
    pub call: Option<FrameCall>,
    pub why: EntryFault,
}
