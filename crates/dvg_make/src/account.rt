//! The account of a refusal: why an entry can't be made.

ghost use Rattle.std.specs.Prelude.{◌≡◌, ℕ, List, IfOk, IfErr};
ghost use Rattle.dvg_words.specs.Memory.{Rom};
ghost use Rattle.dvg_cert.specs.declared.entry.Key.{Key as KeyValue};
ghost use Rattle.dvg_make.specs.Frames.{FramesMade};
ghost use Rattle.dvg_make.specs.Refusals.{FramesRefuse};
ghost use Rattle.dvg_make.specs.Accounts.{entry_fault, Memory, IsAccount};
ghost use Rattle.dvg_make.specs.Private.Making.{IsRefused, TellsRight};

use crate::fault::{EntryFault, FramesFault};
use crate::maker::make_indexed;
use crate::obstacle::Blocked;
use dvg_cert::{Cert, Key};
use dvg_items::{Kind, Known};
use dvg_words::{FrameImage, RomImage};
use std::alloc::{AllocError, Global};

/// A shape: its word address, and the global scale at which it is called, `Any` if the scale is unknown.
#[derive(Clone, Copy, Debug, PartialEq, Eq)]
pub struct ShapeAt {
    pub addr: u16,
    pub key: Key,
}

/// Why an entry can't be made, in numbers.
#[derive(Clone, Copy, Debug, PartialEq, Eq)]
pub enum EntryCause {
    /// 60: the root is outside the ROM, or its scale is over 15.
    RootOutside,
    /// 60: a word of the item is outside the ROM.
    Missing,
    /// 60: the item is an odd LABS.
    Odd,
    /// 60: the item is HALT.
    Halt,
    /// 60: the item lights at a lost place.
    BeamUnknown,
    /// 60: the item lights at unknown scale.
    ScaleUnknown,
    /// 61: the item calls or tail jumps to the shape of the chain at this index, counted from 0, the outermost.
    Ring { from: usize },
    /// 61: the item calls the entry for this address and scale, which stores three return places at once already.
    Deep { to: u16, scale: Key },
    /// 62: so many words are fetched up to and with the item.
    TooManyWords { words: u32 },
    /// 62: what the item calls, or with an empty chain what is asked for, would be the 4,097th entry.
    TooManyEntries,
    /// 63: there was no memory.
    Memory,
}

impl EntryCause {
    /// The refusal to which this cause at a word address leads.
    pub fn fault(self, at: u16) -> EntryFault
        ensures { result ≡ entry_fault at self }
    {
        match self {
            EntryCause::RootOutside
            | EntryCause::Missing
            | EntryCause::Odd
            | EntryCause::Halt
            | EntryCause::BeamUnknown
            | EntryCause::ScaleUnknown => EntryFault::Unstraight { word: at },
            EntryCause::Ring { .. } | EntryCause::Deep { .. } => EntryFault::Deep,
            EntryCause::TooManyWords { .. } => EntryFault::TooManyWords,
            EntryCause::TooManyEntries => EntryFault::TooManyEntries,
            EntryCause::Memory => EntryFault::Memory,
        }
    }
}

impl From<AllocError> for EntryCause {
    ghost from_gives = { λ _ cause. cause ≡ Memory };

    fn from(_error: AllocError) -> EntryCause {
        EntryCause::Memory
    }
}

/// A refusal of [`make_for_frames`](crate::make_for_frames), with all that led to it. If memory was out, only `fault` counts.
#[derive(Drop)]
pub struct MakeAccount {
    pub fault: FramesFault,
    /// The shapes on the way to the faulty item, the outermost first: a root or what the frame calls. Each calls or tail jumps to
    /// the next. Empty if the entry that is asked for is not even begun.
    pub chain: Vec<ShapeAt>,
    /// The word address of the faulty item, which stands in the last shape of the chain. If the chain is empty, the address of the
    /// entry that is asked for.
    pub at: u16,
    /// What is known before the item at `at`.
    pub before: Known,
    pub cause: EntryCause,
}

/// The account of a want of memory.
fn out_of_memory(alloc: Global) -> MakeAccount
    ensures { (rom : Rom) (roots : List (ℕ × KeyValue)) (frames : List (List ℕ)) → TellsRight rom roots frames result }
{
    MakeAccount {
        fault: FramesFault {
            call: None,
            why: EntryFault::Memory,
        },
        chain: Vec::new(alloc),
        at: 0,
        before: Known::start(Kind::Shape, Key::Any),
        cause: EntryCause::Memory,
    }
}

/// The account of a refusal. It is a want of memory if there is none for the chain.
pub fn account_of(alloc: Global, blocked: &Blocked) -> MakeAccount
    ensures { (rom : Rom) (roots : List (ℕ × KeyValue)) (frames : List (List ℕ)) → IsRefused rom roots frames blocked.now → TellsRight rom roots frames result }
{
    let obstacle = blocked.obstacle;
    match blocked.chain.shapes(alloc) {
        Ok(chain) => MakeAccount {
            fault: blocked.fault(),
            chain,
            at: obstacle.cursor.at,
            before: obstacle.cursor.known,
            cause: obstacle.cause,
        },
        Err(_) => out_of_memory(alloc),
    }
}

/// Makes what [`make_for_frames`](crate::make_for_frames) makes. A refusal comes with its account: the shapes on the way to the
/// faulty item, the item, what is known before it, and the cause in numbers (profile).
///
/// The account holds by the entries that were made by then. If memory was out, also for the account, it is 63 and tells no more.
/// Takes memory as `make_for_frames` does, and for the chain.
pub fn explain_making(
    alloc: Global,
    rom: &RomImage,
    roots: &[(u16, Key)],
    frames: &[FrameImage],
) -> Result<Cert, MakeAccount>
    ensures ok { IfOk result (λ cert. FramesMade rom.now roots.now frames.now cert.entries) }
    ensures map { IfOk result (λ cert. cert.map ≡ rom.now.map) }
    ensures err { IfErr result (λ account. FramesRefuse rom.now roots.now frames.now account.fault) }
    ensures why { IfErr result (λ account. account.fault.why ≡ entry_fault account.at account.cause) }
    ensures chain { IfErr result (IsAccount rom.now roots.now frames.now) }
{
    match make_indexed(alloc, rom, roots, frames) {
        Ok(made) => Ok(made.cert),
        Err(blocked) => Err(account_of(alloc, &blocked)),
    }
}
