//! The answer of a judgement, in plain numbers.

ghost use Rattle.std.specs.Prelude.{◌≡◌, Ok};
ghost use Rattle.dvg_c.specs.Told.{told_key, numbered, told_yes, told_refusal, told, told_fault, told_own, told_timed, yes_of};

use dvg_cert::Key;
use dvg_check::{Refusal, Yes};
use dvg_clocks::ClockRange;
use dvg_make::{EntryFault, FrameRefusal, MakeFault};

/// The answer of a judgement. A field that its number doesn't speak of is 0.
#[repr(C)]
#[derive(Clone, Copy)]
pub struct Answer {
    /// With 0, of a frame that is judged alone on the board: how many clocks every run takes at most, a clock being 1/1,512,000 s; 0 where
    /// there was no memory to count them.
    pub clocks: u64,
    /// With 0: how many shapes the certificate claims.
    pub shapes: u32,
    /// With 0: how many words every run fetches at most.
    pub words: u32,
    /// With 10 to 16: the certificate's line, counted from 1.
    pub line: u32,
    /// With 20 to 33 and 40 to 48: the word address of the first item that breaks a rule. With 60: that of the item that no shape
    /// can have.
    pub word: u16,
    /// With 20 to 33: the word address of the entry whose shape breaks it.
    pub shape: u16,
    /// With 20 to 33: the global scale of that entry, 0 to 15, or 16 for any.
    pub scale: u8,
    /// With 0: how many return places every run stores at once at most.
    pub depth: u8,
    /// 0 where it is accepted, else the number of the refusal, 80 for a bad window, 82 for a bad machine, 83 for a bad map, 86 for
    /// lengths that don't add up, or 87 for a bad mode.
    pub number: u8,
    /// With 60 to 62, and of a made text with 63 at a call: the word address of the frame's call whose entry can't be made, or
    /// `NO_CALL` where it is a root's.
    pub call: u16,
}

/// The number of a bad window.
pub const BAD_WINDOW: u8 = 80;

/// The number of a bad machine.
pub const BAD_MACHINE: u8 = 82;

/// The number of a bad map.
pub const BAD_MAP: u8 = 83;

/// The number of a buffer that is too short.
pub const SHORT_BUFFER: u8 = 84;

/// The number of a want of memory for a text.
pub const NO_TEXT_MEMORY: u8 = 85;

/// The number of lengths that don't add up to the length of the bytes.
pub const BAD_LENGTHS: u8 = 86;

/// The number of a bad mode.
pub const BAD_MODE: u8 = 87;

/// What stands for a call where a root's entry can't be made.
pub const NO_CALL: u16 = 0xFFFF;

/// What stands for the key of any scale.
pub const ANY_SCALE: u8 = 16;

/// A number that stands for a key.
pub fn scale_of(key: Key) -> u8
    ensures { result ≡ told_key key }
{
    match key {
        Key::At(scale) => scale,
        Key::Any => ANY_SCALE,
    }
}

/// A number alone.
pub fn numbered(number: u8) -> Answer
    ensures { result ≡ numbered number }
{
    Answer {
        clocks: 0,
        shapes: 0,
        words: 0,
        line: 0,
        word: 0,
        shape: 0,
        scale: 0,
        depth: 0,
        number,
        call: 0,
    }
}

/// What is accepted.
pub fn accepted(yes: &Yes) -> Answer
    ensures { result ≡ told_yes yes.now }
{
    Answer {
        shapes: yes.shapes,
        words: yes.words,
        depth: yes.depth,
        ..numbered(0)
    }
}

/// The number of a refusal, and its place.
pub fn refused(refusal: &Refusal) -> Answer
    ensures { result ≡ told_refusal refusal.now }
{
    let bare = numbered(refusal.number());
    match refusal {
        Refusal::Cert(fault) => Answer {
            line: fault.line,
            ..bare
        },
        Refusal::Shape(fault) => Answer {
            shape: fault.addr,
            scale: scale_of(fault.key),
            word: fault.word,
            ..bare
        },
        Refusal::Frame(fault) => Answer {
            word: fault.word,
            ..bare
        },
        Refusal::Image(_) | Refusal::BudgetRange | Refusal::IndexMemory => bare,
    }
}

/// The answer of a verdict.
pub fn answer_of(verdict: &Result<Yes, Refusal>) -> Answer
    ensures value { result ≡ told verdict.now }
    ensures accepted { result.number ≡ 0 → verdict.now ≡ Ok (yes_of result) }
{
    match verdict {
        Ok(yes) => accepted(yes),
        Err(refusal) => refused(refusal),
    }
}

/// Why an entry can't be made.
pub fn unmade(why: EntryFault) -> Answer
    ensures { result ≡ told_fault why }
{
    let bare = numbered(MakeFault::from(why).number());
    match why {
        EntryFault::Unstraight { word } => Answer { word, ..bare },
        _ => bare,
    }
}

/// The answer of a verdict on a frame by its own certificate.
pub fn own_answer(verdict: &Result<Yes, FrameRefusal>) -> Answer
    ensures value { result ≡ told_own verdict.now }
    ensures accepted { result.number ≡ 0 → verdict.now ≡ Ok (yes_of result) }
{
    match verdict {
        Ok(yes) => accepted(yes),
        Err(FrameRefusal::Make { at, why }) => Answer {
            call: *at,
            ..unmade(*why)
        },
        Err(FrameRefusal::NoMemory) => unmade(EntryFault::Memory),
        Err(FrameRefusal::Check(refusal)) => refused(refusal),
    }
}

/// The answer of a verdict on a frame by its own certificate, with the clocks of an accepted frame, if they were counted.
pub fn timed_answer(verdict: &Result<Yes, FrameRefusal>, clocks: &Option<ClockRange>) -> Answer
    ensures value { result ≡ told_timed verdict.now clocks.now }
    ensures accepted { result.number ≡ 0 → verdict.now ≡ Ok (yes_of result) }
{
    match (verdict, clocks) {
        (Ok(yes), Some(clocks)) => Answer {
            clocks: clocks.most,
            ..accepted(yes)
        },
        _ => own_answer(verdict),
    }
}
