//! The certificate that the maker makes, as a text in C's buffer.

ghost use Rattle.std.specs.Prelude.{◌≡◌, Ok, Err, IfOk, IfErr};
ghost use Rattle.dvg_spelling.specs.Each.{of_each};
ghost use Rattle.dvg_c.specs.Making.{AreCut, RefusesCut, RunVerdict, root_of, told_run, told_unmade};

use crate::answer::{ANY_SCALE, Answer, BAD_LENGTHS, NO_CALL, numbered, unmade as unmade_answer};
use crate::text::{TextAnswer, no_text, text_numbered};
use dvg_cmd::{Counted, Key, MakeFault, MakeRunFault, run_make_frames};
use dvg_words::{Machine, RomMap};
use std::alloc::{AllocError, Global};

/// A shape for which there is to be an entry: its word address, and the global scale at its calls, 0 to 15, or 16 for any.
#[repr(C)]
#[derive(Clone, Copy)]
pub struct Root {
    pub addr: u16,
    pub scale: u8,
}

/// The address and the key of a root.
fn root_of(root: &Root) -> (u16, Key)
    ensures { result ≡ root_of root.now }
{
    let key = if root.scale == ANY_SCALE {
        Key::Any
    } else {
        Key::At(root.scale)
    };
    (root.addr, key)
}

/// The addresses and keys of roots.
fn roots_of(alloc: Global, roots: &[Root]) -> Result<Vec<(u16, Key)>, AllocError>
    ensures { IfOk result (λ all. all.items ≡ of_each root_of roots.now) }
{
    let mut all = Vec::new(alloc);
    'roots: for i in 0..roots.len() {
        all.push(root_of(&roots[i]))?;
    }
    Ok(all)
}

/// Readers of the frames that lie one behind the other in these bytes, with these lengths, or what is told where there are none.
fn frames_of<'a>(
    alloc: Global,
    bytes: &'a [u8],
    lengths: &[u32],
) -> Result<Vec<Counted<&'a [u8]>>, TextAnswer>
    ensures ok { IfOk result (λ readers. AreCut bytes.now lengths.now (of_each (λ reader. reader.device.now) readers.items)) }
    ensures err { IfErr result (RefusesCut bytes.now lengths.now) }
{
    let mut readers = Vec::new(alloc);
    let mut rest = bytes;
    'frames: for i in 0..lengths.len() {
        let length = lengths[i] as usize;
        if rest.len() < length {
            return Err(text_numbered(BAD_LENGTHS));
        }
        let (frame, behind) = rest.split_at(length);
        if readers.push(Counted::new(frame)).is_err() {
            return Err(text_numbered(MakeFault::Memory.number()));
        }
        rest = behind;
    }
    if !rest.is_empty() {
        return Err(text_numbered(BAD_LENGTHS));
    }
    Ok(readers)
}

/// The text of the certificate on a machine, for a ROM that lies at a map, or what is told where there is none.
pub fn made_text(
    alloc: Global,
    machine: Machine,
    map: RomMap,
    rom: &[u8],
    roots: &[Root],
    frames: &[u8],
    lengths: &[u32],
) -> Result<Vec<u8>, TextAnswer>
    ensures ok { IfOk result (λ text. RunVerdict machine rom.now map (of_each root_of roots.now) frames.now lengths.now (Ok text.items)) }
    ensures err { IfErr result (λ told. RunVerdict machine rom.now map (of_each root_of roots.now) frames.now lengths.now (Err told)) }
{
    let mut readers = frames_of(alloc, frames, lengths)?;
    let Ok(roots) = roots_of(alloc, roots) else {
        return Err(text_numbered(MakeFault::Memory.number()));
    };
    let mut rom = Counted::new(rom);
    let mut out = Counted::new(Vec::new(alloc));
    match run_make_frames(
        machine,
        alloc,
        &mut rom,
        map,
        &roots,
        &mut readers,
        &mut out,
    ) {
        Ok(()) => Ok(out.into_inner()),
        Err(fault) => Err(unmade(&fault)),
    }
}

/// The answer of a fault of the maker's run.
fn run_answer(fault: &MakeRunFault) -> Answer
    ensures { result ≡ told_run fault.now }
{
    let bare = numbered(fault.number());
    match fault {
        MakeRunFault::Call { call, why } => Answer {
            call: call.at,
            ..unmade_answer(*why)
        },
        MakeRunFault::Make(MakeFault::Unstraight { word }) => Answer {
            word: *word,
            call: NO_CALL,
            ..bare
        },
        MakeRunFault::Make(MakeFault::Deep | MakeFault::TooLarge) => Answer {
            call: NO_CALL,
            ..bare
        },
        MakeRunFault::ReadRom | MakeRunFault::ReadFrame | MakeRunFault::Write => {
            numbered(MakeFault::Memory.number())
        }
        _ => bare,
    }
}

/// What is told of a fault of the maker's run.
fn unmade(fault: &MakeRunFault) -> TextAnswer
    ensures { result ≡ told_unmade fault.now }
{
    let answer = run_answer(fault);
    TextAnswer {
        frame: fault.frame().unwrap_or(0),
        ..no_text(answer.number, answer)
    }
}
