//! The account of an answer of the maker.

use crate::chains::push_steps;
use crate::cure::advice;
use crate::item::RefusedItem;
use crate::lines::Lines;
use crate::meant::{meant, push_meant};
use crate::middle::{middle_of, push_middle};
use crate::piece::Piece::{Address, Line, Name, Number, Rule, Text, ToDo};
use crate::why::{
    AT_LOST_PLACE, AT_UNKNOWN_SCALE, HALT_IN_SHAPE, IN_ROM, push_missing, push_odd, push_words_over,
};
use dvg_cert::{Cert, Entries, Entry, Key, ListIndex, MOST_WORDS};
use dvg_items::Kind;
use dvg_make::{EntryCause, FrameCall, MakeAccount, MakeFault, ShapeAt, make};
use dvg_survey::{Call, deepest_calls};
use dvg_words::{FrameImage, FrameOn, Machine, RAM_WORDS, RomImage};
use std::alloc::{AllocError, Global};
use std::slice;

/// The most words that an entry takes.
fn most_words(entries: &[Entry]) -> u32 {
    entries.iter().fold(0, |most, entry| most.max(entry.words))
}

/// The most return places that an entry stores at once.
fn most_depth(entries: &[Entry]) -> u8 {
    entries.iter().fold(0, |most, entry| most.max(entry.depth))
}

/// Adds the lines of a certificate that is made for a machine (this project's own).
pub fn push_made(lines: &mut Lines, machine: Machine, cert: &Cert) {
    let entries = cert.entries();
    let words = Number(most_words(entries) as u64);
    let depth = Number(most_depth(entries) as u64);
    lines.push_machine(machine);
    lines.add(&[
        Line("entries"),
        Number(entries.len() as u64),
        Text(" of 4096"),
    ]);
    lines.add(&[Line("words"), Text("at most "), words, Text(" of 1000000")]);
    lines.add(&[
        Line("return places"),
        Text("at most "),
        depth,
        Text(" of 3"),
    ]);
}

/// Adds the lines of a refusal of the maker over a ROM, which was asked for the entries of these frames, too (this project's own).
pub fn push_unmade(
    lines: &mut Lines,
    rom: &RomImage,
    frames: &[FrameImage],
    account: &MakeAccount,
) -> Result<(), AllocError> {
    let number = MakeFault::from(account.fault.why).number();
    let frame = frame_of_call(frames, account.fault.call);
    let call = call_item(rom.machine(), frame, account.fault.call);
    let item = item_of(rom, frame, account);
    let meant = meant(lines.alloc, rom, account)?;
    let middle = middle_of(rom.machine(), frame, account);
    lines.push_machine(rom.machine());
    lines.add(&[Line("rule"), Rule(number)]);
    push_why(lines, rom, account);
    push_meant(lines, account.at, meant);
    push_middle(lines, middle);
    push_way(lines, &call, &item, account);
    push_below(lines, rom, account.cause)?;
    lines.add(&[ToDo]);
    lines.add(&advice(rom.map(), account));
    Ok(())
}

/// The frame of a call.
fn frame_of_call<'a, 'b>(
    frames: &'a [FrameImage<'b>],
    call: Option<FrameCall>,
) -> Option<&'a FrameImage<'b>> {
    frames.get(call?.frame)
}

/// The call of a frame that asks for what can't be made.
fn call_item(
    machine: Machine,
    frame: Option<&FrameImage>,
    call: Option<FrameCall>,
) -> Option<RefusedItem> {
    match (frame, call) {
        (Some(frame), Some(call)) => {
            Some(RefusedItem::call(&FrameOn::new(machine, frame), call.at))
        }
        _ => None,
    }
}

/// The item by which a shape can't be made; `None` where no shape was begun.
fn item_of(
    rom: &RomImage,
    frame: Option<&FrameImage>,
    account: &MakeAccount,
) -> Option<RefusedItem> {
    let shape = account.chain.last()?;
    let MakeAccount { at, before, .. } = *account;
    match frame {
        Some(frame) if at < RAM_WORDS => {
            let ram = FrameOn::new(rom.machine(), frame);
            Some(RefusedItem::new(&ram, Kind::Shape, shape.addr, at, Some(before), None))
        }
        _ => Some(RefusedItem::new(rom, Kind::Shape, shape.addr, at, Some(before), None)),
    }
}

/// Adds the lines of the item, and of the way to where the making stops. The item of a frame is its call.
fn push_way(
    lines: &mut Lines,
    call: &Option<RefusedItem>,
    item: &Option<RefusedItem>,
    account: &MakeAccount,
) {
    if let Some(refused) = call.as_ref().or(item.as_ref()) {
        refused.push_lines(lines);
    }
    push_chain(lines, account);
    if let (Some(_), Some(item)) = (call, item) {
        item.push_lines_there(lines);
    }
}

/// Adds the lines of the shapes on the way to the one that can't be made, and of those that need one another.
fn push_chain(lines: &mut Lines, account: &MakeAccount) {
    push_shapes(lines, account.fault.call, &account.chain);
    if let EntryCause::Ring { from } = account.cause {
        push_ring(lines, account.chain.get(from..).unwrap_or(&[]));
    }
}

/// Adds the lines of shapes that lead from one to the next, of which a frame's call or a root asks for the first.
fn push_shapes(lines: &mut Lines, call: Option<FrameCall>, shapes: &[ShapeAt]) {
    let mut caller = None;
    for shape in shapes {
        lines.add(&[Line("chain")]);
        push_caller(lines, call, caller);
        lines.add(&[Text(" leads to "), Name(shape.addr, shape.key)]);
        caller = Some(*shape);
    }
}

/// Adds what asks for a shape: the shape before it, a frame's call, or a root.
fn push_caller(lines: &mut Lines, call: Option<FrameCall>, caller: Option<ShapeAt>) {
    match (caller, call) {
        (Some(shape), _) => lines.add(&[Name(shape.addr, shape.key)]),
        (None, Some(call)) => lines.add(&[Text("frame at "), Address(call.at)]),
        (None, None) => lines.add(&[Text("root")]),
    }
}

/// Adds the lines of the shapes that need one another.
fn push_ring(lines: &mut Lines, shapes: &[ShapeAt]) {
    for shape in shapes {
        lines.add(&[Line("ring"), Name(shape.addr, shape.key)]);
    }
}

/// Adds why the maker refuses, unless memory was out. For a frame's call it says where the making stops.
fn push_why(lines: &mut Lines, rom: &RomImage, account: &MakeAccount) {
    let at = account.at;
    match (account.cause, account.fault.call) {
        (EntryCause::Memory, _) => {}
        (_, None) => {
            lines.add(&[Line("why")]);
            push_maker_why(lines, rom, account)
        }
        (EntryCause::Missing, Some(_)) if at < RAM_WORDS => lines.add(&[
            Line("why"),
            Text("word "),
            Address(at),
            Text(" is in vector RAM, and a call into vector RAM is always refused"),
        ]),
        (EntryCause::BeamUnknown | EntryCause::ScaleUnknown, Some(_)) => lines.add(&[
            Line("why"),
            Text("no LABS before the call sets the scale, and what it calls draws lit at "),
            Address(at),
        ]),
        (_, Some(_)) => {
            lines.add(&[
                Line("why"),
                Text("what it calls comes to "),
                Address(at),
                Text(": "),
            ]);
            push_maker_why(lines, rom, account)
        }
    }
}

/// Adds why the maker stops at an item.
fn push_maker_why(lines: &mut Lines, rom: &RomImage, account: &MakeAccount) {
    let at = account.at;
    match account.cause {
        EntryCause::RootOutside | EntryCause::Missing => {
            push_missing(lines, rom, at, IN_ROM, rom.map().first(), rom.map().last())
        }
        EntryCause::Odd => push_odd(lines, rom, at),
        EntryCause::Halt => lines.add(&[Text(HALT_IN_SHAPE)]),
        EntryCause::BeamUnknown => lines.add(&[Text(AT_LOST_PLACE)]),
        EntryCause::ScaleUnknown => lines.add(&[Text(AT_UNKNOWN_SCALE)]),
        EntryCause::Ring { from } => push_needed(lines, account.chain.get(from)),
        EntryCause::Deep { to, scale } => {
            lines.add(&[
                Text("it calls "),
                Name(to, scale),
                Text(
                    ", below which calls go three deep already: with this one and the frame's own they would be at least five",
                ),
            ])
        }
        EntryCause::TooManyWords { words } => {
            let over = words.saturating_sub(MOST_WORDS);
            push_words_over(lines, words, "a shape may take ", MOST_WORDS, over)
        }
        EntryCause::TooManyEntries => lines.add(&[Text("it would be the 4097th entry")]),
        EntryCause::Memory => {}
    }
}

/// Adds that an item leads to a shape which needs it.
fn push_needed(lines: &mut Lines, shape: Option<&ShapeAt>) {
    if let Some(shape) = shape {
        let name = Name(shape.addr, shape.key);
        lines.add(&[Text("it leads to "), name, Text(", which needs it")]);
    }
}

/// Adds the lines of the calls below what the item calls, where calls go too deep by it.
fn push_below(lines: &mut Lines, rom: &RomImage, cause: EntryCause) -> Result<(), AllocError> {
    let EntryCause::Deep { to, scale } = cause else {
        return Ok(());
    };
    let calls = calls_below(lines.alloc, rom, to, scale)?;
    push_steps(lines, "below", Some((to, scale)), &calls);
    Ok(())
}

/// The calls that go deepest below a shape, by the certificate of that shape alone.
#[tactic(auto, using(dvg_items::proofs::Listed::listed_at))]
fn calls_below(
    alloc: Global,
    rom: &RomImage,
    addr: u16,
    scale: Key,
) -> Result<Vec<Call>, AllocError> {
    let cert = match make(alloc, rom, slice::from_ref(&(addr, scale))) {
        Ok(cert) => cert,
        Err(MakeFault::Memory) => return Err(AllocError),
        Err(_) => return Ok(Vec::new(alloc)),
    };
    let entries = ListIndex::new(&cert);
    match entries.find(addr, scale) {
        Some(entry) => deepest_calls(alloc, rom, &cert, &entries, &entry),
        None => Ok(Vec::new(alloc)),
    }
}
