//! The sentences that tell why an item is refused.

use crate::item::words_at;
use crate::lines::Lines;
use crate::piece::Piece::{self, Address, Number, PastBox, PastWindow, Place, Scale, Text};
use dvg_cert::{End, Entry, Key};
use dvg_check::{BoxLeaving, Found, FrameCause, FrameFinding, Leaving, ShapeCause, ShapeFinding};
use dvg_items::{LitExtent, Seen};
use dvg_words::{Fetch, FrameImage, FrameOn, Instr, Machine, Point, RomImage};

/// Adds that a word of the item at a word address is missing, in a memory of this owner with words from the first address to the last.
pub fn push_missing<F: Fetch>(
    lines: &mut Lines,
    memory: &F,
    at: u16,
    owner: &'static str,
    first: u16,
    last: u16,
) {
    let word = match memory.fetch(at) {
        Some(_) => at + 1,
        None => at,
    };
    lines.add(&[
        Text("word "),
        Address(word),
        Text(owner),
        Address(first),
        Text(" to "),
        Address(last),
    ]);
}

/// Before the addresses of the words of a frame.
const IN_FRAME: &str = " is not in the frame, whose words are ";

/// Before the addresses of the words of a ROM.
pub const IN_ROM: &str = " is not in the ROM, whose words are ";

/// The twelve bits of a word of a LABS, if they are over 1023: bit 11 or bit 10 is set.
fn odd_field(word: u16) -> Option<u16> {
    let field = word % 4096;
    if field > 1023 { Some(field) } else { None }
}

/// Adds which fields of the LABS at a word address are over 1023: Y in its first word, X in its second.
pub fn push_odd<F: Fetch>(lines: &mut Lines, memory: &F, at: u16) {
    match words_at(memory, at) {
        None => {}
        Some((first, None)) => push_odd_fields(lines, odd_field(first), None),
        Some((first, Some(second))) => {
            push_odd_fields(lines, odd_field(first), odd_field(second))
        }
    }
}

/// Adds these fields of a LABS, which are over 1023.
fn push_odd_fields(lines: &mut Lines, y: Option<u16>, x: Option<u16>) {
    let most = Text(", at most 1023");
    match (y, x) {
        (Some(y), Some(x)) => lines.add(&[
            Text("bit 11 or bit 10 is set in both its words: Y "),
            Number(y as u64),
            Text(", X "),
            Number(x as u64),
            most,
        ]),
        (Some(y), None) => lines.add(&[
            Text("bit 11 or bit 10 is set in its first word: Y "),
            Number(y as u64),
            most,
        ]),
        (None, Some(x)) => lines.add(&[
            Text("bit 11 or bit 10 is set in its second word: X "),
            Number(x as u64),
            most,
        ]),
        (None, None) => {}
    }
}

/// That an item is a HALT in a shape.
pub const HALT_IN_SHAPE: &str = "HALT stands in a shape";

/// That an item draws lit at a lost place.
pub const AT_LOST_PLACE: &str = "it draws lit at a lost place";

/// That an item draws lit at unknown scale.
pub const AT_UNKNOWN_SCALE: &str = "it draws lit at unknown scale";

/// What lights at a lost place: the box of the entry that the item names, or a draw.
fn lost_place(found: &Found) -> &'static str {
    match found {
        Found::Seen(seen) if seen.callee.is_some() => {
            "the entry that it names has a box, and the place is lost"
        }
        _ => AT_LOST_PLACE,
    }
}

/// The coordinates of a place, relative or absolute.
fn point_of(place: End) -> Option<Point> {
    match place {
        End::Rel { x, y } | End::Abs { x, y } => Some(Point { x, y }),
        End::Lost => None,
    }
}

/// The first corner of what an item lights: the start of a draw, or the lower left corner of a called box.
fn first_corner(seen: &Seen) -> Option<Point> {
    let place = point_of(seen.place)?;
    match seen.extent {
        LitExtent::Between { from, .. } => Some(Point {
            x: place.x.wrapping_add(from.x),
            y: place.y.wrapping_add(from.y),
        }),
        _ => None,
    }
}

/// Which corner of what an item lights stands at a point: an end of a draw, or a corner of the box of the entry that it calls.
fn corner(found: &Found, point: Point) -> &'static str {
    let Found::Seen(seen) = found else {
        return "its end at ";
    };
    match (seen.item.instr, first_corner(seen) == Some(point)) {
        (Instr::Draw(_), true) => "its start at ",
        (Instr::Draw(_), false) => "its end at ",
        (_, true) => "the lower left corner of its entry's box at ",
        (_, false) => "the upper right corner of its entry's box at ",
    }
}

/// Adds which corner of what an item lights is past an edge of the window.
fn push_past(lines: &mut Lines, found: &Found, leaving: Leaving) {
    lines.add(&[Text(corner(found, leaving.corner)), PastWindow(leaving)]);
}

/// Adds how the claimed box is left.
fn push_leaves_box(lines: &mut Lines, found: &Found, leaving: BoxLeaving) {
    match leaving {
        BoxLeaving::Empty(at) => lines.add(&[
            Text(corner(found, at)),
            Piece::Point(at),
            Text(" is lit, and the entry claims box none"),
        ]),
        BoxLeaving::Past(leaving) => {
            lines.add(&[Text(corner(found, leaving.corner)), PastBox(leaving)])
        }
    }
}

/// Adds that no entry is named by this address and this scale, `Any` where it is unknown.
fn push_no_entry(lines: &mut Lines, to: u16, scale: Key) {
    match scale {
        Key::At(scale) => lines.add(&[
            Text("no entry is for "),
            Address(to),
            Text(" at scale "),
            Number(scale as u64),
            Text(", and none for "),
            Address(to),
            Text(" at any"),
        ]),
        Key::Any => lines.add(&[
            Text("the scale is unknown, and no entry is for "),
            Address(to),
            Text(" at any"),
        ]),
    }
}

/// How many words there are up to and with an item that is there.
fn words_with(found: &Found) -> u32 {
    match found {
        Found::Seen(seen) => seen.after.words,
        _ => 0,
    }
}

/// Adds that there are so many words up to and with an item, what allows fewer, and by how many they are over.
pub fn push_words_over(lines: &mut Lines, words: u32, allows: &'static str, most: u32, over: u32) {
    lines.add(&[
        Number(words as u64),
        Text(" words with it, and "),
        Text(allows),
        Number(most as u64),
        Text(": over by "),
        Number(over as u64),
    ]);
}

/// Where an item at a word address lands that jumps back: at its own address, or at a lower one.
fn landing(at: u16, to: u16) -> &'static str {
    if to == at {
        ", its own address"
    } else {
        ", a lower address"
    }
}

/// Adds why an item of a frame is refused on a machine.
pub fn push_frame_why(
    lines: &mut Lines,
    machine: Machine,
    finding: &FrameFinding,
    frame: &FrameImage,
) {
    let found = &finding.found;
    let at = finding.fault.word;
    let framed = FrameOn::new(machine, frame);
    match finding.cause {
        FrameCause::Unmapped => {
            let last = frame.words().saturating_sub(1);
            push_missing(lines, &framed, at, IN_FRAME, 0, last)
        }
        FrameCause::Odd => push_odd(lines, &framed, at),
        FrameCause::ReturnInFrame => {
            lines.add(&[Text("RTSL stands in a frame, and there is no call to return from")])
        }
        FrameCause::BackJump(to) => lines.add(&[
            Text("it jumps to "),
            Address(to),
            Text(landing(at, to)),
        ]),
        FrameCause::BeamUnknown => lines.add(&[Text(lost_place(found))]),
        FrameCause::ScaleUnknown => lines.add(&[Text(AT_UNKNOWN_SCALE)]),
        FrameCause::OffScreen(leaving) => push_past(lines, found, leaving),
        FrameCause::NoEntry { to, scale } => push_no_entry(lines, to, scale),
        FrameCause::Budget(over) => {
            let words = words_with(found);
            push_words_over(
                lines,
                words,
                "the budget is ",
                words.saturating_sub(over),
                over,
            )
        }
    }
}

/// Adds why an item of a shape is refused.
pub fn push_shape_why(lines: &mut Lines, finding: &ShapeFinding, rom: &RomImage) {
    let found = &finding.found;
    let at = finding.fault.word;
    match finding.cause {
        ShapeCause::Unmapped => {
            push_missing(lines, rom, at, IN_ROM, rom.map().first(), rom.map().last())
        }
        ShapeCause::Odd => push_odd(lines, rom, at),
        ShapeCause::HaltInShape => lines.add(&[Text(HALT_IN_SHAPE)]),
        ShapeCause::BeamUnknown => lines.add(&[Text(lost_place(found))]),
        ShapeCause::ScaleUnknown => lines.add(&[Text(AT_UNKNOWN_SCALE)]),
        ShapeCause::OffScreen(leaving) => push_past(lines, found, leaving),
        ShapeCause::NoEntry { to, scale } => push_no_entry(lines, to, scale),
        ShapeCause::BoxTooSmall(leaving) => push_leaves_box(lines, found, leaving),
        claim => push_claim(lines, claim, &finding.entry, words_with(found)),
    }
}

/// Adds which claim of an entry is broken, where so many words are taken up to and with the item.
fn push_claim(lines: &mut Lines, cause: ShapeCause, entry: &Entry, words: u32) {
    match cause {
        ShapeCause::TooDeep(depth) => lines.add(&[
            Text("it needs depth "),
            Number(depth as u64),
            Text(", and the entry claims "),
            Number(entry.depth as u64),
        ]),
        ShapeCause::EndDiffers(end) => lines.add(&[
            Text("the shape ends at "),
            Place(end),
            Text(", and the entry claims end "),
            Piece::End(entry.stop),
        ]),
        ShapeCause::ScaleDiffers(scale) => lines.add(&[
            Text("the shape ends at scale "),
            Scale(scale),
            Text(", and the entry claims scale "),
            Piece::Key(entry.scale),
        ]),
        ShapeCause::WordsDiffer(words) => lines.add(&[
            Text("the entry claims "),
            Number(entry.words as u64),
            Text(" words, and the shape takes "),
            Number(words as u64),
        ]),
        ShapeCause::DepthDiffers(depth) => lines.add(&[
            Text("the shape needs depth "),
            Number(depth as u64),
            Text(", and the entry claims "),
            Number(entry.depth as u64),
        ]),
        ShapeCause::TooManyWords(over) => {
            push_words_over(lines, words, "the entry claims ", entry.words, over)
        }
        _ => push_words_over(lines, words, "the entry claims ", entry.words, 0),
    }
}
