//! What is worth a second look in what is accepted. It changes no answer.

use crate::beginnings::{Beginning, Beginnings};
use crate::inputs::Inputs;
use crate::lines::Lines;
use crate::piece::Piece::{Address, Line, Name, Number, Text};
use crate::shape_items::{ShapeItems, from_address};
use dvg_cert::{Cert, Entries, Entry, Key};
use dvg_survey::is_faint;
use dvg_words::RomImage;
use std::alloc::AllocError;

/// What is noted of the items of an entry's shape.
#[derive(Clone, Copy)]
struct ShapeWalk {
    /// The word address of the first lit draw at an effective scale of 10 to 15, and how many there are.
    first_faint: Option<u16>,
    faint: usize,
    /// The word address to which the shape runs on, where something else begins: the first other shape, or without one the first
    /// label.
    into: Option<(u16, Beginning)>,
}

impl ShapeWalk {
    /// The walk over the shape of an entry. `later` are the entries of its certificate that begin behind it, and maybe some before.
    fn over<E: Entries>(
        entries: &E,
        entry: &Entry,
        later: &[Entry],
        beginnings: &Beginnings,
    ) -> ShapeWalk {
        let mut walk = ShapeWalk {
            first_faint: None,
            faint: 0,
            into: None,
        };
        let mut items = ShapeItems::of(entry, later);
        while let Some(next) = items.next(entries, beginnings) {
            if is_faint(&next.item.instr, next.scale) {
                walk.first_faint = walk.first_faint.or(Some(next.item.at));
                walk.faint = walk.faint.saturating_add(1);
            }
            match (walk.into, next.meets) {
                (_, None)
                | (Some((_, Beginning::Entry)), _)
                | (Some(_), Some((_, Beginning::Label))) => {}
                (_, meets) => walk.into = meets,
            }
        }
        walk
    }
}

/// Adds the lines of what is remarked on a frame, whose faint draws stand at these word addresses, and on the shapes of a certificate over
/// a ROM, by the labels and the other frames of these inputs.
pub fn push_remarks<E: Entries>(
    lines: &mut Lines,
    inputs: &Inputs,
    cert: &Cert,
    entries: &E,
    rom: Option<&RomImage>,
    faint: &[u16],
) -> Result<(), AllocError> {
    push_faint(lines, None, faint.len(), faint.first().copied());
    if let Some(rom) = rom {
        let beginnings = Beginnings::new(lines.alloc, inputs, rom)?;
        push_shapes(lines, cert, entries, &beginnings);
    }
    Ok(())
}

/// Adds the line of how many lit draws of a shape, or of the frame, have an effective scale of 10 to 15, and of the first one's word
/// address, if there are any.
fn push_faint(lines: &mut Lines, shape: Option<(u16, Key)>, draws: usize, first: Option<u16>) {
    let Some(first) = first else {
        return;
    };
    lines.add(&[
        Line("scales over 9"),
        Number(draws as u64),
        Text(" of the lit draws of "),
        match shape {
            Some((addr, key)) => Name(addr, key),
            None => Text("the frame"),
        },
        Text(", the first at "),
        Address(first),
        Text(": on the board each is a dot"),
    ]);
}

/// Adds the line of the word address into which a shape runs on, if that is the beginning of something else.
fn push_runs_on(lines: &mut Lines, (addr, key): (u16, Key), into: Option<(u16, Beginning)>) {
    let Some((into, at)) = into else {
        return;
    };
    lines.add(&[
        Line("runs on"),
        Name(addr, key),
        Text(" into "),
        Address(into),
        Text(match at {
            Beginning::Entry => ", where another shape begins",
            Beginning::Label => ", where a label stands",
        }),
    ]);
}

/// Adds the remarks on the shapes. A shape that runs on has this remark at its first scale alone.
fn push_shapes<E: Entries>(lines: &mut Lines, cert: &Cert, entries: &E, beginnings: &Beginnings) {
    let mut told = None;
    let mut later = cert.entries();
    for entry in cert.entries() {
        later = from_address(later, Some(entry.addr));
        let shape = (entry.addr, entry.key);
        let walk = ShapeWalk::over(entries, entry, later, beginnings);
        push_faint(lines, Some(shape), walk.faint, walk.first_faint);
        if told != Some(entry.addr) {
            push_runs_on(lines, shape, walk.into);
        }
        told = Some(entry.addr);
    }
}
