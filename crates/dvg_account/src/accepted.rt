//! The account of what is accepted.

ghost use Rattle.std.specs.Prelude.{IfOk};
ghost use Rattle.dvg_account.specs.Swapped.{IsOwnAnswer};

use crate::inputs::Inputs;
use crate::lines::Lines;
use crate::piece::Piece::{self, Address, Answer, Distance, Line, Number, Text, Within};
use crate::remarks::push_remarks;
use dvg_cert::{HashIndex, LitBox};
use dvg_check::{Refusal, Yes, frame_of};
use dvg_make::{FrameRefusal, judge};
use dvg_survey::{Call, FrameSurvey, Margins, shapes_extent, survey_frame};
use dvg_words::{CLIPPED, FrameImage, Machine, RomImage, RomMap, Window};
use std::alloc::{AllocError, Global};

/// Adds the lines of the counts of a yes.
fn push_counts(lines: &mut Lines, yes: Yes, budget: u32) {
    lines.add(&[
        Line("shapes"),
        Number(yes.shapes as u64),
        Text(" of 4096"),
        Line("words"),
        Number(yes.words as u64),
        Text(" of the budget "),
        Number(budget as u64),
        Line("return places"),
        Number(yes.depth as u64),
        Text(" of 4"),
    ]);
}

/// Adds a line for each call of a frame.
fn push_calls(lines: &mut Lines, calls: &[Call]) {
    for call in calls {
        lines.add(&[
            Line("call"),
            Address(call.at),
            Text(" "),
            Piece::Entry(call.entry),
        ]);
    }
}

/// Adds the line of where something lights, and that of how far this is from each edge of the window, if it lights something there.
fn push_extent(
    lines: &mut Lines,
    lights: &'static str,
    margins: &'static str,
    window: &Window,
    lit: &LitBox,
) {
    lines.add(&[Line(lights), Within(*lit)]);
    if let Some(distances) = Margins::within(window, lit) {
        lines.add(&[
            Line(margins),
            Text("left "),
            Distance(distances.left),
            Text(", right "),
            Distance(distances.right),
            Text(", bottom "),
            Distance(distances.bottom),
            Text(", top "),
            Distance(distances.top),
        ]);
    }
}

/// Adds the line of the frame's items that light past the screen, where the window is the zone that a board clips.
fn push_clipped(lines: &mut Lines, window: &Window, clipped: &[u16]) {
    if *window == CLIPPED {
        match clipped.first() {
            Some(first) => lines.add(&[
                Line("clipped"),
                Number(clipped.len() as u64),
                Text(" of the frame's items, the first at "),
                Address(*first),
            ]),
            None => lines.add(&[Line("clipped"), Text("none of the frame's items")]),
        }
    }
}

/// The answer of a machine to these bytes of a ROM that lies here and of a frame, in the place of the inputs' own, by the frame's own
/// certificate. `None` if the bytes can't be judged.
pub fn own_answer(
    machine: Machine,
    alloc: Global,
    inputs: &Inputs,
    map: RomMap,
    rom: &[u8],
    frame: &[u8],
) -> Result<Option<Result<Yes, FrameRefusal>>, AllocError>
    ensures { IfOk result (IsOwnAnswer machine inputs.now map rom.now frame.now) }
{
    let Ok(rom) = RomImage::from_bytes_on(machine, rom, map) else {
        return Ok(None);
    };
    let Ok(frame) = frame_of(frame, inputs.budget) else {
        return Ok(None);
    };
    match judge(alloc, &rom, &frame, inputs.budget, inputs.window) {
        Err(FrameRefusal::NoMemory | FrameRefusal::Check(Refusal::IndexMemory)) => Err(AllocError),
        answer => Ok(Some(answer)),
    }
}

/// Adds the line of what the board answers to the same inputs, by the frame's own certificate there, unless the board was asked.
pub fn push_board(lines: &mut Lines, inputs: &Inputs) -> Result<(), AllocError> {
    let (Machine::Profile, Some(map)) = (inputs.machine, inputs.map) else {
        return Ok(());
    };
    let answer = own_answer(
        Machine::Board,
        lines.alloc,
        inputs,
        map,
        inputs.rom,
        inputs.frame,
    )?;
    if let Some(answer) = answer {
        lines.add(&[Line("on the board"), Answer(answer)]);
    }
    Ok(())
}

/// Adds the lines of what a frame's own items call and light, of the least box of what the shapes light at absolute places, and of what
/// is worth a second look. The images are those of the inputs; an input of a wrong length has none. Without a certificate nothing is
/// known to be lit.
fn push_survey(
    lines: &mut Lines,
    inputs: &Inputs,
    rom: Option<&RomImage>,
    frame: Option<&FrameImage>,
) -> Result<(), AllocError> {
    let Some(cert) = inputs.cert else {
        push_lit(
            lines,
            &inputs.window,
            &FrameSurvey::empty(lines.alloc),
            &LitBox::Empty,
        );
        return Ok(());
    };
    let entries = HashIndex::new(lines.alloc, cert)?;
    let survey = match frame {
        Some(frame) => survey_frame(inputs.machine, lines.alloc, cert, &entries, frame)?,
        None => FrameSurvey::empty(lines.alloc),
    };
    let shapes = match rom {
        Some(rom) => shapes_extent(rom, cert, &entries),
        None => LitBox::Empty,
    };
    push_lit(lines, &inputs.window, &survey, &shapes);
    push_remarks(lines, inputs, cert, &entries, rom, &survey.faint)
}

/// Adds the lines of the calls of a frame, and of where it and the shapes light.
fn push_lit(lines: &mut Lines, window: &Window, frame: &FrameSurvey, shapes: &LitBox) {
    push_calls(lines, &frame.calls);
    push_extent(
        lines,
        "frame lights within",
        "frame margins",
        window,
        &frame.lit,
    );
    push_clipped(lines, window, &frame.clipped);
    push_extent(
        lines,
        "shapes light within",
        "shapes margins",
        window,
        shapes,
    );
}

/// Adds the lines of an accepted verdict on these inputs (this project's own). The images are those of the inputs; an input of a wrong
/// length has none.
pub fn push_accepted(
    lines: &mut Lines,
    inputs: &Inputs,
    rom: Option<&RomImage>,
    frame: Option<&FrameImage>,
    yes: Yes,
) -> Result<(), AllocError> {
    lines.push_machine(inputs.machine);
    lines.push_zone(&inputs.window);
    push_counts(lines, yes, inputs.budget);
    push_survey(lines, inputs, rom, frame)?;
    push_board(lines, inputs)
}
