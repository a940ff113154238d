//! How long a frame takes to draw, as its account tells it.

use crate::inputs::Inputs;
use crate::item::RefusedItem;
use crate::lines::Lines;
use crate::piece::Piece::{self, Cure, Line, Number, Rule, Text, ToDo};
use dvg_clocks::{ClockRange, FrameTime};
use dvg_words::{FrameImage, FrameOn};

/// How many clocks a millisecond has: 12.096 MHz / 8.
const MILLISECOND: u64 = 1512;

/// How many clocks a picture has where there are 60 a second.
const PICTURE: u64 = 25_200;

/// The number of the refusal of a frame that takes too long.
const TOO_LONG: u8 = 58;

/// Adds the lines of the time that a frame takes.
pub fn push_time(lines: &mut Lines, time: &FrameTime) {
    push_whole_time(lines, &time.clocks);
    for item in time.dearest.items().iter().flatten() {
        lines.add(&[Line("takes most")]);
        push_clocks(lines, &item.clocks);
        lines.add(&[Text(" clocks, "), Piece::Item(item.item)]);
    }
}

/// Adds the lines of a frame of these inputs that is over a limit of clocks with the item at this word.
pub fn push_slow(
    lines: &mut Lines,
    inputs: &Inputs,
    frame: &FrameImage,
    at: u16,
    limit: u64,
    time: &FrameTime,
) {
    lines.push_machine(inputs.machine);
    lines.push_zone(&inputs.window);
    lines.add(&[
        Line("rule"),
        Rule(TOO_LONG),
        Line("why"),
        Text("with it the frame may take more clocks than the limit, "),
        Number(limit),
    ]);
    RefusedItem::call(&FrameOn::new(inputs.machine, frame), at).push_lines(lines);
    push_time(lines, time);
    lines.add(&[ToDo, Cure(TOO_LONG)]);
}

/// The clocks of a frame, its milliseconds, rounded up to thousandths, and the share of a picture, in percent, rounded up to tenths.
fn push_whole_time(lines: &mut Lines, clocks: &ClockRange) {
    let thousandths = clocks.most.saturating_mul(1000).div_ceil(MILLISECOND);
    let tenths = clocks.most.saturating_mul(1000).div_ceil(PICTURE);
    let at_most = if clocks.least == clocks.most {
        ", "
    } else {
        ", at most "
    };
    lines.add(&[Line("clocks")]);
    push_clocks(lines, clocks);
    lines.add(&[
        Text(at_most),
        Number(thousandths / 1000),
        Text("."),
        Number(thousandths / 100 % 10),
        Number(thousandths / 10 % 10),
        Number(thousandths % 10),
        Text(" ms, "),
        Number(tenths / 10),
        Text("."),
        Number(tenths % 10),
        Text(" percent of a picture at 60 Hz"),
    ]);
}

/// How many clocks, or between how many.
fn push_clocks(lines: &mut Lines, clocks: &ClockRange) {
    if clocks.least < clocks.most {
        lines.add(&[Number(clocks.least), Text(" to ")]);
    }
    lines.add(&[Number(clocks.most)]);
}
