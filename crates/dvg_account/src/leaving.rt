//! The account of a frame that leaves a recipe.

use crate::item::RefusedItem;
use crate::lines::Lines;
use crate::piece::Piece::{Line, Number, Text};
use dvg_words::{FrameImage, FrameOn, Machine};

/// Adds the lines of a recipe's text of which an item could stand here.
fn push_stand(lines: &mut Lines, could_stand: &[u32]) {
    for line in could_stand {
        lines.add(&[
            Line("could stand"),
            Text("recipe line "),
            Number(*line as u64),
        ]);
    }
}

/// Adds the lines of a frame on the board that leaves a recipe at a word address, where an item of one of these lines of the recipe's
/// text could stand (this project's own).
pub fn push_leaving(lines: &mut Lines, frame: &FrameImage, at: u16, could_stand: &[u32]) {
    let item = RefusedItem::call(&FrameOn::new(Machine::Board, frame), at);
    item.push_lines(lines);
    push_stand(lines, could_stand);
}
