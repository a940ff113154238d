//! The items of a frame, as the board reads them.

ghost use Rattle.std.specs.Prelude.{IfOk};
ghost use Rattle.dvg_recipe.specs.Private.FrameItems.{AreItems};
ghost use Rattle.dvg_recipe.specs.Private.KnownPlaces.{AreFramesItems};

use dvg_items::{Item, Kind};
use dvg_words::{Cell, FrameImage, FrameOn, Instr, Machine, read_cell};
use std::alloc::{AllocError, Global};

/// The items of a frame from word 000 on, over forward jumps, up to where none leads further.
#[derive(Drop)]
pub struct FrameItems {
    pub items: Vec<Item>,
    /// The word address behind them.
    pub end: u16,
    /// Whether a HALT stands there.
    pub halts: bool,
}

/// The items of a frame.
pub fn frame_items(alloc: Global, frame: &FrameImage) -> Result<FrameItems, AllocError>
    ensures items { IfOk result (AreItems frame.now) }
    ensures fits { IfOk result (λ all. AreFramesItems all.items.items) }
{
    let mut items = Vec::with_capacity(alloc, usize::from(frame.words()))?;
    let frame = FrameOn::new(Machine::Board, frame);
    let mut at = 0;
    while let Cell::Holds { format, instr } = read_cell(&frame, at) {
        let item = Item { at, format, instr };
        let Some(next) = item.next_address(Kind::Frame) else {
            return Ok(FrameItems {
                items,
                end: at,
                halts: matches!(instr, Instr::Halt),
            });
        };
        items.push(item)?;
        at = next;
    }
    Ok(FrameItems {
        items,
        end: at,
        halts: false,
    })
}
