//! The items of a frame that take most.

use crate::clocks::ClockRange;
use crate::items::SeesItems;
use dvg_items::Item;
use dvg_words::Instr;
use std::mem;

/// An item of a frame, and what it takes, with all that it calls.
#[derive(Clone, Copy)]
pub struct TimedItem {
    pub item: Item,
    pub clocks: ClockRange,
}

/// The calls and draws of a frame that may take most, three at most: the one that may take most first, and of equals the one that comes
/// first in the frame (this project's own).
#[derive(Clone, Copy)]
pub struct Dearest {
    items: [Option<TimedItem>; 3],
}

/// Whether the first may take more; `None` takes less than any item.
fn takes_more(one: &Option<TimedItem>, other: &Option<TimedItem>) -> bool {
    match (one, other) {
        (Some(one), Some(other)) => one.clocks.most > other.clocks.most,
        (one, _) => one.is_some(),
    }
}

impl Dearest {
    /// Of no item so far.
    pub fn new() -> Dearest {
        Dearest { items: [None; 3] }
    }

    /// The items, in their order, and then `None`.
    pub fn items(&self) -> &[Option<TimedItem>] {
        &self.items
    }

    /// Adds an item, if it is one of those that may take most.
    fn add(&mut self, timed: TimedItem) {
        let mut left = Some(timed);
        for held in self.items.iter_mut() {
            if takes_more(&left, held) {
                mem::swap(&mut left, held);
            }
        }
    }
}

impl SeesItems for Dearest {
    fn see(&mut self, item: &Item, clocks: ClockRange) {
        match item.instr {
            Instr::Draw(_) | Instr::Jsrl { .. } => self.add(TimedItem {
                item: *item,
                clocks,
            }),
            Instr::Labs { .. } | Instr::Halt | Instr::Rtsl | Instr::Jmpl { .. } => {}
        }
    }
}
