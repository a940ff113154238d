//! Calls that lead into the middle of what a label names.

use dvg_items::{Items, Kind};
use dvg_labels::{Labels, Nearest};
use dvg_words::RomImage;

/// Whether a call of a word address leads into the middle of what a label names: no label stands there, and the items from the nearest
/// label before it run through it. A shape without a label of its own, behind what a label names, is no such middle.
pub fn leads_beside(rom: &RomImage, labels: &Labels, to: u16) -> bool {
    match labels.name_at(to) {
        Some(Nearest { distance, .. }) if distance > 0 => match to.checked_sub(distance) {
            Some(from) => runs_through(rom, from, to),
            None => false,
        },
        _ => false,
    }
}

/// Whether the items of a ROM from one word address on come to another, not by a jump, as an item's first word or its second.
fn runs_through(rom: &RomImage, from: u16, to: u16) -> bool {
    for item in Items::from(rom, Kind::Shape, from) {
        if matches!(item.next_address(Kind::Shape), Some(next) if to <= next) {
            return true;
        }
    }
    false
}
