//! The items that lead to an item: the one right before it, and zeros.

use crate::item::words_at;
use dvg_items::{Item, Items, Kind};
use dvg_words::Fetch;

/// Words 0000 that lead to an item: the addresses of the first and the last, and the last item before them.
#[derive(Clone, Copy)]
pub struct Zeros {
    pub first: u16,
    pub last: u16,
    pub before: Option<Item>,
}

/// What leads to an item: the item right before it, and the zeros, if there are any.
#[derive(Clone, Copy)]
pub struct Way {
    pub last: Option<Item>,
    pub zeros: Option<Zeros>,
}

impl Way {
    /// What leads to the item at a word address, among the items that begin at another. Zeros may be its own words, too.
    pub fn to<F: Fetch>(words: &F, kind: Kind, first: u16, at: u16) -> Way {
        let mut last = None;
        let mut run = None;
        let mut before = None;
        for item in Items::from(words, kind, first) {
            let here = item.at;
            if here >= at {
                break;
            }
            last = Some(item);
            if are_zeros(words, here) {
                run = run.or(Some(here));
            } else {
                run = None;
                before = last;
            }
        }
        let own = if are_zeros(words, at) { Some(at) } else { None };
        let zeros = run.or(own).map(|first| Zeros {
            first,
            last: last_zero(words, at),
            before,
        });
        Way { last, zeros }
    }
}

/// Whether a VCTR of zeros stands at an address, or its first word alone where there is no second.
fn are_zeros<F: Fetch>(words: &F, at: u16) -> bool {
    matches!(words_at(words, at), Some((0, None | Some(0))))
}

/// The last of the zeros that lead to the item at a word address: its own last word if it is of zeros, or the word before it.
fn last_zero<F: Fetch>(words: &F, at: u16) -> u16 {
    match words_at(words, at) {
        Some((0, None)) => at,
        Some((0, Some(0))) => at.saturating_add(1),
        _ => at.saturating_sub(1),
    }
}
