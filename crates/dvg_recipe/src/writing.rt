//! Writes the words of a frame, item by item, with what is known before each.

ghost use Rattle.std.specs.Prelude.{◌<◌, ◌+◌, IfOk};
ghost use Rattle.dvg_words.specs.declared.map.TheConstants.{ADDRESS_END};
ghost use Rattle.dvg_cert.specs.Entry.{IsKey};
ghost use Rattle.dvg_items.specs.Bounds.{IsSoundCursor};

use crate::choices::Words;
use crate::known_places::known_past;
use crate::piece::DrawRange;
use crate::sizes::draw_toward;
use crate::takes::cell_of_words;
use crate::trail::Written;
use dvg_cert::Key;
use dvg_items::{Cursor, Item, Kind, Known};
use dvg_make::EntryMaker;
use dvg_words::{Cell, Instr, RAM_WORDS, RomImage, is_long};
use std::alloc::{AllocError, Global};

/// What stands where nothing is written: HALT.
const HALT: u16 = 0xB000;

/// The words of a frame, as far as it is written.
#[derive(Drop)]
struct Writing {
    words: Vec<u16>,
    /// Where the next item stands.
    at: u16,
}

impl Writing {
    /// Writes a word.
    fn put(&mut self, word: u16) -> Result<(), AllocError> {
        let at = usize::from(self.at);
        if self.words.len() <= at {
            self.words.resize(at + 1, HALT)?;
        }
        self.words[at] = word;
        self.at = self.at.saturating_add(1);
        Ok(())
    }

    /// Writes an item. Behind a JMPL the next one stands where it leads.
    fn put_item(&mut self, words: &Words) -> Result<(), AllocError> {
        self.put(words.first)?;
        if is_long(words.first) {
            self.put(words.second)?;
        }
        if let Cell::Holds {
            instr: Instr::Jmpl { to },
            ..
        } = cell_of_words(words.first, words.second)
        {
            self.at = to;
        }
        Ok(())
    }
}

/// How many items stand before the last draw that has to lead somewhere. What is known behind them has to be found out.
fn items_to_know(items: &[Written]) -> usize {
    let mut before = 0;
    for (index, item) in items.iter().enumerate() {
        if let Written::Draw(DrawRange { to: Some(_), .. }, _) = item {
            before = index;
        }
    }
    before
}

/// The words of an item, from what is known before it.
fn words_of(item: &Written, known: &Known) -> Words
    requires { IsKey known.now.scale }
{
    match item {
        Written::Words(words) => *words,
        Written::Draw(range, number) => draw_toward(range, *number, known),
    }
}

/// What is known behind an item of these words, from the cursor there, which counts the items before it.
fn known_behind(
    maker: &mut EntryMaker<'_>,
    words: &Words,
    here: &Cursor,
) -> Result<Known, AllocError>
    requires near { here.now.at < ADDRESS_END }
    requires sound { IsSoundCursor here.now }
    ensures { IfOk result (λ next. IsSoundCursor (record { at = here.now.at + 1; known = next })) }
{
    match cell_of_words(words.first, words.second) {
        Cell::Holds { format, instr } => {
            let item = Item {
                at: here.at,
                format,
                instr,
            };
            known_past(maker, &item, here)
        }
        Cell::Missing | Cell::Odd => Ok(Known::start(Kind::Frame, Key::Any)),
    }
}

/// Writes items, and finds out what is known behind so many of them.
fn put_items(
    writing: &mut Writing,
    maker: &mut EntryMaker<'_>,
    items: &[Written],
    to_know: usize,
) -> Result<(), AllocError> {
    let mut known = Known::start(Kind::Frame, Key::Any);
    for index in 0..RAM_WORDS {
        let Some(item) = items.get(usize::from(index)) else {
            return Ok(());
        };
        let words = words_of(item, &known);
        writing.put_item(&words)?;
        known = if usize::from(index) < to_know {
            known_behind(maker, &words, &Cursor { at: index, known })?
        } else {
            Known::start(Kind::Frame, Key::Any)
        };
    }
    Ok(())
}

/// The words of the frame of these items over a ROM, and of a HALT. The entries of what it calls are made only where a draw has to lead
/// somewhere.
#[inline(never)]
pub fn frame_words(
    alloc: Global,
    rom: &RomImage,
    items: &[Written],
) -> Result<Vec<u16>, AllocError> {
    let mut writing = Writing {
        words: Vec::new(alloc),
        at: 0,
    };
    let mut maker = EntryMaker::new(alloc, rom);
    put_items(&mut writing, &mut maker, items, items_to_know(items))?;
    writing.put(HALT)?;
    Ok(writing.words)
}
