//! The account of a recipe.

use crate::text::Text;
use dvg_cert::{Key, LitBox};
use std::alloc::{AllocError, Global};

/// What may be known before a line of a recipe at one scale, over all frames of the recipe (this project's own).
#[derive(Clone, Copy)]
pub struct KnownBefore {
    /// `Any` if it is unknown.
    pub scale: Key,
    /// The least rectangle that has all places of the beam, in units of 1/1024 of a screen place. `None` if a frame has lost the place.
    pub places: Option<LitBox>,
    /// The most words so far.
    pub words: u32,
    /// The most return places stored at once so far.
    pub depth: u8,
}

/// The account of a recipe so far, or that memory ran out (this project's own). Lines of the recipe's text are counted from 1.
#[derive(Drop)]
pub struct RecipeText {
    text: Text<'static>,
}

impl RecipeText {
    /// No line so far. Takes no memory.
    pub fn new(alloc: Global) -> RecipeText {
        RecipeText {
            text: Text::new(alloc, None),
        }
    }

    /// In which turn, counted from 1, the repeat of a line is where a frame breaks a rule.
    pub fn push_turn(&mut self, turn: u16, line: u32) {
        self.text.push_number("turn: ", turn);
        self.text.push_number(" of the repeat of line ", line);
        self.text.push("\n");
    }

    /// How many words the frame has that shows why the recipe is refused. Its account follows.
    pub fn push_shown(&mut self, words: usize) {
        self.text.push_number("shown by: a frame of ", words);
        self.text.push(" words, as follows\n");
    }

    /// That no frame was found that shows why.
    pub fn push_nothing_shown(&mut self) {
        self.text.push("shown by: no frame that was found\n");
    }

    /// How many words the longest list takes of an area, with these word addresses of its first and last word, and how many it leaves
    /// or wants.
    pub fn push_room(&mut self, first: u16, last: u16, words: u32) {
        let all = u32::from(last)
            .saturating_add(1)
            .saturating_sub(u32::from(first));
        self.text.push("room: ");
        self.text.push_hex_address(first);
        self.text.push(" to ");
        self.text.push_hex_address(last);
        self.text.push_number(", the longest list takes ", words);
        self.text.push_number(" of ", all);
        if words <= all {
            self.text.push_number(" words, and leaves ", all - words);
            self.text.push("\n");
        } else {
            self.text.push_number(" words, ", words - all);
            self.text.push(" too many\n");
        }
    }

    /// The line that may take the most words, turns and called shapes counted, and how many.
    pub fn push_takes_most(&mut self, line: u32, words: u32) {
        self.text.push_number("takes most: line ", line);
        self.text.push_number(", up to ", words);
        self.text.push(" words in all\n");
    }

    /// What may be known before a line.
    pub fn push_before(&mut self, line: u32, known: &KnownBefore) {
        self.text.push_number("before line ", line);
        self.text.push(": scale ");
        self.text.push_scale(known.scale);
        match &known.places {
            Some(places) => {
                self.text.push(", place ");
                self.text.push_extent(places);
            }
            None => self.text.push(", place lost"),
        }
        self.text.push_number(", words ", known.words);
        self.text.push_number(", return places ", known.depth);
        self.text.push("\n");
    }

    /// The whole text, or that memory ran out.
    pub fn finish(self) -> Result<String, AllocError> {
        self.text.finish()
    }
}
