//! The lines of an account, as a text that is put together of pieces.

use crate::piece::Piece::{self, Line, Text as Words};
use crate::spelling::{Telling, push_passed, push_piece, push_swapped};
use crate::text::Text;
use dvg_labels::Labels;
use dvg_words::{CLIPPED, Machine, Window};
use std::alloc::{AllocError, Global};

/// The lines of an account so far, or that memory ran out. Then nothing is added any more.
#[derive(Drop)]
pub struct Lines<'a> {
    /// Where the memory comes from that is taken to find out what to tell.
    pub alloc: Global,
    text: Text<'a>,
    telling: Telling,
}

impl<'a> Lines<'a> {
    /// No line so far, or the one that tells of which input the bytes are to be swapped, if they are. Addresses are named by these
    /// labels.
    pub fn new(alloc: Global, telling: Telling, labels: Option<&'a Labels>) -> Lines<'a> {
        let mut text = Text::new(alloc, labels);
        if let Some(swapped) = telling.swapped {
            push_swapped(&mut text, swapped);
        }
        Lines {
            alloc,
            text,
            telling,
        }
    }

    /// Adds pieces, if memory has not run out.
    pub fn add(&mut self, pieces: &[Piece]) {
        for piece in pieces {
            push_piece(&mut self.text, self.telling, piece);
        }
    }

    /// From now on these words stand before each key.
    pub fn begin_keys_with(&mut self, words: &'static str) {
        self.telling.before_keys = words;
    }

    /// Adds the line that names a machine, unless it is the profile's.
    pub fn push_machine(&mut self, machine: Machine) {
        match machine {
            Machine::Profile => {}
            Machine::Board => self.add(&[
                Line("machine"),
                Words("board: draws rounded half up to whole places, LABS of twelve bits"),
            ]),
        }
    }

    /// Adds the line that names the window, where it is the zone that a board clips.
    pub fn push_zone(&mut self, window: &Window) {
        if *window == CLIPPED {
            self.add(&[
                Line("window"),
                Words("the zone that the board clips, X -1024 to 2047, Y -1024 to 2047"),
            ]);
        }
    }

    /// The whole text, or that memory ran out. Its last line tells how many labels were passed over, if any were.
    pub fn finish(self) -> Result<String, AllocError> {
        let mut text = self.text;
        if let Some(labels) = text.labels() {
            push_passed(&mut text, labels.passed());
        }
        text.end_line();
        text.finish()
    }
}
