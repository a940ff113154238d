//! Where something begins beside the shapes of a certificate.

use crate::inputs::Inputs;
use crate::starts::ShapeStarts;
use dvg_labels::{Labels, Nearest};
use dvg_words::{ADDRESS_END, RomImage};
use std::alloc::{AllocError, Global};

/// What a word is the beginning of.
#[derive(Clone, Copy)]
pub enum Beginning {
    /// The shape of another entry.
    Entry,
    /// What a label names.
    Label,
}

/// Where something begins in a ROM beside the shapes of a certificate: the shapes of other frames, and what labels name.
#[derive(Drop)]
pub struct Beginnings<'a> {
    pub rom: &'a RomImage<'a>,
    others: Option<&'a ShapeStarts>,
    /// By word address, whether it is in the ROM and a label stands there; of no word where there are no labels.
    labelled: Vec<bool>,
}

impl<'a> Beginnings<'a> {
    /// Those of the shapes of other frames and of labels, as far as these inputs have them.
    pub fn new(
        alloc: Global,
        inputs: &Inputs<'a>,
        rom: &'a RomImage<'a>,
    ) -> Result<Beginnings<'a>, AllocError> {
        let mut labelled = Vec::new(alloc);
        if let Some(labels) = inputs.labels {
            for at in 0..ADDRESS_END {
                labelled.push(rom.word(at).is_some() && stands_at(labels, at))?;
            }
        }
        let others = inputs.others;
        Ok(Beginnings {
            rom,
            others,
            labelled,
        })
    }

    /// What begins at a word address, a shape before a label.
    pub fn at(&self, at: u16) -> Option<Beginning> {
        if self.others.is_some_and(|others| others.has(at)) {
            Some(Beginning::Entry)
        } else if self.labelled.get(usize::from(at)) == Some(&true) {
            Some(Beginning::Label)
        } else {
            None
        }
    }
}

/// Whether a label stands at a word address itself. The cheap local labels of ca65, which begin with `@`, name places within what another
/// label names.
fn stands_at(labels: &Labels, at: u16) -> bool {
    match labels.name_at(at) {
        Some(Nearest { distance: 0, name }) => name.first() != Some(&b'@'),
        _ => false,
    }
}
