//! Names of shapes and labels, and what they stand for.

ghost use Rattle.std.specs.Prelude.{◌<◌, IfOk, IfSome};
ghost use Rattle.dvg_words.specs.declared.map.TheConstants.{ADDRESS_END};

use crate::fault::RecipeTextWhy;
use crate::limits::LONGEST_NAME;
use crate::words::Words;
use dvg_labels::{Labels, Unnamed};
use dvg_text::read_address;
use dvg_words::ADDRESS_END;
use std::alloc::{AllocError, Global};
use std::collections::BTreeMap;

/// Whether all bytes are letters, digits and `_`.
fn are_of_names(bytes: &[u8]) -> bool {
    bytes
        .iter()
        .all(|byte| *byte == b'_' || byte.is_ascii_alphanumeric())
}

/// Whether a word is a name: a letter or `_`, then letters, digits and `_`, few in all, and no address.
pub fn is_name(word: &[u8]) -> bool {
    match word {
        [] | [b'0'..=b'9', ..] => false,
        _ => { word.len() <= LONGEST_NAME && are_of_names(word) && read_address(word).is_none() }
    }
}

/// Word addresses, each once, in the order in which they were added.
#[derive(Drop)]
struct Targets {
    has: [bool; ADDRESS_END as usize],
    addresses: Vec<u16>,
}

impl Targets {
    /// No address. Takes no memory.
    fn new(alloc: Global) -> Targets {
        Targets {
            has: [false; ADDRESS_END as usize],
            addresses: Vec::new(alloc),
        }
    }

    /// Adds an address, unless it is there.
    fn add(&mut self, addr: u16) -> Result<(), AllocError> {
        let at = usize::from(addr);
        if at < self.has.len() && !self.has[at] {
            self.addresses.push(addr)?;
            self.has[at] = true;
        }
        Ok(())
    }
}

/// The names that a recipe defined so far, and the labels of its program.
#[derive(Drop)]
pub struct Names<'a> {
    shapes: BTreeMap<Vec<u8>, Vec<u16>>,
    labels: Option<&'a Labels>,
}

impl<'a> Names<'a> {
    /// No name but these labels. Takes no memory.
    pub fn new(alloc: Global, labels: Option<&'a Labels>) -> Names<'a> {
        Names {
            shapes: BTreeMap::new(alloc),
            labels,
        }
    }

    /// The address of the labels with a name. Each label's is a word address.
    fn label(&self, name: &[u8]) -> Result<u16, RecipeTextWhy>
        ensures { IfOk result (λ addr. addr < ADDRESS_END) }
    {
        let Some(labels) = self.labels else {
            return Err(RecipeTextWhy::Undefined);
        };
        match labels.address_of(name) {
            Ok(addr) if addr < ADDRESS_END => Ok(addr),
            Ok(_) | Err(Unnamed::Unknown) => Err(RecipeTextWhy::Undefined),
            Err(Unnamed::Several) => Err(RecipeTextWhy::Several),
        }
    }

    /// The address that a word stands for as the name of a label: none if it is an address, or a name that the recipe defined.
    pub fn label_of(&self, word: &[u8]) -> Option<u16>
        ensures { IfSome result (λ addr. addr < ADDRESS_END) }
    {
        if is_name(word) && !self.shapes.contains_key(word) {
            self.label(word).ok()
        } else {
            None
        }
    }

    /// Adds what a word stands for: an address, or those of a name.
    fn add_word(&self, targets: &mut Targets, word: &[u8]) -> Result<(), RecipeTextWhy> {
        if let Some(addr) = read_address(word) {
            targets.add(addr)?;
            return Ok(());
        }
        if !is_name(word) {
            return Err(RecipeTextWhy::Form);
        }
        let Some(shape) = self.shapes.get(word) else {
            targets.add(self.label(word)?)?;
            return Ok(());
        };
        for addr in shape {
            targets.add(*addr)?;
        }
        Ok(())
    }

    /// The addresses that words stand for, each once, in order; at least one.
    pub fn targets(&self, alloc: Global, words: Words<'_>) -> Result<Vec<u16>, RecipeTextWhy> {
        let mut targets = Targets::new(alloc);
        if words.is_done() {
            return Err(RecipeTextWhy::Form);
        }
        for word in words {
            self.add_word(&mut targets, word)?;
        }
        Ok(targets.addresses)
    }

    /// Defines a name, of which there is none so far, for what words stand for.
    pub fn define(
        &mut self,
        alloc: Global,
        name: &[u8],
        words: Words<'_>,
    ) -> Result<(), RecipeTextWhy> {
        if self.shapes.contains_key(name) {
            return Err(RecipeTextWhy::DefinedTwice);
        }
        let targets = self.targets(alloc, words)?;
        let name = Vec::from_slice(alloc, name)?;
        self.shapes.insert(name, targets)?;
        Ok(())
    }
}
