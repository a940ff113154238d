//! Sets of word addresses, each with a key.

ghost use Rattle.std.specs.Prelude.{◌≡◌, ◌<◌, IfOk, length, true};
ghost use Rattle.dvg_words.specs.declared.map.TheConstants.{ADDRESS_END};
ghost use Rattle.dvg_cert.specs.Entry.{IsKey};
ghost use Rattle.dvg_survey.specs.Private.KeyedWords.{word_number, is_marked, with_word, AreNone};

use dvg_cert::Key;
use dvg_check::{KEYS, key_index};
use dvg_words::ADDRESS_END;
use std::alloc::{AllocError, Global};
use std::marker::Model;

/// How many word addresses with a key there are.
const MOST_KEYED_WORDS: usize = ADDRESS_END as usize * KEYS as usize;

/// A set of word addresses, each with a key: the known scale at an item, or the key of an entry.
#[derive(Drop)]
pub struct KeyedWords {
    /// For each word address with a key, by its number, whether it is in the set.
    marks: Vec<bool>,
}

impl Model for KeyedWords {
    ghost use Rattle.std.specs.Prelude.{◌≡◌, Bool, List, length};
    ghost use Rattle.dvg_survey.specs.Private.KeyedWords.{MOST_KEYED_WORDS};

    ghost Value = { List Bool };

    ghost view = { λ words. words.marks.items };

    ghost invariant = { λ words. length words.marks.items ≡ MOST_KEYED_WORDS };
}

/// This many marks, none of them set. The count is a parameter so that its proof has no large number to compute with.
fn unmarked(alloc: Global, count: usize) -> Result<Vec<bool>, AllocError>
    ensures length { IfOk result (λ marks. length marks.items ≡ count) }
    ensures none { IfOk result (λ marks. AreNone marks.items) }
{
    let marks = vec![in alloc; false; count]?;
    Ok(marks)
}

/// The number of a word address with a key, from 0 on.
fn word_number(at: u16, key: Key) -> usize
    requires at { at < ADDRESS_END }
    requires key { IsKey key }
    ensures value { result ≡ word_number (at, key) }
    ensures within { result < MOST_KEYED_WORDS }
{
    usize::from(at) * usize::from(KEYS) + usize::from(key_index(key))
}

impl KeyedWords {
    /// The empty set.
    pub fn new(alloc: Global) -> Result<KeyedWords, AllocError>
        ensures { IfOk result AreNone }
    {
        Ok(KeyedWords {
            marks: unmarked(alloc, MOST_KEYED_WORDS)?,
        })
    }

    /// Whether a word address with a key is in the set.
    pub fn has(&self, at: u16, key: Key) -> bool
        requires at { at < ADDRESS_END }
        requires key { IsKey key }
        ensures value { result ≡ is_marked self.now (at, key) }
        ensures within { word_number (at, key) < length self.now }
    {
        self.marks[word_number(at, key)]
    }

    /// Adds a word address with a key.
    pub fn add(&mut self, at: u16, key: Key)
        requires at { at < ADDRESS_END }
        requires key { IsKey key }
        ensures value { self.new ≡ with_word self.old (at, key) }
        ensures there { is_marked self.new (at, key) ≡ true }
    {
        self.marks[word_number(at, key)] = true;
    }
}
