//! Forms of words on the command line, and what is said of a word that has another.

use crate::escaping::shown;
use dvg_cmd::{RomMap, Unnamed, limit_of, map_of, record_length_of, root_of, start_of, window_of};
use std::alloc::{AllocError, Global};

/// What a word of the command line is to spell.
#[derive(Clone, Copy)]
pub enum Form {
    Map,
    Window,
    Root,
    Start,
    Within,
    Records,
}

impl Form {
    /// Its name, the form as the help of options and messages show it, and what stands for the letters of the form.
    fn texts(self) -> (&'static str, &'static str, &'static str) {
        match self {
            Form::Map => (
                "map",
                "AAA/BBB",
                "two word addresses within 400 to BFF, the lower one first, each of three hexadecimal digits in capitals",
            ),
            Form::Window => (
                "window",
                "X0,X1,Y0,Y1",
                "four numbers of 0 to 1023 without leading zeros, X0 at most X1, and Y0 at most Y1",
            ),
            Form::Root => (
                "root",
                "AAA/SCALE",
                "a word address of three hexadecimal digits in capitals, and a scale of 0 to 15 or any",
            ),
            Form::Start => (
                "start",
                "AAA",
                "a word address of three hexadecimal digits in capitals",
            ),
            Form::Within => (
                "limit",
                "MS",
                "milliseconds of 0.001 to 10000 without leading zeros, with at most three digits behind the point",
            ),
            Form::Records => (
                "record length",
                "N",
                "an even number of bytes from 2 to 2048 without leading zeros",
            ),
        }
    }

    /// The form, as the help of options shows it.
    pub fn pattern(self) -> &'static str {
        self.texts().1
    }

    fn fits(self, word: &str) -> bool {
        match self {
            Form::Map => map_of(word).is_some(),
            Form::Window => window_of(word).is_some(),
            Form::Root => root_of(word).is_some(),
            Form::Start => start_of(word).is_some(),
            Form::Within => limit_of(word).is_some(),
            Form::Records => record_length_of(word).is_some(),
        }
    }

    /// The line on standard error, without its LF, about a word that has not this form: the word, the form, and the word that was
    /// meant, where that is known.
    pub fn message(self, alloc: Global, word: &str) -> Result<String, AllocError> {
        let (name, pattern, parts) = self.texts();
        let given = shown(alloc, word)?;
        let mut line = format!(in alloc;
            "dvgcheck: bad {name} {given}: {pattern} wanted, {parts}"
        )?;
        if let Some(meant) = self.meant(alloc, word)? {
            write!(line, "; did you mean {meant}?")?;
        }
        Ok(line)
    }

    /// The line about a word whose label names no word of this form.
    pub fn label_message(
        self,
        alloc: Global,
        why: Unnamed,
        word: &str,
    ) -> Result<String, AllocError> {
        let (name, _, _) = self.texts();
        let given = shown(alloc, word)?;
        let why = match (self, why) {
            (Form::Start, Unnamed::Unknown) => "no label with this name is at a word of vector RAM",
            (_, Unnamed::Unknown) => "no label with this name is at a word",
            (_, Unnamed::Several) => "labels with this name are at several words",
        };
        format!(in alloc; "dvgcheck: bad {name} {given}: {why}")
    }

    /// The word that was meant, if only the case of its digits is wrong, or if the addresses of a map are the processor's.
    fn meant(self, alloc: Global, word: &str) -> Result<Option<String>, AllocError> {
        let capitals = self.with_capitals(alloc, word)?;
        if self.fits(capitals.as_str()) {
            return Ok(Some(capitals));
        }
        match (self, map_of_processor(word)) {
            (Form::Map, Some(map)) => {
                let (first, last) = (map.first(), map.last());
                Ok(Some(format!(in alloc; "{first:03X}/{last:03X}")?))
            }
            _ => Ok(None),
        }
    }

    /// The word with its hexadecimal digits in capitals. Those of a root stand before its slash.
    fn with_capitals(self, alloc: Global, word: &str) -> Result<String, AllocError> {
        match (self, word.split_once('/')) {
            (Form::Root, Some((address, scale))) => {
                let address = in_capitals(alloc, address)?;
                format!(in alloc; "{address}/{scale}")
            }
            _ => in_capitals(alloc, word),
        }
    }
}

fn in_capitals(alloc: Global, digits: &str) -> Result<String, AllocError> {
    let mut capitals = String::new(alloc);
    for c in digits.chars() {
        capitals.push(c.to_ascii_uppercase())?;
    }
    Ok(capitals)
}

/// The map of a ROM: the processor's addresses of its first byte and of a byte of its last word, with a slash between.
fn map_of_processor(text: &str) -> Option<RomMap> {
    let (first, last) = text.split_once('/')?;
    let first = processor_offset(first)?;
    let last = processor_offset(last)?;
    if first % 2 == 1 {
        return None;
    }
    RomMap::new(first / 2, last / 2)
}

/// How far an address of the processor, of four hexadecimal digits, is behind the first byte of vector RAM, 4000.
fn processor_offset(text: &str) -> Option<u16> {
    let [a, b, c, d] = text.as_bytes() else {
        return None;
    };
    let address = digit(*a)? << 12 | digit(*b)? << 8 | digit(*c)? << 4 | digit(*d)?;
    address.checked_sub(0x4000)
}

/// The value of a hexadecimal digit.
fn digit(byte: u8) -> Option<u16> {
    Some(char::from(byte).to_digit(16)? as u16)
}
