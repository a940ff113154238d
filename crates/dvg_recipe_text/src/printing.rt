//! Printing a text in its one spelling.

ghost use Rattle.std.specs.Prelude.{◌≤◌, OnOk};
ghost use Rattle.dvg_recipe_text.specs.declared.limits.TheConstants.{MOST_LINES};

use crate::fault::{RecipeTextFault, RecipeTextWhy};
use crate::limits::{LINE_FEED, LONGEST_LINE, SPACE};
use crate::line::{Line, read_line};
use crate::lines::{cut_line, meaning};
use crate::reader::Reader;
use crate::words::Words;
use dvg_labels::Labels;
use dvg_text::address_digits;
use std::alloc::{AllocError, Global};

/// What stands before a line for each block around it.
const INDENT: &[u8; 2] = b"  ";

/// Puts a space and a word behind a line.
fn push_word(out: &mut Vec<u8>, word: &[u8]) -> Result<(), AllocError> {
    out.push(SPACE)?;
    out.extend_from_slice(word)
}

/// Puts words behind a line: in place of the name of a label its address.
fn push_targets(
    out: &mut Vec<u8>,
    reader: &Reader<'_>,
    words: Words<'_>,
) -> Result<(), AllocError> {
    for word in words {
        match reader.label_of(word) {
            Some(addr) => push_word(out, &address_digits(addr))?,
            None => push_word(out, word)?,
        }
    }
    Ok(())
}

/// The spelling of a line that means something, with its LF. One that says nothing stays as it is: it will be refused.
fn spelled(alloc: Global, reader: &Reader<'_>, text: &[u8]) -> Result<Vec<u8>, AllocError> {
    let mut out = Vec::new(alloc);
    let line = read_line(text);
    let outside = usize::from(matches!(line, Some(Line::Or | Line::End)));
    for _ in outside..reader.depth() {
        out.extend_from_slice(INDENT)?;
    }
    match line {
        Some(Line::Call(words)) => {
            out.extend_from_slice(b"call")?;
            push_targets(&mut out, reader, words)?;
        }
        Some(Line::Shapes(name, words)) => {
            out.extend_from_slice(b"shapes")?;
            push_word(&mut out, name)?;
            push_targets(&mut out, reader, words)?;
        }
        _ => out.extend_from_slice(text)?,
    }
    out.push(LINE_FEED)?;
    Ok(out)
}

/// A text that is printed line by line.
#[derive(Drop)]
struct Printer<'a> {
    alloc: Global,
    reader: Reader<'a>,
    out: Vec<u8>,
    /// The first line that is too long when it is printed.
    too_long: Option<u32>,
}

impl<'a> Printer<'a> {
    /// Prints a line, as the lines above allow.
    fn print(&mut self, number: u32, text: &[u8]) -> Result<(), AllocError> {
        let spelled = spelled(self.alloc, &self.reader, text)?;
        if spelled.len() > LONGEST_LINE && self.too_long.is_none() {
            self.too_long = Some(number);
        }
        self.out.extend_from_slice(&spelled)
    }

    /// Prints a line if it means something, and takes it.
    fn take_line(&mut self, number: u32, bytes: &[u8]) -> Result<(), RecipeTextWhy>
        ensures { OnOk result (number ≤ MOST_LINES) }
    {
        if let Some(text) = meaning(bytes) {
            self.print(number, text)?;
        }
        self.reader.take_line(number, bytes)
    }

    /// The whole text, printed.
    fn finish(self, number: u32, rest: &[u8]) -> Result<Vec<u8>, RecipeTextFault> {
        let Printer {
            reader,
            out,
            too_long,
            ..
        } = self;
        reader.finish(number, rest)?;
        match too_long {
            Some(line) => Err(RecipeTextFault {
                line,
                why: RecipeTextWhy::LineTooLong,
            }),
            None => Ok(out),
        }
    }
}

/// The one spelling of a text that is read: the lines that mean something, two spaces before a line for each block around it, names of
/// shapes as they are, and for names of labels their addresses. A text that is not read gets the fault of `read_recipe`; one of which a
/// line would be longer than a line may be gets that fault at its line.
pub fn print_recipe(
    alloc: Global,
    text: &[u8],
    labels: Option<&Labels>,
) -> Result<Vec<u8>, RecipeTextFault> {
    let mut printer = Printer {
        alloc,
        reader: Reader::new(alloc, labels),
        out: Vec::new(alloc),
        too_long: None,
    };
    let mut rest = text;
    let mut line = 1;
    'printing: while let Some((bytes, behind)) = cut_line(rest) {
        if let Err(why) = printer.take_line(line, bytes) {
            return Err(RecipeTextFault { line, why });
        }
        rest = behind;
        line += 1;
    }
    printer.finish(line, rest)
}
