//! The words of a line, taken one by one.

ghost use Rattle.std.specs.Prelude.{◌<◌, ◌≤◌, ◌≤ℤ◌, IfSome};
ghost use Rattle.std.specs.Iterator.{at_most};
ghost use Rattle.dvg_recipe_text.specs.Words.{left_of};

use crate::limits::SPACE;
use dvg_recipe::{Area, Span};
use dvg_text::{read_address, read_decimal};
use memchr::memchr;

/// The greatest size of a number that is read.
const MOST_NUMBER: u16 = 9999;

/// The number below zero that decimal digits without a leading zero spell behind `-`.
fn below_zero(digits: &[u8]) -> Option<i16> {
    match read_decimal(digits, MOST_NUMBER)? {
        0 => None,
        size => Some(-(size as i16)),
    }
}

/// The words of a line that are not taken yet.
#[derive(Clone, Copy)]
pub struct Words<'a> {
    /// The line from the next word on; `None` where no word is left.
    rest: Option<&'a [u8]>,
}

impl<'a> Iterator for Words<'a> {
    type Item = &'a [u8];

    ghost remaining = { λ words. at_most (left_of words.rest) };

    fn next(&mut self) -> Option<&'a [u8]> {
        let line = self.rest?;
        match memchr(SPACE, line) {
            Some(end) => {
                self.rest = Some(&line[end + 1..]);
                Some(&line[..end])
            }
            None => {
                self.rest = None;
                Some(line)
            }
        }
    }
}

impl<'a> Words<'a> {
    /// The words of a line, with one space between two.
    pub fn of(line: &'a [u8]) -> Words<'a> {
        Words { rest: Some(line) }
    }

    /// Whether no word is left.
    pub fn is_done(&self) -> bool {
        self.rest.is_none()
    }

    /// What was read of a line, if no word is left.
    pub fn ended<T: Copy>(&self, read: T) -> Option<T> {
        self.is_done().then_some(read)
    }

    /// Takes this word.
    pub fn literal(&mut self, text: &[u8]) -> Option<()> {
        (self.next()? == text).then_some(())
    }

    /// Takes a word address: three hexadecimal digits in capitals.
    fn address(&mut self) -> Option<u16> {
        read_address(self.next()?)
    }

    /// Takes a number from 0 to `most`.
    pub fn natural(&mut self, most: u16) -> Option<u16>
        ensures { IfSome result (λ n. n ≤ most) }
    {
        read_decimal(self.next()?, most)
    }

    /// Takes a number from `low` to `high`.
    fn integer(&mut self, low: i16, high: i16) -> Option<i16>
        ensures least { IfSome result (λ n. low ≤ℤ n) }
        ensures most { IfSome result (λ n. n ≤ℤ high) }
    {
        let number = match self.next()? {
            [b'-', digits @ ..] => below_zero(digits)?,
            digits => read_decimal(digits, MOST_NUMBER)? as i16,
        };
        (low <= number && number <= high).then_some(number)
    }

    /// Takes the ends of a range of numbers from `low` to `high`.
    pub fn span(&mut self, low: i16, high: i16) -> Option<Span>
        ensures least { IfSome result (λ range. low ≤ℤ range.low) }
        ensures ordered { IfSome result (λ range. range.low ≤ℤ range.high) }
        ensures most { IfSome result (λ range. range.high ≤ℤ high) }
    {
        let first = self.integer(low, high)?;
        let last = self.integer(low, high)?;
        (first <= last).then_some(Span {
            low: first,
            high: last,
        })
    }

    /// Takes the addresses of the first and of the last word of an area.
    pub fn area(&mut self) -> Option<Area> {
        let first = self.address()?;
        let last = self.address()?;
        Some(Area { first, last })
    }
}
