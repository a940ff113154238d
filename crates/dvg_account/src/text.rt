//! A text that is put together, and how numbers, places and entries are spelled in it.

use dvg_cert::{End, Entry, Key, LitBox};
use dvg_items::box_corners;
use dvg_labels::{Labels, Nearest};
use dvg_spelling::{hex_address, hex_word};
use dvg_words::Point;
use itoa::{Buffer, Integer};
use std::alloc::{AllocError, Global};
use std::str;

/// How many units a screen place has.
const PLACE: u64 = 1024;

/// A text so far, or that memory ran out. Then nothing is added any more.
#[derive(Drop)]
pub struct Text<'a> {
    text: Result<String, AllocError>,
    /// The labels by which addresses are named.
    labels: Option<&'a Labels>,
}

impl<'a> Text<'a> {
    /// The empty text, in which addresses are named by these labels. Takes no memory.
    pub fn new(alloc: Global, labels: Option<&'a Labels>) -> Text<'a> {
        Text {
            text: Ok(String::new(alloc)),
            labels,
        }
    }

    /// The labels by which addresses are named.
    pub fn labels(&self) -> Option<&'a Labels> {
        self.labels
    }

    /// The whole text, or that memory ran out.
    pub fn finish(self) -> Result<String, AllocError> {
        self.text
    }

    /// Adds a piece, if memory has not run out.
    pub fn push(&mut self, piece: &str) {
        let pushed = match &mut self.text {
            Ok(text) => text.push_str(piece),
            Err(_) => return,
        };
        if let Err(error) = pushed {
            self.text = Err(error);
        }
    }

    /// Ends the line before, if there is one, and begins a line with this key, before which this stands.
    pub fn begin_line(&mut self, before: &str, key: &str) {
        self.end_line();
        self.push(before);
        self.push(key);
        self.push(": ");
    }

    /// Ends the line, if one is begun.
    pub fn end_line(&mut self) {
        let is_begun = match &self.text {
            Ok(text) => matches!(text.as_bytes().last(), Some(byte) if *byte != b'\n'),
            Err(_) => false,
        };
        if is_begun {
            self.push("\n");
        }
    }

    /// A number in decimal, without leading zeros.
    pub fn push_decimal<N: Integer>(&mut self, number: N) {
        self.push(Buffer::new().format(number));
    }

    /// A number behind a label.
    pub fn push_number<N: Integer>(&mut self, label: &str, number: N) {
        self.push(label);
        self.push_decimal(number);
    }

    /// ASCII characters.
    pub fn push_ascii(&mut self, piece: &[u8]) {
        if let Ok(piece) = str::from_utf8(piece) {
            self.push(piece);
        }
    }

    /// A word in four hexadecimal capitals.
    pub fn push_word(&mut self, word: u16) {
        self.push_ascii(&hex_word(word));
    }

    /// A word address: in three hexadecimal capitals, or in four if it is 1000 or more; in parentheses behind the label that names
    /// it, if one does, as in `SHIP+3 (819)`.
    pub fn push_address(&mut self, addr: u16) {
        match self.label_at(addr) {
            Some(label) => {
                self.push_label(label);
                self.push(" (");
                self.push_hex_address(addr);
                self.push(")");
            }
            None => self.push_hex_address(addr),
        }
    }

    /// A word address behind a text.
    pub fn push_addressed(&mut self, before: &str, addr: u16) {
        self.push(before);
        self.push_address(addr);
    }

    /// The label that names an address, if one does, behind a space.
    pub fn push_label_behind(&mut self, addr: u16) {
        if let Some(label) = self.label_at(addr) {
            self.push(" ");
            self.push_label(label);
        }
    }

    /// The label that names an address.
    fn label_at(&self, addr: u16) -> Option<Nearest<'a>> {
        self.labels?.name_at(addr)
    }

    /// A word address alone, whatever label names it.
    pub fn push_hex_address(&mut self, addr: u16) {
        self.push_ascii(hex_address(addr).as_slice());
    }

    /// A label, and how many words an address is behind it.
    fn push_label(&mut self, label: Nearest) {
        self.push_ascii(label.name);
        if label.distance > 0 {
            self.push_number("+", label.distance);
        }
    }

    /// A key as a certificate spells it.
    pub fn push_key(&mut self, key: Key) {
        self.push_scale_or(key, "any");
    }

    /// The name of an entry: its address and its key.
    pub fn push_entry_name(&mut self, addr: u16, key: Key) {
        self.push_address(addr);
        self.push("/");
        self.push_key(key);
    }

    /// A distance in screen places and 1024ths of one.
    pub fn push_distance(&mut self, distance: u64) {
        self.push_places(distance, "+");
    }

    /// A coordinate in screen places and 1024ths of one.
    pub fn push_coordinate(&mut self, coordinate: i64) {
        let size = coordinate.unsigned_abs();
        if coordinate < 0 {
            self.push("-");
            self.push_places(size, "-");
        } else {
            self.push_places(size, "+");
        }
    }

    /// Screen places and, behind a sign, 1024ths of one.
    fn push_places(&mut self, size: u64, sign: &str) {
        let whole = size / PLACE;
        let part = size % PLACE;
        if whole > 0 || part == 0 {
            self.push_decimal(whole);
        }
        if whole > 0 && part > 0 {
            self.push(sign);
        }
        if part > 0 {
            self.push_decimal(part);
            self.push("/1024");
        }
    }

    /// Both coordinates of a point.
    pub fn push_point(&mut self, x: i64, y: i64) {
        self.push("X ");
        self.push_coordinate(x);
        self.push(", Y ");
        self.push_coordinate(y);
    }

    /// A place that is known, or that it is lost.
    pub fn push_place(&mut self, place: End) {
        match place {
            End::Rel { x, y } => {
                self.push("relative ");
                self.push_point(x, y);
            }
            End::Abs { x, y } => {
                self.push("absolute ");
                self.push_point(x, y);
            }
            End::Lost => self.push("lost"),
        }
    }

    /// A scale that is known, or that it is not.
    pub fn push_scale(&mut self, scale: Key) {
        self.push_scale_or(scale, "unknown");
    }

    /// A scale, or else these words.
    fn push_scale_or(&mut self, scale: Key, any: &str) {
        match scale {
            Key::At(scale) => self.push_decimal(scale),
            Key::Any => self.push(any),
        }
    }

    /// The coordinates between which a box lies.
    pub fn push_extent(&mut self, lit: &LitBox) {
        match box_corners(lit) {
            Some((low, high)) => {
                self.push_range("X ", low.x, high.x);
                self.push_range(", Y ", low.y, high.y);
            }
            None => self.push("nothing"),
        }
    }

    /// Two coordinates behind a label.
    fn push_range(&mut self, label: &str, from: i64, to: i64) {
        self.push(label);
        self.push_coordinate(from);
        self.push(" to ");
        self.push_coordinate(to);
    }

    /// An end as a certificate spells it.
    pub fn push_end(&mut self, end: End) {
        match end {
            End::Rel { x, y } => self.push_pair("rel ", x, y),
            End::Abs { x, y } => self.push_pair("abs ", x, y),
            End::Lost => self.push("lost"),
        }
    }

    fn push_pair(&mut self, label: &str, x: i64, y: i64) {
        self.push_number(label, x);
        self.push_number(" ", y);
    }

    /// A box as a certificate spells it.
    fn push_box(&mut self, lit: &LitBox) {
        match box_corners(lit) {
            Some((low, high)) => {
                self.push_pair("", low.x, high.x);
                self.push_pair(" ", low.y, high.y);
            }
            None => self.push("none"),
        }
    }

    /// An entry as a certificate spells it.
    pub fn push_entry(&mut self, entry: &Entry) {
        self.push_addressed("shape ", entry.addr);
        self.push(" ");
        self.push_key(entry.key);
        self.push(" end ");
        self.push_end(entry.stop);
        self.push(" box ");
        self.push_box(&entry.lit);
        self.push_number(" depth ", entry.depth);
        self.push_number(" words ", entry.words);
        self.push(" scale ");
        self.push_key(entry.scale);
    }
}
