//! A line, gone over token by token as long as it goes along with the form.

ghost use Rattle.std.specs.Prelude.{◌≤◌, ◌<◌, ◌≤ℤ◌};
ghost use Rattle.dvg_words.specs.declared.map.TheConstants.{ADDRESS_END};
ghost use Rattle.dvg_cert.specs.declared.limits.TheConstants.{MOST_ENTRIES};
ghost use Rattle.dvg_cert.specs.Entry.{IsNumber, IsKey, IsEnd, IsBox, IsEntry};
ghost use Rattle.dvg_text.specs.Reading.{IsElsewhere};

use crate::limits::SPACE;
use crate::nearest::{nearest_address, nearest_number};
use crate::numerals::address_digits;
use dvg_cert::{End, Entry, Key, LitBox, MOST_DEPTH, MOST_ENTRIES, MOST_NUMBER, MOST_WORDS};
use dvg_words::{MEMORY_LAST, RAM_WORDS, ROM_FIRST, ROM_LAST};
use itoa::Buffer;
use memchr::memchr;

/// The first word of an entry's line or of the last line.
const KIND: &str = "`shape` or `done`; then a space";

/// The word address of a shape.
const ADDRESS: &str = "a word address of the ROM, three of 0-9 and A-F; then a space";

/// How it is told where the beam is at the shape's return.
const END_KIND: &str = "`rel`, `abs` or `lost`; then a space";

/// A number of an end or a box, named so.
macro_rules! places {
    ($name:literal) => {
        concat!(
            $name,
            ", a whole number of 1/1024 places, -2000000000000 to 2000000000000; then a space"
        )
    };
}

/// The left side of a box, or that there is none.
const LEFT_SIDE: &str = places!("`none`, or a box's left side");

/// The number of words of an entry.
const WORD_COUNT: &str = "the number of words, 1 to 1000000; then a space";

/// The last token of an entry.
const SCALE_LEFT: &str = "the scale that is left behind, 0 to 15 or `any`; then the line's end";

/// What is left of a line. Each token is the one that the form allows there of which the line spells the most.
#[derive(Drop)]
pub struct Tokens<'a> {
    /// The bytes from the next token on; `None` once the line has left the form.
    rest: Option<&'a [u8]>,
    expected: &'static str,
}

impl<'a> Tokens<'a> {
    /// All tokens of a line.
    pub fn new(line: &'a [u8]) -> Tokens<'a> {
        Tokens {
            rest: Some(line),
            expected: "",
        }
    }

    /// What was expected at the token at which the line left the form, or at the last one.
    pub fn expected(&self) -> &'static str {
        self.expected
    }

    /// The next word: the bytes up to a space. There is none once the line has left the form.
    fn word(&self) -> &'a [u8] {
        let Some(rest) = self.rest else {
            return &[];
        };
        match memchr(SPACE, rest) {
            Some(at) => &rest[..at],
            None => rest,
        }
    }

    /// Whether the next word begins with this byte.
    pub fn begins(&self, byte: u8) -> bool {
        self.word().first() == Some(&byte)
    }

    /// Goes past this token and a space, if they come next. Else the line leaves the form here.
    fn pass(&mut self, token: &[u8], expected: &'static str) {
        if let Some(rest) = self.rest {
            self.rest = behind(rest, token);
            self.expected = expected;
        }
    }

    /// Goes past a number.
    fn number(&mut self, least: i64, most: i64, expected: &'static str) -> i64
        requires { least ≤ℤ most }
        ensures least { least ≤ℤ result }
        ensures most { result ≤ℤ most }
    {
        let number = nearest_number(self.word(), least, most);
        self.pass(Buffer::new().format(number).as_bytes(), expected);
        number
    }

    /// Goes past a word address.
    fn address(&mut self, first: u16, last: u16, expected: &'static str) -> u16
        requires range { first ≤ last }
        requires last { last < ADDRESS_END }
        ensures first { first ≤ result }
        ensures last { result ≤ last }
    {
        let address = nearest_address(self.word(), first, last);
        self.pass(&address_digits(address), expected);
        address
    }

    /// Goes past a key.
    fn key(&mut self, expected: &'static str) -> Key
        ensures { IsKey result }
    {
        if self.begins(b'a') {
            self.pass(b"any", expected);
            return Key::Any;
        }
        Key::At(self.number(0, 15, expected) as u8)
    }

    /// Goes past X and Y of an end.
    fn place(&mut self) -> (i64, i64)
        ensures x { IsNumber result.0 }
        ensures y { IsNumber result.1 }
    {
        let x = self.number(-MOST_NUMBER, MOST_NUMBER, places!("X of the end"));
        let y = self.number(-MOST_NUMBER, MOST_NUMBER, places!("Y of the end"));
        (x, y)
    }

    /// Goes past an end.
    fn end(&mut self) -> End
        ensures { IsEnd result }
    {
        if self.begins(b'l') {
            self.pass(b"lost", END_KIND);
            return End::Lost;
        }
        if self.begins(b'a') {
            self.pass(b"abs", END_KIND);
            let (x, y) = self.place();
            return End::Abs { x, y };
        }
        self.pass(b"rel", END_KIND);
        let (x, y) = self.place();
        End::Rel { x, y }
    }

    /// Goes past a box.
    fn lit(&mut self) -> LitBox
        ensures { IsBox result }
    {
        if self.begins(b'n') {
            self.pass(b"none", LEFT_SIDE);
            return LitBox::Empty;
        }
        let x_min = self.number(-MOST_NUMBER, MOST_NUMBER, LEFT_SIDE);
        let x_max = self.number(
            x_min,
            MOST_NUMBER,
            places!("a box's right side, at least its left side"),
        );
        let y_min = self.number(-MOST_NUMBER, MOST_NUMBER, places!("a box's lower side"));
        let y_max = self.number(
            y_min,
            MOST_NUMBER,
            places!("a box's upper side, at least its lower side"),
        );
        LitBox::Span {
            x_min,
            x_max,
            y_min,
            y_max,
        }
    }

    /// Goes past an entry for a ROM from word address `first` to `last`.
    pub fn entry(&mut self, first: u16, last: u16) -> Entry
        requires range { first ≤ last }
        requires last { last < ADDRESS_END }
        ensures { IsEntry first last result }
    {
        self.pass(b"shape", KIND);
        let addr = self.address(first, last, ADDRESS);
        let key = self.key("the scale of the call, 0 to 15 or `any`; then a space");
        self.pass(b"end", "`end`; then a space");
        let stop = self.end();
        self.pass(b"box", "`box`; then a space");
        let lit = self.lit();
        self.pass(b"depth", "`depth`; then a space");
        let depth = self.number(0, i64::from(MOST_DEPTH), "the depth, 0 to 3; then a space") as u8;
        self.pass(b"words", "`words`; then a space");
        let words = self.number(1, i64::from(MOST_WORDS), WORD_COUNT) as u32;
        self.pass(b"scale", "`scale`; then a space");
        let scale = self.key(SCALE_LEFT);
        Entry {
            addr,
            key,
            stop,
            lit,
            depth,
            words,
            scale,
        }
    }

    /// Goes past a last line: the number of entries.
    pub fn count(&mut self) -> u32
        ensures { result ≤ MOST_ENTRIES }
    {
        self.pass(b"done", KIND);
        self.number(
            0,
            MOST_ENTRIES as i64,
            "the number of entries, 0 to 4096; then the line's end",
        ) as u32
    }

    /// Goes past a line that says where the ROM lies: the addresses of its first and its last word.
    pub fn rom(&mut self) -> (u16, u16)
        ensures { IsElsewhere (record { rom_first = result.0; rom_last = result.1 }) }
    {
        self.pass(b"rom", "`rom`; then a space");
        let first = self.address(
            RAM_WORDS,
            MEMORY_LAST,
            "the word address of the ROM's first word, three of 0-9 and A-F, 400 to BFF; then a space",
        );
        // 800 to BFF has no such line.
        let most = if first == ROM_FIRST {
            ROM_LAST - 1
        } else {
            MEMORY_LAST
        };
        let last = self.address(
            first,
            most,
            "the word address of the ROM's last word, three of 0-9 and A-F, from its first to BFF, but not 800 and BFF; then the line's end",
        );
        (first, last)
    }
}

/// What comes behind this token and a space, if bytes begin with them.
fn behind<'a>(bytes: &'a [u8], token: &[u8]) -> Option<&'a [u8]> {
    bytes.strip_prefix(token)?.strip_prefix(&[SPACE])
}
