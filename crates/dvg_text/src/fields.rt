//! The fields of a line, read from left to right with the text that stands between them.

ghost use Rattle.std.specs.Prelude.{◌≡◌, ◌↔◌, ◌-◌, ◌≤◌, [], None, Some, IfSome, IfNone, IsTrue, IsFalse, take, drop};
ghost use Rattle.std.specs.Int.{w32, from_le_bytes, to_le_bytes};
ghost use Rattle.std.specs.Option.{option_map};
ghost use Rattle.std.specs.Str.{bytes_eq};
ghost use Rattle.dvg_text.specs.Private.Fields.{Reads, LeadsWith, past, natural_at, digit_at, address_at, key_at, number_at, two_at, end_at, span_at, box_at, entry_at};

use crate::limits::MOST_MAGNITUDE;
use crate::numerals::{address_of, leading_magnitude, leading_number_by_digits};
use dvg_cert::{End, Entry, Key, LitBox, MOST_DEPTH, MOST_WORDS};
use std::marker::Model;

/// The part of a line that is not read yet.
#[derive(Drop)]
pub struct Fields<'a> {
    rest: &'a [u8],
}

impl<'a> Model for Fields<'a> {
    ghost use Rattle.std.specs.Prelude.{ℕ, List};

    ghost Value = { List ℕ };

    ghost view = { λ s. s.rest.now };
}

impl<'a> Fields<'a> {
    /// All of a line.
    #[inline(always)]
    pub fn new(line: &'a [u8]) -> Self
        ensures { result ≡ line.now }
    {
        Fields { rest: line }
    }

    /// The bytes that are left.
    #[inline(always)]
    pub fn rest(&self) -> &'a [u8]
        ensures { result.now ≡ self.now }
    {
        self.rest
    }

    /// Whether nothing is left.
    #[inline(always)]
    pub fn is_empty(&self) -> bool
        ensures { result ≡ bytes_eq self.now [] }
    {
        self.rest.is_empty()
    }

    /// Takes this text if it comes next, and tells whether it did. Else nothing is taken.
    #[inline(always)]
    fn takes<const N: usize>(&mut self, text: &[u8; N]) -> bool
        ensures yes { IsTrue result → past text.now self.old ≡ Some self.new }
        ensures no { IsFalse result → (self.new ≡ self.old) × (past text.now self.old ≡ None) }
    {
        match after_text(self.rest, text) {
            Some(rest) => {
                self.rest = rest;
                true
            }
            None => false,
        }
    }

    /// Takes this text.
    #[inline(always)]
    pub fn text<const N: usize>(&mut self, text: &[u8; N]) -> Option<()>
        ensures some { IfSome result (λ u. past text.now self.old ≡ Some self.new) }
        ensures none { IfNone result (past text.now self.old ≡ None) }
    {
        if self.takes(text) { Some(()) } else { None }
    }

    /// Takes a number from `low` to `high` that was already read from the bytes left.
    #[tactic(auto, using(crate::proofs::Steps::natural_none_at, crate::proofs::Steps::natural_outside, crate::proofs::Steps::natural_is))]
    #[inline(always)]
    fn natural_of(&mut self, read: Option<(u64, &'a [u8])>, low: u64, high: u64) -> Option<u64>
        requires read { LeadsWith (λ rest. rest.now) self.old read }
        requires high { high ≤ MOST_MAGNITUDE }
        ensures value { Reads result self.new (natural_at low high self.old) }
        ensures within { IfSome result (λ n. n ≤ high) }
    {
        let (number, rest) = read?;
        if number < low || high < number {
            return None;
        }
        self.rest = rest;
        Some(number)
    }

    /// Takes a number from `low` to `high`. It is read digit by digit, since most have few digits.
    #[inline(always)]
    pub fn natural(&mut self, low: u64, high: u64) -> Option<u64>
        requires { high ≤ MOST_MAGNITUDE }
        ensures value { Reads result self.new (natural_at low high self.old) }
        ensures within { IfSome result (λ n. n ≤ high) }
    {
        self.natural_of(leading_number_by_digits(self.rest), low, high)
    }

    /// Takes a digit from 0 to `most`. Else nothing is taken.
    #[tactic(auto, unfolding(crate::specs::Private::Fields::digit_at))]
    #[inline(always)]
    fn digit(&mut self, most: u8) -> Option<u8>
        requires { most ≤ 9 }
        ensures value { Reads result self.new (digit_at most self.old) }
        ensures within { IfSome result (λ d. d ≤ most) }
        ensures none { IfNone result (self.new ≡ self.old) }
    {
        let (first, rest) = self.rest.split_first()?;
        if *first < b'0' || b'0' + most < *first {
            return None;
        }
        self.rest = rest;
        Some(*first - b'0')
    }

    /// Takes a key: a scale from 0 to 15, or `any`.
    #[tactic(auto, unfolding(crate::specs::Private::Fields::key_at))]
    #[inline(always)]
    fn key(&mut self) -> Option<Key>
        ensures { Reads result self.new (key_at self.old) }
    {
        match self.digit(9) {
            Some(1) => match self.digit(5) {
                Some(unit) => Some(Key::At(10 + unit)),
                None => Some(Key::At(1)),
            },
            Some(scale) => Some(Key::At(scale)),
            None => {
                self.text(b"any")?;
                Some(Key::Any)
            }
        }
    }

    /// Takes a word address from `first` to `last`.
    #[tactic(auto, unfolding(crate::specs::Private::Fields::address_at))]
    #[inline(always)]
    pub fn address(&mut self, first: u16, last: u16) -> Option<u16>
        ensures { Reads result self.new (address_at first last self.old) }
    {
        let [a, b, c, rest @ ..] = self.rest else {
            return None;
        };
        self.rest = rest;
        address_of(*a, *b, *c, first, last)
    }

    /// Takes a number from 1 on. A short one is read in place, so that its value stays in registers.
    #[inline(always)]
    fn magnitude(&mut self) -> Option<u64>
        ensures value { Reads result self.new (natural_at 1 MOST_MAGNITUDE self.old) }
        ensures within { IfSome result (λ n. n ≤ MOST_MAGNITUDE) }
    {
        let (number, rest) = match leading_magnitude(self.rest) {
            Some(read) => read,
            None => magnitude_and_rest(self.rest)?,
        };
        self.rest = rest;
        Some(number)
    }

    /// Takes a coordinate of an end or a box.
    #[tactic(auto, unfolding(crate::specs::Private::Fields::number_at))]
    #[inline(always)]
    fn number(&mut self) -> Option<i64>
        ensures { Reads result self.new (number_at self.old) }
    {
        if self.takes(b"0") {
            return Some(0);
        }
        if self.takes(b"-") {
            return Some(-(self.magnitude()? as i64));
        }
        Some(self.magnitude()? as i64)
    }

    /// Takes two coordinates with a space between them.
    #[tactic(auto, unfolding(crate::specs::Private::Fields::two_at))]
    #[inline(always)]
    fn two(&mut self) -> Option<(i64, i64)>
        ensures { Reads result self.new (two_at self.old) }
    {
        let x = self.number()?;
        self.text(b" ")?;
        let y = self.number()?;
        Some((x, y))
    }

    /// Takes an end.
    #[tactic(auto, unfolding(crate::specs::Private::Fields::end_at))]
    #[inline(always)]
    fn end(&mut self) -> Option<End>
        ensures { Reads result self.new (end_at self.old) }
    {
        if self.takes(b"rel ") {
            let (x, y) = self.two()?;
            return Some(End::Rel { x, y });
        }
        if self.takes(b"abs ") {
            let (x, y) = self.two()?;
            return Some(End::Abs { x, y });
        }
        self.text(b"lost")?;
        Some(End::Lost)
    }

    /// Takes a box of four numbers.
    #[tactic(auto, unfolding(crate::specs::Private::Fields::span_at))]
    #[inline(always)]
    fn span(&mut self) -> Option<LitBox>
        ensures { Reads result self.new (span_at self.old) }
    {
        let (x_min, x_max) = self.two()?;
        self.text(b" ")?;
        let (y_min, y_max) = self.two()?;
        if x_min <= x_max && y_min <= y_max {
            Some(LitBox::Span {
                x_min,
                x_max,
                y_min,
                y_max,
            })
        } else {
            None
        }
    }

    /// Takes a box of four numbers, by fields of its own, so that what is left stays in registers meanwhile.
    #[inline(never)]
    fn span_apart(&mut self) -> Option<LitBox>
        ensures { Reads result self.new (span_at self.old) }
    {
        let mut fields = Fields::new(self.rest);
        let span = fields.span();
        self.rest = fields.rest;
        span
    }

    /// Takes a box.
    #[tactic(auto, unfolding(crate::specs::Private::Fields::box_at))]
    #[inline(always)]
    fn lit(&mut self) -> Option<LitBox>
        ensures { Reads result self.new (box_at self.old) }
    {
        if self.takes(b"none") {
            return Some(LitBox::Empty);
        }
        self.span_apart()
    }

    /// Takes an entry of a ROM from word address `first` to `last`.
    #[tactic(auto, unfolding(crate::specs::Private::Fields::entry_at))]
    #[inline(always)]
    pub fn entry(&mut self, first: u16, last: u16) -> Option<Entry>
        ensures { Reads result self.new (entry_at first last self.old) }
    {
        self.text(b"shape ")?;
        let addr = self.address(first, last)?;
        self.text(b" ")?;
        let key = self.key()?;
        self.text(b" end ")?;
        let stop = self.end()?;
        self.text(b" box ")?;
        let lit = self.lit()?;
        self.text(b" depth ")?;
        let depth = self.digit(MOST_DEPTH)?;
        self.text(b" words ")?;
        let words = self.natural(1, u64::from(MOST_WORDS))? as u32;
        self.text(b" scale ")?;
        let scale = self.key()?;
        Some(Entry {
            addr,
            key,
            stop,
            lit,
            depth,
            words,
            scale,
        })
    }
}

/// The number from 1 on that bytes begin with, of any length, and the bytes after it.
#[inline(never)]
fn magnitude_and_rest(bytes: &[u8]) -> Option<(u64, &[u8])>
    ensures value { natural_at 1 MOST_MAGNITUDE bytes.now ≡ option_map (λ read. (read.0, read.1.now)) result }
    ensures within { IfSome result (λ read. read.0 ≤ MOST_MAGNITUDE) }
{
    let mut fields = Fields::new(bytes);
    let number = fields.natural_of(leading_number_by_digits(bytes), 1, MOST_MAGNITUDE)?;
    Some((number, fields.rest))
}

/// The bytes after this text, where they begin with it.
#[tactic(auto, using(crate::proofs::Steps::past_short))]
#[inline(always)]
fn after_text<'a, const N: usize>(bytes: &'a [u8], text: &[u8; N]) -> Option<&'a [u8]>
    ensures { past text.now bytes.now ≡ option_map (λ rest. rest.now) result }
{
    let (prefix, rest) = bytes.split_first_chunk::<N>()?;
    if is_same(prefix, text) {
        Some(rest)
    } else {
        None
    }
}

/// Whether two texts are the same. Texts of four to eight bytes are compared as two words: the first four bytes and the last four.
#[inline(always)]
fn is_same<const N: usize>(a: &[u8; N], b: &[u8; N]) -> bool
    ensures { IsTrue result ↔ (a.now ≡ b.now) }
{
    if N < 4 || 8 < N {
        return a == b;
    }
    first_word(a) == first_word(b) && last_word(a) == last_word(b)
}

#[inline(always)]
fn first_word<const N: usize>(text: &[u8; N]) -> u32
    requires { 4 ≤ N }
    ensures value { result ≡ from_le_bytes w32 (take 4 text.now) }
    ensures bytes { to_le_bytes w32 result ≡ take 4 text.now }
{
    word_of(text.first_chunk::<4>().unwrap())
}

#[inline(always)]
fn last_word<const N: usize>(text: &[u8; N]) -> u32
    requires { 4 ≤ N }
    ensures value { result ≡ from_le_bytes w32 (drop (N - 4) text.now) }
    ensures bytes { to_le_bytes w32 result ≡ drop (N - 4) text.now }
{
    word_of(text.last_chunk::<4>().unwrap())
}

#[tactic(auto, using(std::proofs::lemmas::Nat::le_bytes_4))]
#[inline(always)]
fn word_of(bytes: &[u8; 4]) -> u32
    ensures value { result ≡ from_le_bytes w32 bytes.now }
    ensures bytes { to_le_bytes w32 result ≡ bytes.now }
{
    u32::from_le_bytes(*bytes)
}
