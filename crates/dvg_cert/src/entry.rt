//! What a certificate claims of a shape.

ghost use Rattle.std.specs.Prelude.{◌≡◌};
ghost use Rattle.std.specs.Hash as fed;
ghost use Rattle.std.specs.Cmp.Rules.{comparing, hashing};
ghost use Rattle.std.proofs.Common.{rules};
ghost use Rattle.dvg_cert.specs.Lookup.{is_at};
ghost use Rattle.dvg_cert.specs.Private.Keyed.{hashed_number};

use std::fmt;
use std::hash::{Hash, Hasher};

/// A global scale, or any.
///
/// As a key it is the scale at which a shape is called, and `Any` stands for every scale. As the scale that is left
/// behind, `Any` claims nothing. The numbers are 0 to 15. `Any` stands after them in the order of keys.
#[derive(Clone, Copy, Debug, PartialEq, Eq, PartialOrd, Ord)]
pub enum Key {
    At(u8),
    Any,
}

impl Key {
    /// The one byte that is hashed: a scale's own number, and 16 for `Any`.
    pub(crate) fn hashed(self) -> u8
        ensures { result ≡ hashed_number self }
    {
        match self {
            Key::At(scale) => scale,
            Key::Any => 16,
        }
    }
}

/// By one byte: a write less than the case and the number.
impl Hash for Key {
    ghost hash_input = { λ key. fed.u8 (hashed_number key) };

    ghost respects_eq = { Prim.search (comparing, hashing, rules) };

    fn hash<H: Hasher>(&self, state: &mut H) {
        state.write_u8(self.hashed());
    }
}

/// As a certificate spells it.
impl fmt::Display for Key {
    fn fmt<W: fmt::Write>(&self, f: &mut fmt::Formatter<W>) -> fmt::Result {
        match self {
            Key::At(scale) => write!(f, "{scale}"),
            Key::Any => f.write_str("any"),
        }
    }
}

/// Where the beam is at a shape's return, in units of 1/1024 of a screen place.
///
/// The numbers of a certificate are -2,000,000,000,000 to 2,000,000,000,000.
#[derive(Clone, Copy, Debug, PartialEq, Eq)]
pub enum End {
    /// Moved by this much since the call.
    Rel { x: i64, y: i64 },
    /// At this place.
    Abs { x: i64, y: i64 },
    /// Anywhere: nothing is claimed.
    Lost,
}

/// What a shape lights before it sets its place, relative to the beam at the call, in units of 1/1024 of a screen place.
#[derive(Clone, Copy, Debug, PartialEq, Eq)]
pub enum LitBox {
    /// Nothing.
    Empty,
    /// All that it lights lies between these coordinates, ends included.
    Span {
        x_min: i64,
        x_max: i64,
        y_min: i64,
        y_max: i64,
    },
}

/// What a certificate claims of the shape at a word address, called at a global scale.
///
/// The large fields stand first, so that none of them has a gap before it.
#[derive(Clone, Copy, Debug, PartialEq, Eq)]
pub struct Entry {
    /// Where the beam is at its return.
    pub stop: End,
    /// What it lights before its place is set, by a LABS of its own or of a shape that it calls, relative to the beam at the
    /// call.
    pub lit: LitBox,
    /// The most words fetched from its first word through its return, with the words of the shapes that it calls: 1 to
    /// 1,000,000.
    pub words: u32,
    /// The word address of the shape's first word.
    pub addr: u16,
    /// The global scale at which it is called, or any.
    pub key: Key,
    /// The global scale that it leaves behind.
    pub scale: Key,
    /// How deep calls nest below it, at most, 0 to 3.
    pub depth: u8,
}

impl Entry {
    /// Whether the entry has exactly this address and key.
    pub fn is_at(&self, addr: u16, key: Key) -> bool
        ensures { result ≡ is_at addr key self.now }
    {
        addr == self.addr && key == self.key
    }
}
