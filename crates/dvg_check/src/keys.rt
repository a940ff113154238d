//! The numbers of keys, and sets of keys.

ghost use Rattle.std.specs.Prelude.{◌≡◌, ◌<◌, IfSome};
ghost use Rattle.dvg_cert.specs.Entry.{IsKey};
ghost use Rattle.dvg_check.specs.Passing.{key_number, set_number};

use dvg_cert::Key;

/// How many keys there are: the sixteen global scales, and `Any`.
pub const KEYS: u8 = 17;

/// The number of a key, 0 to 16: its global scale, or 16 for `Any`.
pub fn key_index(key: Key) -> u8
    requires { IsKey key }
    ensures value { result ≡ key_number key }
    ensures within { result < 17 }
{
    match key {
        Key::At(scale) => scale,
        Key::Any => 16,
    }
}

/// The key with a number of 0 to 16.
fn key_of(index: u8) -> Key
    ensures { IsKey result }
{
    if index < 16 { Key::At(index) } else { Key::Any }
}

/// A set of keys.
#[derive(Clone, Copy)]
pub struct Keys {
    /// The bit of each key's number.
    bits: u32,
}

impl Keys {
    /// The empty set.
    pub const NONE: Keys = Keys { bits: 0 };

    /// The set of one key.
    pub fn one(key: Key) -> Keys
        requires { IsKey key }
    {
        Keys {
            bits: 1 << key_index(key),
        }
    }

    /// The keys of both sets.
    pub fn with(self, others: Keys) -> Keys {
        Keys {
            bits: self.bits | others.bits,
        }
    }

    /// Whether the set is empty.
    pub fn is_empty(self) -> bool {
        self.bits == 0
    }

    /// Takes the key with the lowest number out of the set, `None` if it is empty.
    #[inline(always)]
    pub fn take_first(&mut self) -> Option<Key>
        ensures key { IfSome result IsKey }
        ensures fewer { IfSome result (λ key. set_number self.new < set_number self.old) }
    {
        if self.bits == 0 {
            return None;
        }
        let key = key_of(self.bits.trailing_zeros() as u8);
        self.bits &= self.bits - 1;
        Some(key)
    }
}
