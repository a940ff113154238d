//! What a pass over a ROM keeps of what it made last, by word addresses and keys.

ghost use Rattle.std.specs.Prelude.{◌≡◌, ◌⊎◌, ◌<◌, IfSome, length};
ghost use Rattle.dvg_cert.specs.Entry.{IsKey};
ghost use Rattle.dvg_check.specs.Passing.{IsKept};
ghost use Rattle.dvg_check.specs.declared.slots.TheConstants.{SLOTS};

use crate::keys::{KEYS, key_index};
use dvg_cert::Key;

/// How many values a pass over a ROM keeps: one for each key at four words in a row. What stands behind an item is one or two
/// words further on, so three would do; a row of four is found by the two low bits of the address.
pub const SLOTS: usize = 4 * KEYS as usize;

/// A value, with the word address and the key that it was made for. A slot may still hold what was made for a later word, so each
/// value has its own address and key to compare.
#[derive(Clone, Copy)]
pub struct Kept<T> {
    pub value: T,
    pub addr: u16,
    pub key: Key,
}

/// The slot of a word address and a key.
#[inline(always)]
fn slot_of(addr: u16, key: Key) -> usize
    requires { IsKey key }
    ensures { result < SLOTS }
{
    usize::from(addr % 4) * usize::from(KEYS) + usize::from(key_index(key))
}

/// What is kept for a word address and a key.
#[inline]
pub fn kept_at<T: Copy>(slots: &[Option<Kept<T>>], addr: u16, key: Key) -> Option<&T>
    requires key { IsKey key }
    requires slots { length slots.now ≡ SLOTS }
    ensures { IfSome result (λ value. IsKept slots.now (record { value = value.now; addr = addr; key = key })) }
{
    let kept = slots[slot_of(addr, key)].as_ref()?;
    if kept.addr == addr && kept.key == key {
        Some(&kept.value)
    } else {
        None
    }
}

/// Keeps a value for a word address and a key, in place of what their slot held.
#[inline]
pub fn keep<T: Copy>(slots: &mut [Option<Kept<T>>], addr: u16, key: Key, value: T)
    requires key { IsKey key }
    requires slots { length slots.old ≡ SLOTS }
    ensures held { IsKept slots.new (record { value = value; addr = addr; key = key }) }
    ensures kept { (kept : Kept T) → IsKept slots.new kept → (kept ≡ record { value = value; addr = addr; key = key }) ⊎ IsKept slots.old kept }
    ensures slots { length slots.new ≡ SLOTS }
{
    slots[slot_of(addr, key)] = Some(Kept { value, addr, key });
}
