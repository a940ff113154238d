//! A memory that nobody writes.

ghost use Rattle.std.specs.Prelude.{◌≡◌, ◌+◌, ◌*◌, ◌≤◌, slice_index};

use dvg_circuit::Bus;

/// The bytes of the words from 000 on, the low byte of each first.
#[derive(Drop)]
pub struct Memory {
    pub bytes: Vec<u8>,
}

impl Memory {
    /// The byte at an index, 0 past the end.
    fn byte(&self, index: usize) -> u16
        ensures value { result ≡ slice_index self.now.bytes.items index }
        ensures few { result ≤ 255 }
    {
        match self.bytes.get(index) {
            Some(byte) => u16::from(*byte),
            None => 0,
        }
    }
}

impl Bus for Memory {
    ghost reads = { λ memory p. slice_index memory.bytes.items (2 * p) + 256 * slice_index memory.bytes.items (2 * p + 1) };

    fn read(&self, address: u16) -> u16 {
        let at = 2 * usize::from(address);
        self.byte(at) + 256 * self.byte(at + 1)
    }
}
