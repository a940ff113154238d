//! The registers of the circuit.

ghost use Rattle.std.specs.Prelude.{◌≡◌, ◌+◌, ◌%◌, slice_index, slice_set};
ghost use Rattle.dvg_circuit.specs.Circuit.{past};

use crate::counters::Counters;
use dvg_words::Format;

/// What the registers of the circuit hold.
#[derive(Clone, Copy, Debug, PartialEq, Eq)]
pub struct Circuit {
    /// The program counter: the word address of the next instruction, twelve bits.
    pub pc: u16,
    /// The position counters.
    pub counters: Counters,
    /// The global scale, four bits.
    pub scale: u8,
    /// The stack pointer, four bits.
    pub pointer: u8,
    /// The four places that calls store word addresses at.
    pub returns: [u16; 4],
    /// Whether a HALT has stopped the run.
    pub halted: bool,
}

/// The word address past an instruction.
pub fn past(format: Format, address: u16) -> u16
    ensures { result ≡ past format address }
{
    address.wrapping_add(format.words()) & 0x0FFF
}

impl Circuit {
    /// A call: the pointer steps up, and the next address is stored there.
    pub fn call(&mut self, to: u16, next: u16)
        ensures { self.new ≡ record self.old {
          pc = to;
          pointer = (self.old.pointer + 1) % 16;
          returns = slice_set self.old.returns ((self.old.pointer + 1) % 4) next;
        } }
    {
        self.pointer = self.pointer.wrapping_add(1) % 16;
        self.returns[usize::from(self.pointer % 4)] = next;
        self.pc = to;
    }

    /// A return: to the address that the pointer is at, which then steps down.
    pub fn go_back(&mut self)
        ensures { self.new ≡ record self.old {
          pc = slice_index self.old.returns (self.old.pointer % 4);
          pointer = (self.old.pointer + 15) % 16;
        } }
    {
        self.pc = self.returns[usize::from(self.pointer % 4)];
        self.pointer = self.pointer.wrapping_add(15) % 16;
    }
}
