//! The two position counters, and the pulses that step them.

ghost use Rattle.std.specs.Prelude.{◌≡◌, ◌≤◌, ◌%◌, nat_abs};
ghost use Rattle.dvg_circuit.specs.Counters.{counts, counters_after, pulse, stepped};

use dvg_words::Draw;

/// The values of the two position counters, twelve bits each.
#[derive(Clone, Copy, Debug, PartialEq, Eq)]
pub struct Counters {
    pub x: u16,
    pub y: u16,
}

/// The pulse of a size at a count of the vector timer: 1, or 0 for none.
#[tactic(auto, using(crate::proofs::Ones::counted_ones, crate::proofs::Common::nat_tests, crate::proofs::Common::shr_and_one))]
pub fn pulse(size: u16, count: u16) -> u16
    ensures value { result ≡ pulse size count }
    ensures few { result ≤ 1 }
{
    let ones = count.trailing_ones();
    if ones <= 9 { size >> (9 - ones) & 1 } else { 0 }
}

/// A counter past one count of a draw.
fn counted(size: i16, count: u16, counter: u16) -> u16
    ensures { result ≡ stepped size (pulse (nat_abs size) count) counter }
{
    let pulse = pulse(size.unsigned_abs(), count);
    let stepped = if size < 0 {
        counter.wrapping_sub(pulse)
    } else {
        counter.wrapping_add(pulse)
    };
    stepped & 0x0FFF
}

impl Counters {
    /// Both counters past one count of a draw.
    pub fn counted(self, draw: &Draw, count: u16) -> Counters
        ensures x { result.x ≡ stepped draw.now.dx (pulse (nat_abs draw.now.dx) count) self.x }
        ensures y { result.y ≡ stepped draw.now.dy (pulse (nat_abs draw.now.dy) count) self.y }
    {
        Counters {
            x: counted(draw.dx, count, self.x),
            y: counted(draw.dy, count, self.y),
        }
    }

    /// Both counters past so many counts of a draw.
    pub fn after(self, draw: &Draw, counts: u16) -> Counters
        ensures { result ≡ counters_after draw.now self counts }
    {
        let mut at = self;
        for count in 0..counts {
            at = at.counted(draw, count);
        }
        at
    }
}

/// For how many counts the vector timer runs at an effective scale: 2 to 1024 at 0 to 9, and none above.
#[tactic(auto, using(crate::proofs::Rounding::lossless, crate::proofs::Common::nat_tests))]
pub fn counts(scale: u8) -> u16
    ensures value { result ≡ counts scale }
    ensures few { result ≤ 1024 }
{
    if scale <= 9 { 2 << scale } else { 0 }
}
