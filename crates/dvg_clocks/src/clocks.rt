//! The clocks of one instruction.

ghost use Rattle.std.specs.Prelude.{◌≡◌, ◌≤◌, ◌<◌, ◌^◌, ◌+◌};
ghost use Rattle.dvg_cert.specs.Entry.{IsKey};
ghost use Rattle.dvg_words.specs.Decoding.{InstrFits};
ghost use Rattle.dvg_clocks.specs.Clocks.{states_of};
ghost use Rattle.dvg_clocks.specs.Forecasts.{plus, clocks_known, counts_known};

use dvg_cert::Key;
use dvg_circuit::counts;
use dvg_words::{Format, Instr};

/// The clocks of each instruction's states, a draw's counts left out.
#[derive(Clone, Copy, Debug, PartialEq, Eq)]
pub struct States {
    pub vctr: u16,
    pub svec: u16,
    pub labs: u16,
    pub halt: u16,
    pub jsrl: u16,
    pub rtsl: u16,
    pub jmpl: u16,
}

/// The states of Atari's DVG (DVG documentation). No board's PROM of states was read, and an emulator tells those of the PROM that it is
/// given.
pub const DVG_STATES: States = States {
    vctr: 5,
    svec: 3,
    labs: 5,
    halt: 3,
    jsrl: 4,
    rtsl: 3,
    jmpl: 3,
};

/// So much at least, and so much at most; where both are the same, exactly so much.
#[derive(Clone, Copy, Debug, PartialEq, Eq)]
pub struct ClockRange {
    pub least: u64,
    pub most: u64,
}

impl ClockRange {
    /// Nothing.
    pub const ZERO: ClockRange = ClockRange { least: 0, most: 0 };

    /// The range of the sum of a number in each of two ranges.
    pub fn plus(self, other: ClockRange) -> ClockRange
        requires ordered { self.least ≤ self.most }
        requires other_ordered { other.least ≤ other.most }
        requires few { self.most + other.most < 2 ^ 64 }
        ensures value { result ≡ plus self other }
    {
        ClockRange {
            least: self.least + other.least,
            most: self.most + other.most,
        }
    }
}

/// The clocks of an instruction's states.
fn states_of(states: &States, format: Format, instr: &Instr) -> u16
    ensures { result ≡ states_of states.now format instr.now }
{
    match (instr, format) {
        (Instr::Draw(_), Format::Long) => states.vctr,
        (Instr::Draw(_), Format::Short) => states.svec,
        (Instr::Labs { .. }, _) => states.labs,
        (Instr::Halt, _) => states.halt,
        (Instr::Jsrl { .. }, _) => states.jsrl,
        (Instr::Rtsl, _) => states.rtsl,
        (Instr::Jmpl { .. }, _) => states.jmpl,
    }
}

/// The counts of an instruction at a known scale; of a draw at an unknown one 0 to 1,024.
fn counts_known(instr: &Instr, scale: Key) -> ClockRange
    requires scale { IsKey scale }
    requires fields { InstrFits instr.now }
    ensures value { result ≡ counts_known instr.now scale }
    ensures ordered { result.least ≤ result.most }
    ensures few { result.most ≤ 1024 }
{
    match (instr, scale) {
        (Instr::Draw(draw), Key::At(gscale)) => {
            let counts = u64::from(counts((draw.lscale + gscale) % 16));
            ClockRange {
                least: counts,
                most: counts,
            }
        }
        (Instr::Draw(_), Key::Any) => ClockRange {
            least: 0,
            most: 1024,
        },
        _ => ClockRange::ZERO,
    }
}

/// The clocks of an instruction at a known scale.
pub fn instr_clocks(states: &States, format: Format, instr: &Instr, scale: Key) -> ClockRange
    requires scale { IsKey scale }
    requires fields { InstrFits instr.now }
    ensures value { result ≡ clocks_known states.now format instr.now scale }
    ensures ordered { result.least ≤ result.most }
    ensures few { result.most ≤ 1024 + 65535 }
{
    let states = u64::from(states_of(states, format, instr));
    let counts = counts_known(instr, scale);
    ClockRange {
        least: states + counts.least,
        most: states + counts.most,
    }
}
