//! A run of the circuit, instruction by instruction.

ghost use Rattle.std.specs.Prelude.{◌≡◌, ℕ, ◌++◌, [], ◌∷◌, IfOk, OnErr, length, take};
ghost use Rattle.dvg_circuit.specs.Counters.{counters_after};
ghost use Rattle.dvg_circuit.specs.Circuit.{act, begin, decoded, draw_counts, lit_if, performed, step};

use crate::circuit::{Circuit, past};
use crate::counters::{Counters, counts};
use crate::lit::LitDraw;
use dvg_words::{Draw, Format, Instr, Machine, decode_on, is_long};
use std::alloc::{AllocError, Global};
use std::marker::Model;

/// What the circuit reads. It may change from one instruction to the next.
pub trait Bus {
    /// What is read at each word address.
    ghost reads: { Self → ℕ → ℕ };

    /// What is read at a word address.
    fn read(&self, address: u16) -> u16
        ensures { result ≡ reads self.now address };
}

/// A run so far: the registers, the draws that lit the beam, and the word addresses fetched, in their order.
#[derive(Drop)]
pub struct Run {
    circuit: Circuit,
    lit: Vec<LitDraw>,
    fetched: Vec<u16>,
}

impl Model for Run {
    ghost use Rattle.dvg_circuit.specs.Circuit.{Run as RunSoFar};

    ghost Value = { RunSoFar };

    ghost view = { λ r. record { circuit = r.circuit; lit = r.lit.items; fetched = r.fetched.items } };
}

/// The instruction of two words. On the board every two words have one.
fn decoded(first: u16, second: u16) -> Instr
    ensures { result ≡ decoded first second }
{
    match decode_on(Machine::Board, first, second) {
        Some(instr) => instr,
        None => Instr::Halt,
    }
}

impl Run {
    /// A run that begins with these registers. Takes no memory.
    pub fn begin(circuit: Circuit, alloc: Global) -> Run
        ensures { result ≡ begin circuit }
    {
        Run {
            circuit,
            lit: Vec::new(alloc),
            fetched: Vec::new(alloc),
        }
    }

    /// The registers.
    pub fn circuit(&self) -> Circuit
        ensures { result ≡ self.now.circuit }
    {
        self.circuit
    }

    /// The draws that lit the beam so far, in their order.
    pub fn lit(&self) -> &[LitDraw]
        ensures { result.now ≡ self.now.lit }
    {
        &self.lit
    }

    /// The word addresses fetched so far, in their order.
    pub fn fetched(&self) -> &[u16]
        ensures { result.now ≡ self.now.fetched }
    {
        &self.fetched
    }

    /// Notes a draw that begins here, if its intensity is not 0. `Err` if memory is out: then the run is as it was.
    fn light(&mut self, draw: &Draw, counts: u16) -> Result<(), AllocError>
        ensures ok { IfOk result (λ _. self.new ≡ record self.old {
          lit = self.old.lit ++ lit_if draw.now.bright (record { draw = draw.now; from = self.old.circuit.counters; counts = counts });
        }) }
        ensures err { OnErr result (self.new ≡ self.old) }
    {
        let lit = LitDraw {
            draw: *draw,
            from: self.circuit.counters,
            counts,
        };
        if draw.bright > 0 && self.lit.push(lit).is_err() {
            return Err(AllocError);
        }
        Ok(())
    }

    /// A draw: the timer's counts step the counters, and the beam is lit at each of them. `Err` if memory is out: then the run is as
    /// it was.
    fn draw(&mut self, draw: &Draw) -> Result<(), AllocError>
        ensures ok { IfOk result (λ _. self.new ≡ record self.old {
          circuit = record self.old.circuit {
            counters = counters_after draw.now self.old.circuit.counters (draw_counts draw.now self.old.circuit);
          };
          lit = self.old.lit ++ lit_if draw.now.bright (record {
            draw = draw.now;
            from = self.old.circuit.counters;
            counts = draw_counts draw.now self.old.circuit;
          });
        }) }
        ensures err { OnErr result (self.new ≡ self.old) }
    {
        let scale = draw.lscale.wrapping_add(self.circuit.scale) % 16;
        let counts = counts(scale);
        self.light(draw, counts)?;
        self.circuit.counters = self.circuit.counters.after(draw, counts);
        Ok(())
    }

    /// What an instruction that was fetched here does. `Err` if memory is out: then the run is as it was.
    fn perform(&mut self, instr: Instr, format: Format) -> Result<(), AllocError>
        ensures ok { IfOk result (λ _. self.new ≡ record (performed instr format self.old) { fetched = self.old.fetched }) }
        ensures err { OnErr result (self.new ≡ self.old) }
    {
        let next = past(format, self.circuit.pc);
        match instr {
            Instr::Draw(draw) => {
                self.draw(&draw)?;
                self.circuit.pc = next;
            }
            Instr::Labs { x, y, gscale } => {
                self.circuit.counters = Counters { x, y };
                self.circuit.scale = gscale;
                self.circuit.pc = next;
            }
            Instr::Halt => self.circuit.halted = true,
            Instr::Jsrl { to } => self.circuit.call(to, next),
            Instr::Rtsl => self.circuit.go_back(),
            Instr::Jmpl { to } => self.circuit.pc = to,
        }
        Ok(())
    }

    /// Notes that a word address was fetched. `Err` if memory is out: then the run is as it was.
    fn note(&mut self, address: u16) -> Result<(), AllocError>
        ensures ok { IfOk result (λ _. self.new ≡ record self.old { fetched = self.old.fetched ++ address ∷ [] }) }
        ensures err { OnErr result (self.new ≡ self.old) }
    {
        if self.fetched.push(address).is_err() {
            return Err(AllocError);
        }
        Ok(())
    }

    /// Fetches one instruction and performs it. `Err` if memory is out: then the run is as it was, but for addresses noted at its end.
    fn act<B: Bus>(&mut self, bus: &B) -> Result<(), AllocError>
        ensures ok { IfOk result (λ _. self.new ≡ act (B.reads bus.now) (B.reads bus.now self.old.circuit.pc) self.old) }
        ensures circuit { OnErr result (self.new.circuit ≡ self.old.circuit) }
        ensures lit { OnErr result (self.new.lit ≡ self.old.lit) }
        ensures noted { OnErr result (take (length self.old.fetched) self.new.fetched ≡ self.old.fetched) }
    {
        let pc = self.circuit.pc;
        let first = bus.read(pc);
        self.note(pc)?;
        if !is_long(first) {
            return self.perform(decoded(first, 0), Format::Short);
        }
        let behind = past(Format::Short, pc);
        let second = bus.read(behind);
        self.note(behind)?;
        self.perform(decoded(first, second), Format::Long)
    }

    /// Fetches one instruction and performs it; nothing after a halt. `Err` if memory is out: then the run is as it was.
    pub fn step<B: Bus>(&mut self, bus: &B) -> Result<(), AllocError>
        ensures ok { IfOk result (λ _. self.new ≡ step (B.reads bus.now) self.old) }
        ensures err { OnErr result (self.new ≡ self.old) }
    {
        if self.circuit.halted {
            return Ok(());
        }
        let noted = self.fetched.len();
        let done = self.act(bus);
        if done.is_err() {
            self.fetched.truncate(noted);
        }
        done
    }
}
