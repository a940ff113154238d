//! Runs the circuit of `dvg_circuit` over one memory, and prints what each instruction did, so that it can be compared with a board
//! or with an emulation of it. It is no simulator for users: it shows the definitions that the theorem about the board speaks of.

use crate::memory::Memory;
use anyhow::{Context, Result};
use dvg_cert::Key;
use dvg_circuit::{Bus, Circuit, Counters, Run};
use dvg_clocks::{DVG_STATES, instr_clocks};
use dvg_words::{Format, Machine, decode_on, is_long};
use std::env::Args;
use std::fmt::Write;
use std::fs;
use std::iter::Skip;

/// The next word of the command line.
fn next_word(words: &mut Skip<Args>) -> Result<String> {
    words.next().context("a word is missing")
}

/// The registers that the next words of the command line say.
fn registers(words: &mut Skip<Args>) -> Result<Circuit> {
    let x = next_word(words)?.parse()?;
    let y = next_word(words)?.parse()?;
    let scale = next_word(words)?.parse()?;
    let pointer = next_word(words)?.parse()?;
    let first = next_word(words)?.parse()?;
    let second = next_word(words)?.parse()?;
    let third = next_word(words)?.parse()?;
    let fourth = next_word(words)?.parse()?;
    Ok(Circuit {
        pc: 0,
        counters: Counters { x, y },
        scale,
        pointer,
        returns: [first, second, third, fourth],
        halted: false,
    })
}

/// Prints what the registers hold, and the counters wherever the beam was lit since `lit_before` draws were.
fn print_line(rt: &HostRuntime, run: &Run, lit_before: usize) -> Result<()> {
    let circuit = run.circuit();
    let Counters { x, y } = circuit.counters;
    let [first, second, third, fourth] = circuit.returns;
    // a line is written at once: a draw may light a thousand places
    let mut line = String::new(rt.alloc());
    write!(
        line,
        "{} {x} {y} {} {}",
        circuit.pc, circuit.scale, circuit.pointer
    )?;
    write!(line, " {first} {second} {third} {fourth}")?;
    for draw in run.lit().iter().skip(lit_before) {
        for Counters { x, y } in &draw.passed(rt.alloc())? {
            write!(line, " {x},{y}")?;
        }
    }
    println!(rt; "{line}")?;
    Ok(())
}

/// The clocks of the next instruction, which are just so many as the circuit holds the scale.
fn next_clocks(memory: &Memory, circuit: &Circuit) -> Result<u64> {
    let first = memory.read(circuit.pc);
    let second = memory.read((circuit.pc % 0x1000 + 1) % 0x1000);
    let format = if is_long(first) {
        Format::Long
    } else {
        Format::Short
    };
    let instr = decode_on(Machine::Board, first, second).context(
        "each two words are an instruction",
    )?;
    let clocks = instr_clocks(&DVG_STATES, format, &instr, Key::At(circuit.scale % 16));
    Ok(clocks.most)
}

/// Prints what the circuit does, as the words of the command line say: MEMORY, MOST, the registers.
///
/// MEMORY is a file with the bytes of the words 000 to FFF; past its end 0 is read. The other words are decimal numbers: how many
/// instructions there are at most, and what the counters, the global scale, the stack pointer and the four stored places hold at the
/// start: counters and places 0 to 4095, scale and pointer 0 to 15, which is not checked. The program counter is at 0. For each
/// instruction there is a line: the program counter after it, which HALT leaves at its own address, both counters, the scale, the
/// pointer, the four places, and then the counters wherever it had the beam lit. The last line is `clocks N`: how many clocks of
/// 1.512 MHz these instructions took, by the states of Atari's DVG.
pub fn trace(rt: &HostRuntime, words: &mut Skip<Args>) -> Result<()> {
    let memory = Memory {
        bytes: fs::read(rt, &next_word(words)?)?,
    };
    let most: u32 = next_word(words)?.parse()?;
    let mut run = Run::begin(registers(words)?, rt.alloc());
    let mut clocks: u64 = 0;
    for _ in 0..most {
        let next = next_clocks(&memory, &run.circuit())?;
        clocks = clocks.checked_add(next).context("too many clocks")?;
        let lit_before = run.lit().len();
        run.step(&memory)?;
        print_line(rt, &run, lit_before)?;
        if run.circuit().halted {
            break;
        }
    }
    println!(rt; "clocks {clocks}")?;
    Ok(())
}
