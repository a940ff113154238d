//! Reads or checks certificates several times, so that a profiler can count the instructions of it, or prints what the circuit of a
//! board does:
//!
//!     dvg_bench read numbers ENTRIES TIMES
//!     dvg_bench shapes FILLING ENTRIES TIMES [MACHINE]
//!     dvg_bench whole FILLING ENTRIES TIMES [MACHINE]
//!     dvg_bench frame FRAME ENTRIES TIMES [MACHINE]
//!     dvg_bench files NAME ENTRIES TIMES [MACHINE]
//!     dvg_bench trace MEMORY MOST X Y SCALE POINTER PLACE PLACE PLACE PLACE
//!
//! `read` reads the text of so many entries with numbers of many lengths. `shapes` checks as many shapes, and `whole` the same
//! from the bytes and the text: FILLING says what the ROM is full of, `draws`, `unscaled`, `scales`, `dark-scales`,
//! `places`, `calls`, `keys`, `named`, `everywhere` or `jumps`. `frame` checks a frame over as many shapes: FRAME is `one-shape`,
//! `all-shapes` or `strokes`. `files` checks what the files bench.rom, bench.cert and bench.frame hold in the folder that it runs in;
//! NAME only labels the run. MACHINE is `profile`, as it is without that word, or `board`. Two runs that differ in their times alone
//! differ by the cost of reading or checking. What `trace` prints, and what its words are, stands at its function.
#![tactic(auto)]

mod checking;
mod entries;
mod filling;
mod memory;
mod reading;
mod trace;

use anyhow::{Context, Result, bail};
use checking::{Filled, Frame, check_bytes, check_entries, check_files, check_frames};
use dvg_words::Machine;
use filling::Filling;
use reading::read_texts;
use std::env;
use trace::trace;

/// The machine of this name.
fn machine_of(name: &str) -> Result<Machine> {
    Ok(match name {
        "profile" => Machine::Profile,
        "board" => Machine::Board,
        _ => bail!("the machine is profile or board"),
    })
}

/// So many entries of a ROM that is full of what this names, on a machine.
fn filled(machine: Machine, name: &str, count: u16) -> Result<Filled> {
    Ok(Filled {
        machine,
        filling: Filling::of_name(name)?,
        count,
    })
}

/// Does what the words say on a machine, and gives how many bytes or items it was done to.
fn run(
    rt: &HostRuntime,
    machine: Machine,
    what: &str,
    input: &str,
    count: u16,
    times: u32,
) -> Result<u64> {
    let alloc = rt.alloc();
    match what {
        "read" => read_texts(alloc, count, times),
        "shapes" => check_entries(alloc, filled(machine, input, count)?, times),
        "whole" => check_bytes(alloc, filled(machine, input, count)?, times),
        "frame" => check_frames(machine, alloc, Frame::of_name(input)?, count, times),
        "files" => check_files(machine, rt, count, times),
        _ => bail!("the first word is read, shapes, whole, frame, files or trace"),
    }
}

fn main(rt: HostRuntime) -> Result<()> {
    let mut words = env::args(&rt)?.skip(1);
    let what = words
        .next()
        .context("read, shapes, whole, frame, files or trace is missing")?;
    if what.as_str() == "trace" {
        return trace(&rt, &mut words);
    }
    let input = words.next().context("the input is missing")?;
    let count: u16 = words.next().context("ENTRIES is missing")?.parse()?;
    let times: u32 = words.next().context("TIMES is missing")?.parse()?;
    let machine = match words.next() {
        Some(name) => machine_of(&name)?,
        None => Machine::Profile,
    };
    let units = run(&rt, machine, &what, &input, count, times)?;
    let unit = match what.as_str() {
        "read" | "files" => "bytes",
        _ => "items",
    };
    println!(rt; "{count} entries, {units} {unit}, {times} times")?;
    Ok(())
}
