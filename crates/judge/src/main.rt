//! Judges a frame over a vector ROM and its certificate, and says how it is.
#![tactic(auto)]

use anyhow::Result;
use dvg_verdict::check;
use dvg_words::SCREEN;
use std::fs;

fn main(rt: HostRuntime) -> Result<()> {
    let rom = fs::read(&rt, "arcade.rom")?;
    let cert = fs::read(&rt, "arcade.cert")?;
    let frame = fs::read(&rt, "game.frame")?;
    match check(rt.alloc(), &rom, &cert, &frame, 20_000, SCREEN) {
        Ok(yes) => println!(rt; "safe: {} words, {} return places", yes.words, yes.depth)?,
        Err(refusal) => println!(rt; "refused {}: {refusal}", refusal.number())?,
    }
    Ok(())
}
