//! The entries of a ROM that is full of one thing, reckoned from what that is.

ghost use Rattle.std.specs.Prelude.{◌<◌, ◌≤◌, ◌≤ℤ◌, pos};

use crate::filling::{Filling, NAMED, local_scale};
use anyhow::{Result, bail};
use dvg_cert::{Cert, End, Entry, Key, LitBox, MOST_NUMBER, MOST_WORDS};
use dvg_words::{Draw, Machine, ROM_FIRST, ROM_LAST, displacement_on};
use std::alloc::Global;

/// How many strokes to and fro there are from an address on.
fn strokes(filling: Filling, addr: u16) -> u16
    requires { addr ≤ ROM_LAST }
{
    match filling {
        Filling::Jumps => (ROM_LAST + 1 - addr) / 2,
        _ => filling.items_before_end(addr),
    }
}

/// How far the first of them goes on a machine at a global scale: to the right, or as a negative number to the left.
fn first_stroke(machine: Machine, filling: Filling, addr: u16, gscale: u8) -> i64
    requires addr { addr ≤ ROM_LAST }
    requires scale { gscale < 16 }
{
    let (forth, size, local) = match filling {
        Filling::Draws => (addr % 2 == 0, 256, 2),
        Filling::Jumps => ((addr + 1) / 2 % 2 == 0, 256, 2),
        _ => (addr % 4 == 0, 1, local_scale(addr)),
    };
    let stroke = Draw {
        dx: if forth { size } else { -size },
        dy: 0,
        lscale: local as u8,
        bright: 7,
    };
    i64::from(displacement_on(machine, &stroke, gscale).0)
}

/// Where strokes to and fro end.
fn stop_of_strokes(machine: Machine, filling: Filling, addr: u16, key: Key) -> End
    requires { addr ≤ ROM_LAST }
{
    let strokes = strokes(filling, addr);
    match key {
        Key::At(gscale) if strokes % 2 == 1 => End::Rel {
            x: first_stroke(machine, filling, addr, gscale % 16),
            y: 0,
        },
        Key::Any if strokes > 0 => End::Lost,
        _ => End::Rel { x: 0, y: 0 },
    }
}

fn stop_of(machine: Machine, filling: Filling, addr: u16, key: Key) -> End
    requires { addr ≤ ROM_LAST }
{
    match filling {
        Filling::Calls | Filling::Keys | Filling::Everywhere => End::Rel { x: 0, y: 0 },
        Filling::Named => End::Abs { x: 0, y: 0 },
        // One stroke past 512, 512, at effective scale 2 + 15 - 16.
        Filling::Places => End::Abs {
            x: 512 * 1024 + 1024,
            y: 512 * 1024,
        },
        _ => stop_of_strokes(machine, filling, addr, key),
    }
}

/// What is lit lies between these two across, and no further than this up and down.
fn between(x_min: i64, x_max: i64, height: i64) -> LitBox
    requires { pos 0 ≤ℤ height }
{
    LitBox::Span {
        x_min,
        x_max,
        y_min: -height,
        y_max: height,
    }
}

fn lit_of(machine: Machine, filling: Filling, addr: u16, key: Key) -> LitBox
    requires { addr ≤ ROM_LAST }
{
    match (filling, key) {
        (Filling::Draws | Filling::Jumps, Key::At(gscale)) => {
            let stroke = first_stroke(machine, filling, addr, gscale % 16);
            between(stroke.min(0), stroke.max(0), 0)
        }
        // Strokes of all local scales are no longer than these.
        (Filling::Scales, _) => between(-1024, 1024, 0),
        (Filling::Everywhere, _) if addr == ROM_LAST => between(-1, 1, 1),
        (Filling::Everywhere, _) => between(-MOST_NUMBER, MOST_NUMBER, MOST_NUMBER),
        _ => LitBox::Empty,
    }
}

/// The words of a shape, those of what it calls among them.
fn words_of(filling: Filling, addr: u16) -> u32
    requires { addr ≤ ROM_LAST }
{
    let words = match filling {
        Filling::Everywhere if addr == ROM_LAST => 900,
        Filling::Everywhere => return MOST_WORDS,
        Filling::Draws | Filling::Unscaled | Filling::Places | Filling::Jumps => ROM_LAST + 1
            - addr,
        Filling::Named => 4 * NAMED.saturating_sub(addr) + 3,
        _ => 2 * filling.items_before_end(addr) + 1,
    };
    u32::from(words)
}

fn depth_of(filling: Filling, addr: u16) -> u8
    requires { addr ≤ ROM_LAST }
{
    match filling {
        Filling::Calls | Filling::Keys if filling.items_before_end(addr) > 0 => 1,
        Filling::Named if addr != NAMED => 1,
        Filling::Everywhere if addr == ROM_LAST => 2,
        Filling::Everywhere => 3,
        _ => 0,
    }
}

/// The scale that is left behind: that of the last LABS, if there is one.
fn scale_of(filling: Filling, key: Key) -> Key {
    match filling {
        Filling::Places => Key::At(15),
        Filling::Named => Key::At(0),
        _ => key,
    }
}

fn entry_of(machine: Machine, filling: Filling, addr: u16, key: Key) -> Entry
    requires { addr ≤ ROM_LAST }
{
    Entry {
        addr,
        key,
        stop: stop_of(machine, filling, addr, key),
        lit: lit_of(machine, filling, addr, key),
        depth: depth_of(filling, addr),
        words: words_of(filling, addr),
        scale: scale_of(filling, key),
    }
}

/// How many entries each place has, but for the one that calls name.
fn keys(filling: Filling) -> u16
    ensures some { 1 ≤ result }
    ensures few { result ≤ 17 }
{
    match filling {
        Filling::Unscaled => 1,
        Filling::Draws | Filling::Calls | Filling::Jumps => 4,
        Filling::Scales | Filling::Keys | Filling::Named => 16,
        Filling::DarkScales | Filling::Places | Filling::Everywhere => 17,
    }
}

/// How many entries there are for all of the ROM.
pub fn all_entries(filling: Filling) -> u16
    ensures { result ≤ 17408 }
{
    let keys = keys(filling);
    match filling {
        Filling::Scales | Filling::DarkScales => 511 * keys,
        Filling::Places => 256 * keys,
        Filling::Everywhere => 241 * keys,
        Filling::Named => 1021 * keys + 1,
        _ => 1024 * keys,
    }
}

/// The address of an entry among all of the ROM.
fn address_at(filling: Filling, index: u16) -> u16
    requires { index < 17408 }
    ensures { result ≤ ROM_LAST }
{
    let place = (index / keys(filling)).min(ROM_LAST - ROM_FIRST);
    let offset = match filling {
        Filling::Scales | Filling::DarkScales => 2 * place,
        Filling::Places => place / 2 * 8 + place % 2 * 2,
        Filling::Everywhere if place == 240 => ROM_LAST,
        _ => place,
    };
    (ROM_FIRST + offset).min(ROM_LAST)
}

/// Its key, where the entry stands at this address.
fn key_at(filling: Filling, index: u16, addr: u16) -> Key {
    match filling {
        Filling::Unscaled => Key::Any,
        Filling::Named if addr == NAMED => Key::Any,
        _ => match index % keys(filling) {
            16 => Key::Any,
            gscale => Key::At(gscale as u8),
        },
    }
}

/// The certificate of so many entries on a machine, the last ones of all of the ROM.
pub fn cert_of(machine: Machine, alloc: Global, filling: Filling, count: u16) -> Result<Cert> {
    let all = all_entries(filling);
    if count > all {
        bail!("a ROM full of this has no more than {all} entries");
    }
    let mut entries = Vec::new(alloc);
    for index in all - count..all {
        let addr = address_at(filling, index);
        let key = key_at(filling, index, addr);
        entries.push(entry_of(machine, filling, addr, key))?;
    }
    match Cert::from_entries(entries, (ROM_FIRST, ROM_LAST)) {
        Ok(cert) => Ok(cert),
        Err(_) => bail!("these are not the entries of a certificate"),
    }
}

/// How many items the shapes of a certificate have together.
pub fn items_of(filling: Filling, cert: &Cert) -> u64 {
    let mut items = 0u64;
    for entry in cert.entries() {
        items = items.saturating_add(
            1 + u64::from(filling.items_before_end(entry.addr.min(ROM_LAST))),
        );
    }
    items
}
