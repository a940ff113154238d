//! The word that a call outside the ROM may mean.

use crate::lines::Lines;
use crate::piece::Piece::{Address, BareAddress, Line, Text};
use dvg_cert::Key;
use dvg_make::{EntryCause, MakeAccount, MakeFault, ShapeAt, make};
use dvg_words::{RAM_WORDS, RomImage, RomMap};
use std::alloc::{AllocError, Global};
use std::slice;

/// Whether a word address is outside the ROM.
pub fn is_outside(map: RomMap, at: u16) -> bool {
    at < map.first() || map.last() < at
}

/// The only shape on the way to a missing word, if it begins at that word, outside the ROM.
fn outside_call(map: RomMap, account: &MakeAccount) -> Option<ShapeAt> {
    let shape = *account.chain.last()?;
    match account.cause {
        EntryCause::Missing
            if shape.addr == account.at
                && is_outside(map, shape.addr)
                && account.chain.len() == 1 => { Some(shape) }
        _ => None,
    }
}

/// The word past vector RAM of the byte whose processor address ends in these twelve bits: 4000 or 5000 is in front of them.
fn byte_word(bits: u16) -> u16 {
    let word = bits / 2;
    if word < RAM_WORDS {
        word + 2 * RAM_WORDS
    } else {
        word
    }
}

/// Whether a call of this address may be meant as that of a word's first byte: the word is in the ROM, and a shape can be made there
/// at the scale of the call.
fn means_byte(alloc: Global, rom: &RomImage, at: u16, scale: Key) -> Result<bool, AllocError> {
    let word = byte_word(at);
    if at % 2 == 1 || is_outside(rom.map(), word) {
        return Ok(false);
    }
    match make(alloc, rom, slice::from_ref(&(word, scale))) {
        Ok(_) => Ok(true),
        Err(MakeFault::Memory) => Err(AllocError),
        Err(_) => Ok(false),
    }
}

/// The word that a frame's call outside the ROM means if its address is that of a byte, where it would be right then.
pub fn meant(
    alloc: Global,
    rom: &RomImage,
    account: &MakeAccount,
) -> Result<Option<u16>, AllocError> {
    let Some(called) = outside_call(rom.map(), account) else {
        return Ok(None);
    };
    if !means_byte(alloc, rom, account.at, called.key)? {
        return Ok(None);
    }
    Ok(Some(byte_word(account.at)))
}

/// Adds the line of the word that is meant by a called address, if one is.
pub fn push_meant(lines: &mut Lines, at: u16, word: Option<u16>) {
    if let Some(word) = word {
        lines.add(&[
            Line("byte address"),
            Text("taken as one, "),
            BareAddress(at),
            Text(" is word "),
            Address(word),
            Text("; calls take word addresses"),
        ]);
    }
}
