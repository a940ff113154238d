//! Writing a certificate, and bytes. No memory is taken.

ghost use Rattle.std.specs.Prelude.{◌≡◌, ◌<◌, ◌≤◌, ◌+◌, ◌-◌, [], ◌∷◌, ◌++◌, length, not, true, decimal, OnOk, OnErr, is_err};
ghost use Rattle.std.specs.Fmt.{signed_decimal};
ghost use Rattle.std.specs.Io.KnownBytes.{Appends};
ghost use Rattle.dvg_text.specs.Devices.{count_after, AppendsPrefix};
ghost use Rattle.arrayvec.specs.ArrayVec.{array_vec_len};
ghost use Rattle.dvg_words.specs.declared.map.TheConstants.{ADDRESS_END};
ghost use Rattle.dvg_cert.specs.Entry.{IsNumber, IsKey, IsEnd, IsBox, IsEntry};
ghost use Rattle.dvg_text.specs.Grammar.{address_token, key_token, end_tokens, box_tokens, rom_line, entry_line, done_line, ended, begun_with, text_of};
ghost use Rattle.dvg_text.specs.Private.Writing.{spaced, Buffered};

use crate::counted::CountedWrite;
use crate::fault::WriteFault;
use crate::limits::{LINE_FEED, LONGEST_LINE, MOST_AT_ONCE, SPACE};
use crate::line_buffer::{WriteBuffer, push_bytes, push_token};
use crate::numerals::address_digits;
use dvg_cert::{Cert, End, Entry, Key, LitBox, MOST_ENTRIES, MOST_WORDS};
use dvg_words::{ADDRESS_END, RomMap};
use itoa::Buffer;

/// Writes all of the bytes, by as many writes as it takes, and nothing else. Takes no memory.
///
/// At the first write that fails it ends with `Device`, and a prefix of the bytes was written: nothing is sent again.
pub fn write_bytes<W: CountedWrite>(bytes: &[u8], out: &mut W) -> Result<(), WriteFault>
    ensures ok { OnOk result (Appends (W.contents out.old) (W.contents out.new) bytes.now) }
    ensures prefix { OnErr result (AppendsPrefix (W.contents out.old) (W.contents out.new) bytes.now) }

    // An error comes exactly where a write failed in this call; else one write, the last, took its whole piece.
    ensures count { W.failures out.new ≡ count_after (is_err result) (W.failures out.old) }
    ensures whole { 0 < length bytes.now → W.whole_writes out.new ≡ count_after (not (is_err result)) (W.whole_writes out.old) }
{
    let mut sent = 0;
    'sending: while sent < bytes.len() {
        let Ok(taken) = out.write_counted(&bytes[sent..]) else {
            return Err(WriteFault::Device);
        };
        if taken == 0 {
            return Err(WriteFault::Device);
        }
        sent += taken;
    }
    Ok(())
}

/// Writes the text of a certificate, and nothing else. Takes no memory.
///
/// Each write is of as many whole lines as surely fit 4096 bytes, and goes on where the writer took a part of them. At the first
/// write that fails it ends with `Device`, and a prefix of the text was written: nothing is sent again.
pub fn write_cert<W: CountedWrite>(cert: &Cert, out: &mut W) -> Result<(), WriteFault>
    ensures ok { OnOk result (Appends (W.contents out.old) (W.contents out.new) (text_of cert.now.map cert.now.entries)) }
    ensures prefix { OnErr result (AppendsPrefix (W.contents out.old) (W.contents out.new) (text_of cert.now.map cert.now.entries)) }

    // An error comes exactly where a write failed in this call.
    ensures count { W.failures out.new ≡ count_after (is_err result) (W.failures out.old) }
{
    let mut text = WriteBuffer::new();
    push_heading(&mut text, cert.map());
    let entries = cert.entries();
    for i in 0..entries.len() {
        make_room(&mut text, out)?;
        push_entry(&mut text, &entries[i]);
    }
    make_room(&mut text, out)?;
    push_done(&mut text, entries.len() as u32);
    write_bytes(text.as_slice(), out)
}

/// Where the next line may not fit, writes what the buffer holds, and empties it.
fn make_room<W: CountedWrite>(text: &mut WriteBuffer, out: &mut W) -> Result<(), WriteFault>
    ensures ok { OnOk result (Buffered (W.contents out.old) (W.contents out.new) text.new.items text.old.items) }
    ensures room { OnOk result (array_vec_len text.new + LONGEST_LINE ≤ MOST_AT_ONCE) }
    ensures prefix { OnErr result (AppendsPrefix (W.contents out.old) (W.contents out.new) text.old.items) }
    ensures count { W.failures out.new ≡ count_after (is_err result) (W.failures out.old) }
{
    if text.len() > MOST_AT_ONCE - LONGEST_LINE {
        write_bytes(text.as_slice(), out)?;
        text.clear();
    }
    Ok(())
}

/// The lines before the entries.
#[tactic(auto, using(crate::proofs::Spelled::here_held, crate::proofs::Spelled::elsewhere_held))]
fn push_heading(text: &mut WriteBuffer, map: RomMap)
    requires { text.old.items ≡ [] }
    ensures { text.new.items ≡ begun_with map [] }
{
    if map.is_asteroids() {
        push_bytes(text, b"dvgcert 1\n");
    } else {
        push_bytes(text, b"dvgcert 2\n");
        push_rom(text, map.first(), map.last());
    }
}

/// The line that says where a ROM lies, with its end.
pub fn push_rom(text: &mut WriteBuffer, first: u16, last: u16)
    requires first { first < ADDRESS_END }
    requires last { last < ADDRESS_END }
    requires room { array_vec_len text.old + LONGEST_LINE ≤ MOST_AT_ONCE }
    ensures { text.new.items ≡ text.old.items ++ ended (rom_line (record { rom_first = first; rom_last = last })) }
{
    push_bytes(text, b"rom");
    push_address(text, first);
    push_address(text, last);
    push_bytes(text, &[LINE_FEED]);
}

/// The line of an entry, with its end.
#[tactic(auto, using(crate::proofs::Spelled::spelled_entry))]
pub fn push_entry(text: &mut WriteBuffer, entry: &Entry)
    requires entry { IsEntry 0 (ADDRESS_END - 1) entry.now }
    requires room { array_vec_len text.old + LONGEST_LINE ≤ MOST_AT_ONCE }
    ensures { text.new.items ≡ text.old.items ++ ended (entry_line entry.now) }
{
    push_bytes(text, b"shape");
    push_address(text, entry.addr);
    push_key(text, entry.key);
    push_token(text, b"end");
    push_end(text, entry.stop);
    push_token(text, b"box");
    push_box(text, &entry.lit);
    push_token(text, b"depth");
    push_natural(text, entry.depth as u32);
    push_token(text, b"words");
    push_natural(text, entry.words);
    push_token(text, b"scale");
    push_key(text, entry.scale);
    push_bytes(text, &[LINE_FEED]);
}

/// The last line, with its end.
pub fn push_done(text: &mut WriteBuffer, count: u32)
    requires count { count ≤ MOST_ENTRIES }
    requires room { array_vec_len text.old + LONGEST_LINE ≤ MOST_AT_ONCE }
    ensures { text.new.items ≡ text.old.items ++ ended (done_line count) }
{
    push_bytes(text, b"done");
    push_natural(text, count);
    push_bytes(text, &[LINE_FEED]);
}

#[tactic(auto, using(crate::proofs::Lengths::words_le))]
fn push_natural(text: &mut WriteBuffer, number: u32)
    requires number { number ≤ MOST_WORDS }
    requires room { array_vec_len text.old + 8 ≤ MOST_AT_ONCE }
    ensures value { text.new.items ≡ text.old.items ++ SPACE ∷ decimal number }
    ensures len { array_vec_len text.new ≤ array_vec_len text.old + 8 }
{
    let mut buffer = Buffer::new();
    push_token(text, buffer.format(number).as_bytes());
}

#[tactic(auto, using(crate::proofs::Lengths::number_texts))]
fn push_number(text: &mut WriteBuffer, number: &i64)
    requires number { IsNumber number.now }
    requires room { array_vec_len text.old + 15 ≤ MOST_AT_ONCE }
    ensures value { text.new.items ≡ text.old.items ++ SPACE ∷ signed_decimal number.now }
    ensures len { array_vec_len text.new ≤ array_vec_len text.old + 15 }
{
    let number = *number;
    let mut buffer = Buffer::new();
    push_token(text, buffer.format(number).as_bytes());
}

fn push_key(text: &mut WriteBuffer, key: Key)
    requires key { IsKey key }
    requires room { array_vec_len text.old + 8 ≤ MOST_AT_ONCE }
    ensures value { text.new.items ≡ text.old.items ++ SPACE ∷ key_token key }
    ensures len { array_vec_len text.new ≤ array_vec_len text.old + 8 }
{
    match key {
        Key::At(n) => push_natural(text, n as u32),
        Key::Any => push_token(text, b"any"),
    }
}

fn push_end(text: &mut WriteBuffer, end: End)
    requires end { IsEnd end }
    requires room { array_vec_len text.old + 34 ≤ MOST_AT_ONCE }
    ensures value { text.new.items ≡ text.old.items ++ spaced (end_tokens end) }
    ensures len { array_vec_len text.new ≤ array_vec_len text.old + 34 }
{
    match &end {
        End::Rel { x, y } => {
            push_token(text, b"rel");
            push_number(text, x);
            push_number(text, y);
        }
        End::Abs { x, y } => {
            push_token(text, b"abs");
            push_number(text, x);
            push_number(text, y);
        }
        End::Lost => push_token(text, b"lost"),
    }
}

fn push_box(text: &mut WriteBuffer, lit: &LitBox)
    requires lit { IsBox lit.now }
    requires room { array_vec_len text.old + 60 ≤ MOST_AT_ONCE }
    ensures value { text.new.items ≡ text.old.items ++ spaced (box_tokens lit.now) }
    ensures len { array_vec_len text.new ≤ array_vec_len text.old + 60 }
{
    match lit {
        LitBox::Empty => push_token(text, b"none"),
        LitBox::Span {
            x_min,
            x_max,
            y_min,
            y_max,
        } => {
            push_number(text, x_min);
            push_number(text, x_max);
            push_number(text, y_min);
            push_number(text, y_max);
        }
    }
}

fn push_address(text: &mut WriteBuffer, addr: u16)
    requires addr { addr < ADDRESS_END }
    requires room { array_vec_len text.old + 4 ≤ MOST_AT_ONCE }
    ensures value { text.new.items ≡ text.old.items ++ SPACE ∷ address_token addr }
    ensures len { array_vec_len text.new ≡ array_vec_len text.old + 4 }
{
    push_token(text, &address_digits(addr));
}
