//! Writing lines, as many whole ones at once as a pipe takes.

ghost use Rattle.std.specs.Prelude.{◌≡◌, ◌<◌, ◌≤◌, ◌+◌, ◌++◌, length, false, OnOk, OnErr, is_err};
ghost use Rattle.std.specs.Io.KnownBytes.{Appends};
ghost use Rattle.arrayvec.specs.ArrayVec.{array_vec_len};
ghost use Rattle.dvg_text.specs.Devices.{count_after, AppendsPrefix, TakesOneWrite};
ghost use Rattle.dvg_text.specs.Private.Writing.{Buffered};

use crate::counted::CountedWrite;
use crate::fault::WriteFault;
use crate::limits::{LINE_FEED, MOST_AT_ONCE};
use crate::line_buffer::{WriteBuffer, push_bytes};
use crate::writer::write_bytes;
use memchr::memrchr;

/// Writes the whole lines that a buffer holds, and keeps the rest. If no line ends in it, writes all that it holds.
fn send_lines<W: CountedWrite>(held: &mut WriteBuffer, out: &mut W) -> Result<(), WriteFault>
    requires { 0 < array_vec_len held.old }
    ensures ok { OnOk result (Buffered (W.contents out.old) (W.contents out.new) held.new.items held.old.items) }
    ensures fewer { OnOk result (array_vec_len held.new < array_vec_len held.old) }
    ensures prefix { OnErr result (AppendsPrefix (W.contents out.old) (W.contents out.new) held.old.items) }
    ensures count { W.failures out.new ≡ count_after (is_err result) (W.failures out.old) }
{
    let bytes = held.as_slice();
    let end = match memrchr(LINE_FEED, bytes) {
        Some(at) => at + 1,
        None => bytes.len(),
    };
    write_bytes(&bytes[..end], out)?;
    let mut rest = WriteBuffer::new();
    push_bytes(&mut rest, &bytes[end..]);
    *held = rest;
    Ok(())
}

/// Puts a text behind what a buffer holds. If the buffer has no room for all of it, whole lines are written.
fn put<W: CountedWrite>(held: &mut WriteBuffer, text: &[u8], out: &mut W) -> Result<(), WriteFault>
    ensures ok { OnOk result (Buffered (W.contents out.old) (W.contents out.new) held.new.items (held.old.items ++ text.now)) }
    ensures prefix { OnErr result (AppendsPrefix (W.contents out.old) (W.contents out.new) (held.old.items ++ text.now)) }
    ensures count { W.failures out.new ≡ count_after (is_err result) (W.failures out.old) }

    // If the buffer has room, nothing is written.
    ensures fits { array_vec_len held.old + length text.now ≤ MOST_AT_ONCE
        → (is_err result ≡ false) × (held.new.items ≡ held.old.items ++ text.now) × (out.new ≡ out.old) }
{
    let mut at = 0;
    'putting: while text.len() - at > MOST_AT_ONCE - held.len() {
        let next = at + (MOST_AT_ONCE - held.len());
        push_bytes(held, &text[at..next]);
        send_lines(held, out)?;
        at = next;
    }
    push_bytes(held, &text[at..]);
    Ok(())
}

/// Writes these three texts, one after the other, and nothing else. Takes no memory.
///
/// They are put together, so that up to 4096 bytes are one write, if the writer takes all of it. A longer text takes several
/// writes: each of as many whole lines as fit 4096 bytes, or of 4096 bytes of a line that doesn't fit. There are three for a name, a
/// line and an account; one that isn't needed is empty. At the first write that fails it ends with `Device`, and a
/// prefix of the texts was written: nothing is sent again.
pub fn write_lines<W: CountedWrite>(
    first: &[u8],
    second: &[u8],
    third: &[u8],
    out: &mut W,
) -> Result<(), WriteFault>
    ensures ok { OnOk result (Appends (W.contents out.old) (W.contents out.new) (first.now ++ second.now ++ third.now)) }
    ensures prefix { OnErr result (AppendsPrefix (W.contents out.old) (W.contents out.new) (first.now ++ second.now ++ third.now)) }

    // An error comes exactly where a write failed in this call.
    ensures count { W.failures out.new ≡ count_after (is_err result) (W.failures out.old) }

    // Of 1 to 4,096 bytes just one write took its whole piece: it is the only one, if the writer takes it whole.
    ensures one_write { 0 < length (first.now ++ second.now ++ third.now)
        → OnOk result (TakesOneWrite (first.now ++ second.now ++ third.now) (W.whole_writes out.old) (W.whole_writes out.new)) }
{
    let mut held = WriteBuffer::new();
    put(&mut held, first, out)?;
    put(&mut held, second, out)?;
    put(&mut held, third, out)?;
    write_bytes(held.as_slice(), out)
}
