//! Reading inputs to their limits.

ghost use Rattle.std.specs.Prelude.{◌≡◌, ◌≤◌, ◌<◌, length, take, IfOk, IfErr, OnOk, IfSome, is_err};
ghost use Rattle.std.specs.Io.KnownBytes.{Consumes, IsAtEnd};
ghost use Rattle.dvg_text.specs.Devices.{count_after};
ghost use Rattle.dvg_cmd.specs.Runs.{MOST_ROM_READ, MOST_FRAME_READ, IsReadTo, ReadsText};
ghost use Rattle.dvg_cmd.specs.Private.Reading.{IsPrefix};

use arrayvec::ArrayVec;
use dvg_cert::Cert;
use dvg_spelling::RunFault;
use dvg_text::laws::short_text;
use dvg_text::{CertReader, CountedRead, RefusedText};
use std::alloc::Global;
use std::io;

/// Fills the buffer, or less of it where the reader ends before: answers how many bytes of it are filled. Reads no further, and fails as
/// the reader does.
#[tactic(auto, using(crate::proofs::Pieces::take_filled, std::proofs::lemmas::Grind::common_steps))]
pub fn fill<R: CountedRead>(reader: &mut R, buf: &mut [u8]) -> io::Result<usize>
    ensures within { IfOk result (λ n. n ≤ length buf.new) }
    ensures bytes { IfOk result (λ n. Consumes (R.remaining reader.old) (R.remaining reader.new) (take n buf.new)) }
    ensures end { IfOk result (λ n. n < length buf.new → IsAtEnd (R.remaining reader.new)) }
    ensures count { R.failures reader.new ≡ count_after (is_err result) (R.failures reader.old) }
{
    let mut filled = 0;
    'filling: while filled < buf.len() {
        let n = reader.read_counted(&mut buf[filled..])?;
        if n == 0 {
            return Ok(filled);
        }
        filled += n;
    }
    Ok(filled)
}

/// Fills the buffer, or less of it where the reader ends before, with the first of the bytes that the reader holds.
pub fn read_prefix<R: CountedRead>(reader: &mut R, buf: &mut [u8]) -> io::Result<usize>
    ensures within { IfOk result (λ n. n ≤ length buf.new) }
    ensures prefix { IfOk result (λ n. IfSome (R.remaining reader.old) (λ held. take n buf.new ≡ take (length buf.old) held)) }
    ensures read { OnOk result (IsReadTo (length buf.old) (R.remaining reader.old) (R.remaining reader.new)) }
    ensures count { R.failures reader.new ≡ count_after (is_err result) (R.failures reader.old) }
{
    fill(reader, buf)
}

/// The bytes of an image, up to `N` of them. Takes no memory.
#[tactic(auto, unfolding(crate::specs::Private::Reading::limited))]
fn read_image<const N: usize, R: CountedRead>(reader: &mut R) -> io::Result<ArrayVec<u8, N>>
    ensures bytes { IfOk result (λ image. IsPrefix N (R.remaining reader.old) image.items) }
    ensures read { OnOk result (IsReadTo N (R.remaining reader.old) (R.remaining reader.new)) }
    ensures count { R.failures reader.new ≡ count_after (is_err result) (R.failures reader.old) }
{
    let mut bytes = [0; N];
    let len = read_prefix(reader, &mut bytes)?;
    let mut image = ArrayVec::from_array_in((), bytes);
    image.truncate(len);
    Ok(image)
}

/// The bytes of a ROM, up to one past the length of the longest, which is 4096. Takes no memory.
pub fn read_rom<R: CountedRead>(reader: &mut R) -> io::Result<ArrayVec<u8, 4097>>
    ensures bytes { IfOk result (λ image. IsPrefix MOST_ROM_READ (R.remaining reader.old) image.items) }
    ensures read { OnOk result (IsReadTo MOST_ROM_READ (R.remaining reader.old) (R.remaining reader.new)) }
    ensures count { R.failures reader.new ≡ count_after (is_err result) (R.failures reader.old) }
{
    read_image::<4097, R>(reader)
}

/// The bytes of a frame, up to one past its limit, which is 2048. Takes no memory.
pub fn read_frame<R: CountedRead>(reader: &mut R) -> io::Result<ArrayVec<u8, 2049>>
    ensures bytes { IfOk result (λ image. IsPrefix MOST_FRAME_READ (R.remaining reader.old) image.items) }
    ensures read { OnOk result (IsReadTo MOST_FRAME_READ (R.remaining reader.old) (R.remaining reader.new)) }
    ensures count { R.failures reader.new ≡ count_after (is_err result) (R.failures reader.old) }
{
    read_image::<2049, R>(reader)
}

/// How many bytes of a certificate are read at once. A piece that is not full is the last.
const PIECE: usize = 4096;

/// Reads to the end, or so many bytes, and keeps none of them.
#[tactic(auto, using(crate::proofs::Pieces::piece_skipped, std::proofs::lemmas::Grind::common_steps))]
pub fn skip<R: CountedRead>(reader: &mut R, most: usize) -> io::Result<()>
    ensures read { OnOk result (IsReadTo most (R.remaining reader.old) (R.remaining reader.new)) }
    ensures count { R.failures reader.new ≡ count_after (is_err result) (R.failures reader.old) }
{
    let mut piece = [0; PIECE];
    let mut left = most;
    'skipping: while left > 0 {
        let room = left.min(PIECE);
        let len = fill(reader, &mut piece[..room])?;
        left = if len == room { left - room } else { 0 };
    }
    Ok(())
}

/// The answer to the certificate that a reader holds. It is read piece by piece, up to its end or
/// through the piece in which it is refused.
pub fn read_certificate<R: CountedRead>(
    alloc: Global,
    source: &mut R,
) -> io::Result<Result<Cert, RefusedText>>
    ensures answer { IfOk result (ReadsText (R.remaining source.old) (R.remaining source.new)) }
    ensures count { R.failures source.new ≡ count_after (is_err result) (R.failures source.old) }
{
    // The law by which a text that may still be taken is short, so that there are few pieces.
    short_text();
    let mut reader = CertReader::new(alloc);
    let mut piece = [0; PIECE];
    let mut len = PIECE;
    'feeding: while len == PIECE {
        len = fill(source, &mut piece)?;
        match reader.feed(&piece[..len]) {
            Ok(()) => {}
            Err(fault) => return Ok(Err(reader.into_refused(fault))),
        }
    }
    match reader.finish() {
        Ok(cert) => Ok(Ok(cert)),
        Err(fault) => Ok(Err(RefusedText::unended(fault))),
    }
}

/// The bytes of a ROM, up to one past the length of the longest, which is 4096. Answers 70 if the reader fails. Takes no
/// memory.
#[tactic(auto, unfolding(crate::specs::Private::Reading::limited))]
pub fn load_rom<R: CountedRead>(rom: &mut R) -> Result<ArrayVec<u8, 4097>, RunFault>
    ensures bytes { IfOk result (λ bytes. IfSome (R.remaining rom.old) (λ held. bytes.items ≡ take MOST_ROM_READ held)) }
    ensures read { OnOk result (IsReadTo MOST_ROM_READ (R.remaining rom.old) (R.remaining rom.new)) }
    ensures fault { IfErr result (λ fault. fault ≡ RunFault.ReadRom) }
    ensures count { R.failures rom.new ≡ count_after (is_err result) (R.failures rom.old) }
{
    match read_rom(rom) {
        Ok(bytes) => Ok(bytes),
        Err(_) => Err(RunFault::ReadRom),
    }
}

/// The answer to the certificate that a reader holds, which is read as [`run_check`](crate::run_check) reads it. Answers 72 if
/// the reader fails.
pub fn load_cert<R: CountedRead>(
    alloc: Global,
    cert: &mut R,
) -> Result<Result<Cert, RefusedText>, RunFault>
    ensures answer { IfOk result (ReadsText (R.remaining cert.old) (R.remaining cert.new)) }
    ensures fault { IfErr result (λ fault. fault ≡ RunFault.ReadCert) }
    ensures count { R.failures cert.new ≡ count_after (is_err result) (R.failures cert.old) }
{
    match read_certificate(alloc, cert) {
        Ok(answer) => Ok(answer),
        Err(_) => Err(RunFault::ReadCert),
    }
}
