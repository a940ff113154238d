//! Reading the names of a list, one after another.

ghost use Rattle.std.specs.Prelude.{◌≡◌, ◌++◌, [], ◌∷◌, take, option_map, IfOk, OnOk, OnErr};
ghost use Rattle.dvg_cmd.specs.Names.{MOST_NAME_READ, FailsName, ReadsNext, end_byte};

use arrayvec::ArrayVec;
use dvg_text::CountedRead;
use std::io;

/// What stands behind each name of a list.
#[derive(Clone, Copy, Debug, PartialEq, Eq)]
pub enum NameEnd {
    /// LF.
    Line,
    /// NUL.
    Nul,
}

impl NameEnd {
    fn byte(self) -> u8
        ensures { result ≡ end_byte self }
    {
        match self {
            NameEnd::Line => b'\n',
            NameEnd::Nul => 0,
        }
    }
}

/// The bytes of a name: up to one past the longest, which is 4096.
pub type NameBytes = ArrayVec<u8, 4097>;

/// Keeps a byte of a name, if it is not past what is kept.
fn keep(name: &mut NameBytes, byte: u8)
    ensures { name.new.items ≡ take MOST_NAME_READ (name.old.items ++ byte ∷ []) }
{
    if !name.is_full() {
        name.push(byte);
    }
}

/// The next name that a list holds, or `None` at its end. It is read through the byte behind it, which the last name may lack; of a
/// name over 4096 bytes 4097 are kept. A name may be empty.
/// An error says that a read failed, or that 2^64 - 1 bytes were read and none of them is the byte behind a name.
#[tactic(auto, using(crate::proofs::Naming::first_byte, crate::proofs::Naming::one_byte))]
pub fn read_name<R: CountedRead>(list: &mut R, end: NameEnd) -> io::Result<Option<NameBytes>>
    ensures name { IfOk result (λ name. ReadsNext (end_byte end) (R.remaining list.old) (R.remaining list.new)
        (option_map (λ kept. kept.items) name)) }
    ensures count { OnOk result (R.failures list.new ≡ R.failures list.old) }
    ensures failed { OnErr result (FailsName (end_byte end) (R.remaining list.old) (R.remaining list.new)
        (R.failures list.old) (R.failures list.new)) }
{
    let mut name = NameBytes::new();
    let mut byte = [0];
    // No list has so many bytes.
    for len in 0..u64::MAX {
        if list.read_counted(&mut byte)? == 0 {
            return Ok(if len == 0 { None } else { Some(name) });
        }
        let [read] = byte;
        if read == end.byte() {
            return Ok(Some(name));
        }
        keep(&mut name, read);
    }
    Err(io::Error::from(io::ErrorKind::InvalidData))
}
