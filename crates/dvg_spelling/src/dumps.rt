//! The line of `explain diff`.

ghost use Rattle.std.specs.Prelude.{◌≡◌, ◌+◌, ◌≤◌, ◌++◌, length, decimal};
ghost use Rattle.arrayvec.specs.ArrayVec.{array_vec_len};
ghost use Rattle.dvg_spelling.specs.Dumps.{dump_line};

use arrayvec::ArrayVec;
use dvg_dumps::Differences;
use dvg_text::push_bytes;
use itoa::Buffer;

/// A line of at most 64 bytes, its LF included.
pub type DumpLine = ArrayVec<u8, 64>;

/// The line that tells in how much two dumps differ, with its LF, or that they are equal. Takes no memory.
pub fn dump_line_of(differences: Option<Differences>) -> DumpLine
    ensures { result.items ≡ dump_line differences }
{
    let mut line = DumpLine::new();
    let Some(differences) = differences else {
        push_bytes(&mut line, b"equal\n");
        return line;
    };
    push_count(&mut line, b"differ bytes=", differences.bytes);
    push_count(&mut line, b" words=", differences.words);
    push_count(&mut line, b" bits=", differences.bits);
    push_bytes(&mut line, b"\n");
    line
}

/// A count behind its label.
fn push_count(line: &mut DumpLine, label: &[u8], count: u32)
    requires { array_vec_len line.old + length label.now ≤ 53 }
    ensures text { line.new.items ≡ line.old.items ++ label.now ++ decimal count }
    ensures short { array_vec_len line.new ≤ array_vec_len line.old + length label.now + 10 }
{
    push_bytes(line, label);
    push_bytes(line, Buffer::new().format(count).as_bytes());
}
