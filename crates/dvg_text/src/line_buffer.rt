//! Bytes put together in place.

ghost use Rattle.std.specs.Prelude.{◌≡◌, ◌+◌, ◌≤◌, ◌<◌, ◌∷◌, ◌++◌, length};
ghost use Rattle.arrayvec.specs.ArrayVec.{array_vec_len};

use crate::limits::{LONGEST_LINE, MOST_AT_ONCE, SPACE};
use arrayvec::ArrayVec;

/// The bytes of a line so far.
pub type LineBuffer = ArrayVec<u8, LONGEST_LINE>;

/// Bytes that are put together for a write, on the stack.
pub type WriteBuffer = ArrayVec<u8, MOST_AT_ONCE>;

/// Puts bytes at the end of a buffer that has room for them. Takes no memory.
pub fn push_bytes<const N: usize>(buffer: &mut ArrayVec<u8, N>, bytes: &[u8])
    requires { array_vec_len buffer.old + length bytes.now ≤ N }
    ensures { buffer.new.items ≡ buffer.old.items ++ bytes.now }
{
    let fits = buffer.try_extend_from_slice(bytes).is_ok();
    prove!(fits);
}

/// Puts a space and a token at the end of a buffer that has room for them. Takes no memory.
pub fn push_token<const N: usize>(buffer: &mut ArrayVec<u8, N>, token: &[u8])
    requires { array_vec_len buffer.old + length token.now < N }
    ensures value { buffer.new.items ≡ buffer.old.items ++ SPACE ∷ token.now }
    ensures len { array_vec_len buffer.new ≡ array_vec_len buffer.old + 1 + length token.now }
{
    push_bytes(buffer, &[SPACE]);
    push_bytes(buffer, token);
}
