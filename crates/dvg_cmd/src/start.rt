//! The list of a frame that is judged: its own from word 000 on, or the one to which a jump in word 000 leads.

ghost use Rattle.std.specs.Prelude.{◌≡◌, length};
ghost use Rattle.dvg_cmd.specs.Start.{jumped, started};

/// Puts a jump to the lower twelve bits of this word address at word 000, if the frame has this word.
fn put_jump(bytes: &mut [u8], to: u16)
    ensures bytes { bytes.new ≡ jumped to bytes.old }
    ensures len { length bytes.new ≡ length bytes.old }
{
    if bytes.len() >= 2 {
        bytes[0] = (to % 256) as u8;
        bytes[1] = 224 + (to / 256 % 16) as u8;
    }
}

/// Has the bytes of a frame start at a word address, if one is given.
pub fn start_at(bytes: &mut [u8], start: Option<u16>)
    ensures bytes { bytes.new ≡ started start bytes.old }
    ensures len { length bytes.new ≡ length bytes.old }
{
    if let Some(to) = start {
        put_jump(bytes, to);
    }
}
