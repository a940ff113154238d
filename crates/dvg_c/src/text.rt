//! Texts in the buffers that C passes.

ghost use Rattle.std.specs.Prelude.{◌≡◌};
ghost use Rattle.dvg_c.specs.Texts.{IsPut, text_numbered};

use crate::answer::{Answer, SHORT_BUFFER, numbered};

/// The answer of a call that writes a text.
#[repr(C)]
#[derive(Clone, Copy)]
pub struct TextAnswer {
    /// How many bytes the text has; 0 where there is none.
    pub length: usize,
    /// Of a made text, with 2 and with 60 to 63 at a call: which frame, counted from 0.
    pub frame: usize,
    /// What the text is about.
    pub answer: Answer,
    /// 0 where the text stands whole in the buffer, 84 where the buffer is too short for it, else why there is none.
    pub number: u8,
}

/// Puts a text at the start of a buffer, if it fits.
pub fn put_text(text: &[u8], answer: Answer, buffer: &mut [u8]) -> TextAnswer
    ensures put { IsPut text.now buffer.old buffer.new result }
    ensures answer { result.answer ≡ answer }
    ensures frame { result.frame ≡ 0 }
{
    let length = text.len();
    if buffer.len() < length {
        return TextAnswer {
            length,
            ..no_text(SHORT_BUFFER, answer)
        };
    }
    buffer[..length].copy_from_slice(text);
    TextAnswer {
        length,
        ..no_text(0, answer)
    }
}

/// Says by a number why there is no text.
pub fn no_text(number: u8, answer: Answer) -> TextAnswer
    ensures { result ≡ record { length = 0; frame = 0; answer = answer; number = number } }
{
    TextAnswer {
        length: 0,
        frame: 0,
        answer,
        number,
    }
}

/// Says by a number alone why there is no text, and no answer either.
pub fn text_numbered(number: u8) -> TextAnswer
    ensures { result ≡ text_numbered number }
{
    no_text(number, numbered(number))
}
