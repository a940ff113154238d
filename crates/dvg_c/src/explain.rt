//! The account of a frame that is judged from the ROM alone.

ghost use Rattle.std.specs.Prelude.{IfSome};
ghost use Rattle.dvg_c.specs.Texts.{IsAccount};

use dvg_check::Yes;
use dvg_cmd::{Answer, Behind, FrameRefusal, Report};
use std::alloc::Global;

/// The account of a verdict, its line before it; `None` where there was no memory for it.
pub fn account_of(
    alloc: Global,
    verdict: &Result<Yes, FrameRefusal>,
    behind: &Behind,
) -> Option<Vec<u8>>
    ensures { IfSome result (λ text. IsAccount verdict.now text.items) }
{
    let Ok(Some(account)) = behind else {
        return None;
    };
    let answer = Answer::Judged(*verdict);
    let mut line = Report::new();
    answer.push_to(&mut line);
    let line = line.ended();
    let mut text = Vec::new(alloc);
    text.extend_from_slice(line.as_bytes()).ok()?;
    text.extend_from_slice(account.as_str().as_bytes()).ok()?;
    Some(text)
}
