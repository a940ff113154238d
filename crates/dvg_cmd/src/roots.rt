//! Roots that words of the command line spell, by addresses or by labels.

ghost use Rattle.std.specs.Prelude.{IfOk, IfErr, IfSome, IfNone};
ghost use Rattle.dvg_cmd.specs.Roots.{NamesRoot, IsNoRoot, IsRootBy, NamesNoAddress};

use dvg_cert::Key;
use dvg_labels::{Labels, Unnamed};
use dvg_spelling::root_of;
use dvg_text::read_key;

/// What stands between a label's name and a scale.
const SLASH: char = '/';

/// The name and the key of a label's root.
fn name_and_key(text: &str) -> Option<(&str, Key)>
    ensures { IfSome result (λ root. NamesRoot text.now root.0.now root.1) }
{
    let (name, key) = text.split_once(SLASH)?;
    Some((name, read_key(key.as_bytes())?))
}

/// The root that a word of the command line spells, if it has the form of one: as [`root_of`] reads it; else by a label of these, with
/// its name, which has no slash, in place of the address. Fails if it has the form of a label's root, and the label names no address.
#[tactic(auto, using(std::proofs::lemmas::Bool::Decides::nat_tests))]
pub fn root_by(labels: Option<&Labels>, text: &str) -> Result<Option<(u16, Key)>, Unnamed>
    ensures some { IfOk result (λ root. IfSome root (λ root. IsRootBy labels.entry text.now root.0 root.1)) }
    ensures none { IfOk result (λ root. IfNone root (IsNoRoot text.now)) }
    ensures err { IfErr result (NamesNoAddress labels.entry text.now) }
{
    let root = root_of(text);
    if root.is_some() {
        return Ok(root);
    }
    let (Some(labels), Some((name, key))) = (labels, name_and_key(text)) else {
        return Ok(None);
    };
    let addr = labels.address_of(name.as_bytes())?;
    Ok(Some((addr, key)))
}
