//! The items by which the known place and the known scale were lost before a word.

ghost use Rattle.std.specs.Prelude.{◌≡◌, ◌<◌, Contains, IfSome, IfNone};
ghost use Rattle.dvg_words.specs.Memory.{frame_word, rom_word};
ghost use Rattle.dvg_words.specs.declared.map.TheConstants.{ADDRESS_END};
ghost use Rattle.dvg_cert.specs.Entry.{IsKey};
ghost use Rattle.dvg_items.specs.Known.{frame_context, shape_context};
ghost use Rattle.dvg_items.specs.declared.item.Kind.TheVariants.{Frame, Shape};
ghost use Rattle.dvg_survey.specs.Losses.{AreLosses, NoneLead, place_loss, scale_loss};
ghost use Rattle.dvg_survey.specs.Private.Walking.{context_of};

use dvg_cert::{Cert, End, Entries, Entry, Key};
use dvg_items::{Item, Seen, SeenItems, WalkContext};
use dvg_words::{Fetch, FrameImage, FrameOn, Machine, RomImage};

/// The item by which the known place was lost, and the item by which the known scale was lost, if nothing has set it since. `None`
/// where it is known, or never was.
#[derive(Clone, Copy)]
pub struct Losses {
    pub place: Option<Item>,
    pub scale: Option<Item>,
}

/// The item by which the place past an item was lost; `None` where it is known, or never was. `by` is the item by which the place
/// before it was lost.
fn place_loss(item: &Item, before: &End, after: &End, by: Option<Item>) -> Option<Item>
    ensures { result ≡ place_loss item.now before.now after.now by }
{
    match (before, after) {
        (End::Lost, End::Lost) => by,
        (_, End::Lost) => Some(*item),
        _ => None,
    }
}

/// The item by which the scale past an item was lost; `None` where it is known, or never was. `by` is the item by which the scale
/// before it was lost.
fn scale_loss(item: &Item, before: Key, after: Key, by: Option<Item>) -> Option<Item>
    ensures { result ≡ scale_loss item.now before after by }
{
    match (before, after) {
        (Key::Any, Key::Any) => by,
        (_, Key::Any) => Some(*item),
        _ => None,
    }
}

impl Losses {
    /// Nothing was lost so far.
    const NONE: Losses = Losses {
        place: None,
        scale: None,
    };

    /// The losses past an item. `self` are the losses before it, and `scale` is the known scale there.
    fn past(self, scale: Key, seen: &Seen) -> Losses
        ensures place { result.place ≡ place_loss seen.now.item seen.now.place seen.now.after.place self.place }
        ensures scale { result.scale ≡ scale_loss seen.now.item scale seen.now.after.scale self.scale }
    {
        Losses {
            place: place_loss(&seen.item, &seen.place, &seen.after.place, self.place),
            scale: scale_loss(&seen.item, scale, seen.after.scale, self.scale),
        }
    }
}

/// The losses before a word address of a walk; `None` where the items don't lead to it.
fn losses_before<F: Fetch, E: Entries>(
    memory: &F,
    entries: &E,
    walk: &WalkContext,
    at: u16,
) -> Option<Losses>
    requires first { walk.now.first < ADDRESS_END }
    requires scale { IsKey walk.now.scale }
    ensures some { IfSome result (AreLosses (context_of (F.words memory.now).machine (E.list entries.now) walk.now) (F.words memory.now) walk.now.first at) }
    ensures none { IfNone result (NoneLead walk.now.kind (F.words memory.now) walk.now.first at) }
{
    if walk.first == at {
        return Some(Losses::NONE);
    }
    let mut losses = Losses::NONE;
    let mut scale = walk.scale;
    for seen in SeenItems::new(memory, entries, walk) {
        losses = losses.past(scale, &seen);
        if seen.item.next_address(walk.kind) == Some(at) {
            return Some(losses);
        }
        scale = seen.after.scale;
    }
    None
}

/// The items of a frame by which the known place and the known scale were lost before a word of the frame, by the claims of a
/// certificate (profile). `None` where the frame's items don't lead to this word. `entries` are those of the certificate. Takes no
/// memory.
pub fn frame_losses<E: Entries>(
    machine: Machine,
    cert: &Cert,
    entries: &E,
    frame: &FrameImage,
    at: u16,
) -> Option<Losses>
    requires { E.list entries.now ≡ cert.now.entries }
    ensures some { IfSome result (AreLosses (frame_context machine cert.now.entries) (frame_word machine frame.now) 0 at) }
    ensures none { IfNone result (NoneLead Frame (frame_word machine frame.now) 0 at) }
{
    cert.prove_certificate();
    losses_before(
        &FrameOn::new(machine, frame),
        entries,
        &WalkContext::frame(),
        at,
    )
}

/// The items of an entry's shape by which the known place and the known scale were lost before a word of the ROM, as
/// [`frame_losses`] says it of a frame.
pub fn shape_losses<E: Entries>(
    rom: &RomImage,
    cert: &Cert,
    entries: &E,
    entry: &Entry,
    at: u16,
) -> Option<Losses>
    requires entries { E.list entries.now ≡ cert.now.entries }
    requires entry { Contains cert.now.entries entry.now }
    ensures some { IfSome result (AreLosses (shape_context rom.now.machine cert.now.entries entry.now) (rom_word rom.now) entry.now.addr at) }
    ensures none { IfNone result (NoneLead Shape (rom_word rom.now) entry.now.addr at) }
{
    cert.prove_certificate();
    losses_before(rom, entries, &WalkContext::shape(entry), at)
}
