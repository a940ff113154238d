//! What the items of a frame or of a shape come to, judged or not: calls, losses, chains, and how far what is lit is from the
//! window's edges.
//!
//! [`survey_frame`] tells what a frame's own items call and light, [`find_chain`] by which calls it comes to a shape,
//! [`deepest_calls`] which calls below a shape go deepest, [`furthest_stroke`] which stroke reaches furthest towards an edge,
//! [`frame_losses`] and [`shape_losses`] by which items the known place and the known scale were lost, [`shapes_extent`] where shapes
//! may light something, [`Margins`] how far that is from the edges of the window, and [`entry_places`] where a call of an entry may
//! stand.
//!
//! [`compare`] tells what a patch touches: the shapes that read a word in which two ROMs differ, and the frames that reach one of them.
//! [`first_differing`] says whether a shape reads such a word, [`touched_entries`] which entries of a certificate have such a shape, and
//! [`reaches_touched`] whether there is one. A frame whose own certificate has none is judged alike over both ROMs, and if it is accepted,
//! its runs are the same over both ([`laws`]).
#![tactic(auto)]

mod calls;
mod chains;
mod comparing;
mod deepest;
mod extents;
mod frame_survey;
mod furthest;
mod items;
mod keyed_words;
pub mod laws;
mod losses;
mod margins;
mod places;
mod reached;
mod touched;

pub use calls::Call;
pub use chains::find_chain;
pub use comparing::{Comparison, compare};
pub use deepest::deepest_calls;
pub use extents::shapes_extent;
pub use frame_survey::{FrameSurvey, is_faint, survey_frame};
pub use furthest::furthest_stroke;
pub use losses::{Losses, frame_losses, shape_losses};
pub use margins::Margins;
pub use places::{CallPlaces, EntryPlaces, Rectangle, entry_places};
pub use touched::{TouchedEntry, first_differing, reaches_touched, touched_entries};
