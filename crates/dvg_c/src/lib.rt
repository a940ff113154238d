//! The checker for programs in C: a static library whose exports call those of `dvg_verdict`, `dvg_cmd` and `dvg_recipe_cmd`, and state
//! their clauses again.
//!
//! C meets no `requires`, so no export has one: what a call asks is tested, and answered by a number.
#![tactic(auto)]

mod alone;
mod answer;
mod explain;
mod exports;
mod make;
mod passed;
mod recipe;
mod text;

pub use answer::Answer;
pub use exports::{
    dvgcheck_belongs, dvgcheck_explain, dvgcheck_frame_alone, dvgcheck_frame_by_certificate,
    dvgcheck_make, dvgcheck_recipe, dvgcheck_version,
};
pub use make::Root;
pub use passed::{MapEnds, WindowEnds};
pub use recipe::RecipeAnswer;
pub use text::TextAnswer;
