//! The columns that the names of a statement see, and what its names stand for among them.
#![tactic(auto)]

pub mod carrying;
pub mod copies;
pub mod equalities;
pub mod finding;
pub mod groups;
mod input;
pub mod inputs;
pub mod operators;
mod over_ops;
pub mod seen;
mod sides;
pub mod sight;
mod view;
pub mod views;

pub use equalities::{are_sides, left_of, right_of, sides_of};
pub use input::Input;
pub use inputs::{alias_of, heading_at, input_at};
pub use operators::{is_outputter, outer_name, outer_side, width_args};
pub use over_ops::{inline_columns, input_of, input_of_opt, inputs_of, view_of};
pub use sides::Sides;
pub use sight::{place_of, sight_of, sight_of_columns};
pub use view::View;
