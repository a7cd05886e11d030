//! The sources of each statement of a script, and which results are shared.
#![tactic(auto)]

mod finding;
mod kept;
mod mentions;
mod origin;
mod origins;
mod outputs;
mod places;
mod refs;
mod sharing;
mod widths;

pub use finding::input_at;
pub use origin::Origin;
pub use origins::origins_of;
pub use places::{is_shared, place_of};
pub use sharing::{Sharing, sharing_of};
