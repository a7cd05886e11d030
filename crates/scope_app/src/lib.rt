//! The top call: reads a script, runs it over a store, and says how that ended.
//!
//! A script's text is bound to its Dag (`binding`), the Dag is brought to its normal form (`normal`), the sizes and the parts of its streams
//! are read, and the plain program's rows are written (`running`).
#![tactic(auto)]

mod binding;
mod laws;
mod normal;
mod report;
mod running;
mod sizes;
mod status;
mod top;

pub use binding::read_dag;
pub use report::{status_line, status_number};
pub use status::{ScriptPlace, Status};
pub use top::scope_main;
