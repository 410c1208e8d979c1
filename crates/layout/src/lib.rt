// The layout of sheets: which bytes are blocks of a sound sheet, and the first fault of those that are not.
#![tactic(auto)]

mod block;
mod bytes;
mod fault;
mod letter;
mod parts;
mod sheet;

pub use fault::{BlockFault, LayoutFault};
pub use sheet::check_layout;
