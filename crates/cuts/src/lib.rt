// Cuts, the current lists that they leave of the opened ones, and the checks of what a board's tables hold.
#![tactic(auto)]

mod check;
mod current;
mod cut;

pub use check::{check_cuts, check_lists};
pub use current::write_current;
pub use cut::{Action, Cut};
