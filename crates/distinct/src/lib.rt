// Rules that ask different places of their jobs.
#![tactic(auto)]

mod group;
mod narrow;
mod rule;
mod scope;
mod sift;

pub use group::{Deficiency, deficient_group};
pub use rule::Distinct;
