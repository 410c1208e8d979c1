// Settling: the lists are narrowed by the rules until the greatest consistent family is left.
#![tactic(auto)]

mod agenda;
mod checked;
mod counts;
mod fixed_point;
mod theorems;
mod wake;

pub use agenda::WakeUp;
pub use checked::settle_family;
pub use fixed_point::settle;
pub use theorems::{
    converse_fails, cuts_restore_nothing, order_is_free, placings_stay, settled_stays,
};
