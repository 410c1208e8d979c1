// Sets of places, the kinds that they are stored in, and families of them.
#![tactic(auto)]

mod family;
mod needles;
mod rising;
mod row;
mod set;

pub use family::empty;
pub use needles::NeedleList;
pub use row::CarrierRow;
pub use set::{NoList, PlaceSet, Places};
