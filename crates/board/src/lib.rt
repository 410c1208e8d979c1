// A board: its stages, and every call that a client makes on it. All tables are lent to each call; a board holds numbers only.
#![tactic(auto)]

mod board;
mod check;
mod closed;
mod course;
mod fill;
mod group;
mod lengths;
mod log;
mod numbers;
mod resume;
mod settle;
mod stage;
mod standing;
mod trial;

pub use board::{Board, Rejected};
pub use course::{Course, Memory};
pub use fill::check_size;
pub use lengths::Lengths;
pub use numbers::Numbers;
pub use stage::{AtWork, Closed, Filling, Settled, Stage};
