// A day on a board: any sequence of calls, and the one law that covers it.
#![tactic(auto)]

mod ask;
mod call;
mod day;
mod event;
mod offer;
mod run;

pub use day::{DayRefusal, run_day};
pub use event::{Answer, Ask, Call, Event};
pub use offer::Offer;
